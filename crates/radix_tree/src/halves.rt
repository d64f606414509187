//! Halves of blocks, and the block at which two others part.

ghost use Rattle.std.specs.Prelude.{◌≡◌};
ghost use Rattle.inet_num.specs.Net.{IsBlock, IsInside, IsStrictlyInside};
ghost use Rattle.radix_tree.specs.Shape.{half, whole, HasRoom};
ghost use Rattle.radix_tree.specs.Find.{IsJoint};

use inet_num::{Addr, Block, Family};

/// The block of all addresses of a family.
pub fn whole_of(family: Family) -> Block
    ensures { result ≡ whole family }
{
    let Some(first) = Addr::of(family, 0) else {
        unreachable!()
    };
    match Block::of(first, 0) {
        Some(block) => block,
        None => unreachable!(),
    }
}

/// One half of a block that is no single address: the high one, or the low one.
pub fn half_of(block: &Block, high: bool) -> Block
    requires { HasRoom block.now }
    ensures { result ≡ half high block.now }
{
    let half = if high {
        block.high_half()
    } else {
        block.low_half()
    };
    match half {
        Some(half) => half,
        None => unreachable!(),
    }
}

/// Whether a block that lies strictly inside another one lies in its high half, and not in its low one.
pub fn is_in_high_half(block: &Block, around: &Block) -> bool
    requires lawful { IsBlock block.now }
    requires lawful_around { IsBlock around.now }
    requires inside { IsStrictlyInside block.now around.now }
    ensures { IsInside block.now (half result around.now) }
{
    match around.high_half() {
        Some(high) => high.first().value() <= block.first().value(),
        None => unreachable!(),
    }
}

/// A block that has one block in one half and another in the other, and whether the first lies in its high half.
#[derive(Clone, Copy)]
pub struct Joint {
    pub block: Block,
    pub high: bool,
}

/// Where two blocks inside the land part, of which neither has the other: it goes down from the land by halves.
pub fn join(land: Block, a: &Block, b: &Block) -> Joint
    requires land { IsBlock land }
    requires lawful { IsBlock a.now }
    requires lawful_too { IsBlock b.now }
    requires inside { IsInside a.now land }
    requires inside_too { IsInside b.now land }
    requires apart { ¬ IsInside a.now b.now }
    requires apart_too { ¬ IsInside b.now a.now }
    ensures { IsJoint land a.now b.now result }
{
    let mut around = land;
    while let Some((low, high)) = around.halves() {
        if low.contains(a) {
            if !low.contains(b) {
                return Joint {
                    block: around,
                    high: false,
                };
            }
            around = low;
        } else {
            if !high.contains(b) {
                return Joint {
                    block: around,
                    high: true,
                };
            }
            around = high;
        }
    }
    unreachable!()
}
