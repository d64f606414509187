//! Texts at their bounds, in characters, and rows copied.

use inet_num::{Addr, Block, Family};
use ipam_data::prefix::{Prefix, PrefixStatus};
use ipam_data::text::{Description, Distinguisher, Name, Slug};
use ipam_data::vrf::Vrf;
use std::alloc::{AllocError, Global};
use std::test::Fail;

fn repeated(alloc: Global, text: &str, count: u32) -> Result<String, AllocError> {
    let mut out = String::new(alloc);
    for _ in 0..count {
        out.push_str(text)?;
    }
    Ok(out)
}

#[test]
fn texts_at_their_bounds(rt: HostRuntime) -> Result<(), Fail> {
    // a text, how often it occurs, and whether that is a name, a slug, a distinguisher, a description
    let cases = [
        ("a", 0, [false, false, false, true]),
        ("a", 1, [true, true, true, true]),
        ("65000:1", 3, [true, false, true, true]),
        ("a", 22, [true, true, false, true]),
        ("Z", 100, [true, true, false, true]),
        ("a", 101, [false, false, false, true]),
        ("a", 200, [false, false, false, true]),
        ("a", 201, [false, false, false, false]),
        ("\u{e9}", 21, [true, false, true, true]),
        ("\u{e9}", 100, [true, false, false, true]),
        ("\u{1f600}", 200, [false, false, false, true]),
        ("-_9", 1, [true, true, true, true]),
        (".", 1, [true, false, true, true]),
        (" ", 1, [true, false, true, true]),
        ("\u{1f}", 1, [false, false, false, false]),
        ("a\n", 1, [false, false, false, false]),
        ("\u{7f}", 1, [false, false, false, false]),
        ("\u{80}", 1, [true, false, true, true]),
    ];
    for (text, count, want) in cases {
        let name = Name::of(repeated(rt.alloc(), text, count)?).is_some();
        let slug = Slug::of(repeated(rt.alloc(), text, count)?).is_some();
        let rd = Distinguisher::of(repeated(rt.alloc(), text, count)?).is_some();
        let description = Description::of(repeated(rt.alloc(), text, count)?).is_some();
        assert!(rt; name == want[0] && slug == want[1], "{text}");
        assert!(rt; rd == want[2] && description == want[3], "{text}");
    }
    Ok(())
}

fn sample_vrf(alloc: Global) -> Result<Option<Vrf>, AllocError> {
    let name = Name::of(repeated(alloc, "red", 1)?);
    let rd = Distinguisher::of(repeated(alloc, "65000:1", 1)?);
    let description = Description::of(String::new(alloc));
    match (name, description) {
        (Some(name), Some(description)) => Ok(Some(Vrf {
            id: 7,
            name,
            rd,
            enforce_unique: true,
            description,
        })),
        _ => Ok(None),
    }
}

/// The copy of a slug.
fn copied_slug(alloc: Global, text: &str) -> Result<Option<Slug>, AllocError> {
    match Slug::of(String::from_str(alloc, text)?) {
        Some(slug) => Ok(Some(slug.copy()?)),
        None => Ok(None),
    }
}

fn sample_prefix(alloc: Global) -> Result<Option<Prefix>, AllocError> {
    let addr = Addr::of(Family::V4, 167772160);
    let block = match addr {
        Some(addr) => Block::of(addr, 24),
        None => None,
    };
    let description = Description::of(repeated(alloc, "lab", 1)?);
    match (block, description) {
        (Some(block), Some(description)) => Ok(Some(Prefix {
            id: 3,
            block,
            vrf: Some(7),
            status: PrefixStatus::Active,
            role: None,
            is_pool: false,
            mark_utilized: true,
            description,
        })),
        _ => Ok(None),
    }
}

fn rd_text(row: &Vrf) -> &str {
    match &row.rd {
        Some(rd) => rd.as_str(),
        None => "",
    }
}

#[test]
fn rows_copied(rt: HostRuntime) -> Result<(), Fail> {
    let vrf = sample_vrf(rt.alloc())?;
    let prefix = sample_prefix(rt.alloc())?;
    let slug = copied_slug(rt.alloc(), "site-7")?.expect(&rt, "a slug");
    assert!(rt; slug.as_str() == "site-7", "slug");
    let vrf = vrf.expect(&rt, "a VRF");
    let copy = vrf.copy()?;
    assert!(rt;
        copy.id == 7 && copy.name.as_str() == "red" && copy.enforce_unique,
        "vrf"
    );
    assert!(rt; rd_text(&copy) == "65000:1", "rd");
    let prefix = prefix.expect(&rt, "a prefix");
    let copy = prefix.copy()?;
    assert!(rt; copy.id == 3 && copy.block == prefix.block, "prefix");
    assert!(rt;
        copy.description.as_str() == "lab" && copy.mark_utilized,
        "prefix"
    );
    Ok(())
}
