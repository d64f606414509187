//! A machine in a box is a machine: a lock then moves a pointer instead of the whole machine.

use crate::machine::Machine;

impl<M: Machine> Machine for Box<M> {
    type Call = M::Call;

    type Reply = M::Reply;

    type Said = M::Said;

    type Answer = M::Answer;

    type State = M::State;

    ghost said = { M.said };

    ghost answer = { M.answer };

    ghost kind = { M.kind };

    ghost fallible = { M.fallible };

    ghost takes = { M.takes };

    ghost blank = { M.blank };

    ghost opening = { λ b. M.opening b.value };

    ghost state = { λ b. M.state b.value };

    ghost log = { λ b. M.log b.value };

    ghost faults = { λ b. M.faults b.value };

    ghost step = { M.step };

    fn act(&mut self, who: u32, call: M::Call) -> M::Reply {
        let machine: &mut M = self.as_mut();
        machine.act(who, call)
    }

    fn entries(&self) -> u64 {
        let machine: &M = self.as_ref();
        machine.entries()
    }
}
