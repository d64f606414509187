//! A board that shows a tally's sum.
ghost use Rattle.std.specs.Prelude.{◌≡◌, true};
ghost use Rattle.std.proofs.Props.{props};
ghost use Rattle.history_lock.specs.Replay.{replay};
ghost use Rattle.lock_trial.specs.Adds.{add_step};
ghost use Rattle.machine_trial.specs.Boards.{Shows};

use lock_trial::Tally;
use machine_session::Follower;
use std::alloc::{AllocError, Global};

/// A board that shows the sum of a tally as long as it is up: it has room for so many changes, and goes down at the next one.
#[derive(Clone, Copy, Debug, Drop)]
pub struct Board {
    pub sum: u64,
    pub up: bool,
    pub room: u32,
}

impl Follower<Tally> for Board {
    ghost keeps = { λ board opening log. Shows board.up board.sum (replay add_step opening log) };

    ghost Tag = { Unit {0} };

    ghost tag = { λ board. tt };

    ghost whole = { λ board. board.up };

    ghost keeps_is_fact = { λ board opening log. Prim.hlevel props };

    fn follow(self, _alloc: Global, machine: &Tally) -> (Board, Result<(), AllocError>) {
        if self.room == 0 {
            let down = Board { up: false, ..self };
            return (down, Err(AllocError));
        }
        let shown = Board {
            sum: machine.value(),
            up: self.up,
            room: self.room - 1,
        };
        (shown, Ok(()))
    }
}
