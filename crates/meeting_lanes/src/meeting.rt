//! Where connections meet.

use std::sync::atomic::{AtomicU32, Ordering};
use std::thread::yield_now;

/// How many connections have come, how many there are to be, and how often one gave up waiting for the others.
#[derive(Drop)]
pub struct Meeting {
    came: AtomicU32,
    gave_up: AtomicU32,
    wanted: u32,
    turns: u32,
}

impl Meeting {
    /// A meeting of so many connections, each of which looks so often at most whether the others have come.
    pub fn new(wanted: u32, turns: u32) -> Meeting {
        Meeting {
            came: AtomicU32::new(0),
            gave_up: AtomicU32::new(0),
            wanted,
            turns,
        }
    }

    /// How often one gave up.
    pub fn given_up(&self) -> u32 {
        self.gave_up.load(Ordering::SeqCst)
    }

    /// Comes.
    pub(crate) fn come(&self) {
        self.came.fetch_add(1, Ordering::SeqCst);
    }

    /// Comes, and waits until all have come, or for as many turns as may be.
    pub(crate) fn meet(&self) {
        self.come();
        for _ in 0..self.turns {
            if self.came.load(Ordering::SeqCst) >= self.wanted {
                return;
            }
            yield_now();
        }
        self.gave_up.fetch_add(1, Ordering::SeqCst);
    }
}
