//! How a thread waits for another.
use std::sync::Wait;
use std::thread;
use std::thread::Parker;
use std::time::Duration;

// How often it lets others run before it sleeps.
const YIELDS: u32 = 64;

// How long it sleeps, in microseconds.
const NAP: u64 = 50;

/// The rounds of a wait: at first each lets another thread run, and after a while each sleeps.
#[derive(Drop)]
pub(crate) struct Pause {
    rounds: u32,
    parker: Parker,
}

impl Pause {
    pub(crate) fn new() -> Pause {
        Pause {
            rounds: 0,
            parker: Parker::new(),
        }
    }

    /// The wait is over: the next one begins anew.
    pub(crate) fn end(&mut self) {
        self.rounds = 0;
    }

    pub(crate) fn rest<R: Wait>(&mut self, rt: &R) {
        if self.rounds < YIELDS {
            self.rounds += 1;
            thread::yield_now();
        } else {
            self.parker.park_timeout(rt, Duration::from_micros(NAP));
        }
    }
}
