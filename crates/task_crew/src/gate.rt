ghost use Rattle.std.specs.Prelude.{◌≢◌};

use std::hint::spin_loop;
use std::sync::atomic::{AtomicBool, Ordering};

/// What a worker calls before each turn of a carrier. It tells nothing.
pub trait Gate {
    /// A worker is about to let the slot move, whose clock is the stamp.
    fn arrive(&self, slot: u32, stamp: u64);
}

/// A gate that every slot passes at once.
#[derive(Clone, Copy, Debug)]
pub struct OpenGate;

impl Gate for OpenGate {
    fn arrive(&self, _slot: u32, _stamp: u64) {}
}

/// A gate at which two slots wait for each other, for tests: whether two workers are at work at the
/// same time.
#[derive(Drop)]
pub struct MeetGate {
    turns: u64,
    one: u32,
    other: u32,
    one_arrived: AtomicBool,
    other_arrived: AtomicBool,
    met: AtomicBool,
}

impl MeetGate {
    /// A gate for two slots. Each call of `arrive` waits for so many turns of a loop at most.
    pub fn new(turns: u64, one: u32, other: u32) -> MeetGate
        requires { one ≢ other }
    {
        MeetGate {
            turns,
            one,
            other,
            one_arrived: AtomicBool::new(false),
            other_arrived: AtomicBool::new(false),
            met: AtomicBool::new(false),
        }
    }

    /// Whether either slot arrived while the other was waiting for it.
    pub fn met(&self) -> bool {
        self.met.load(Ordering::SeqCst)
    }

    /// A slot arrives, and waits for another one that hasn't arrived yet.
    fn wait_for(&self, own: &AtomicBool, awaited: &AtomicBool) {
        let was_there = awaited.load(Ordering::SeqCst);
        own.store(true, Ordering::SeqCst);
        if was_there {
            return;
        }
        for _ in 0..self.turns {
            if awaited.load(Ordering::SeqCst) {
                self.met.store(true, Ordering::SeqCst);
                return;
            }
            spin_loop();
        }
    }
}

impl Gate for MeetGate {
    fn arrive(&self, slot: u32, _stamp: u64) {
        if slot == self.one {
            self.wait_for(&self.one_arrived, &self.other_arrived);
        } else if slot == self.other {
            self.wait_for(&self.other_arrived, &self.one_arrived);
        }
    }
}
