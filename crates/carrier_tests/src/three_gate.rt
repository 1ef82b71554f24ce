use std::hint::spin_loop;
use std::sync::atomic::{AtomicBool, AtomicU64, Ordering};
use task_crew::Gate;

/// The bits of all three slots.
const ALL: u64 = 7;

/// A gate at which the slots 0, 1 and 2 wait for each other before their first turns: whether three
/// workers are at work at the same time.
#[derive(Drop)]
pub(crate) struct ThreeGate {
    turns: u64,
    /// A bit for each slot that has arrived.
    arrived: AtomicU64,
    gave_up: AtomicBool,
    met: AtomicBool,
}

impl ThreeGate {
    /// A gate at which each slot waits for so many turns of a loop at most.
    pub(crate) fn new(turns: u64) -> ThreeGate {
        ThreeGate {
            turns,
            arrived: AtomicU64::new(0),
            gave_up: AtomicBool::new(false),
            met: AtomicBool::new(false),
        }
    }

    /// Whether all three slots were at the gate at the same time.
    pub(crate) fn met(&self) -> bool {
        self.met.load(Ordering::SeqCst)
    }

    /// Waits until all slots have arrived. They meet where none gave up before.
    fn wait_for_all(&self) {
        for _ in 0..self.turns {
            if self.arrived.load(Ordering::SeqCst) == ALL {
                if !self.gave_up.load(Ordering::SeqCst) {
                    self.met.store(true, Ordering::SeqCst);
                }
                return;
            }
            spin_loop();
        }
        self.gave_up.store(true, Ordering::SeqCst);
    }
}

impl Gate for ThreeGate {
    fn arrive(&self, slot: u32, _stamp: u64) {
        if slot > 2 {
            return;
        }
        let bit = 1 << slot;
        if self.arrived.fetch_or(bit, Ordering::SeqCst) & bit == 0 {
            self.wait_for_all();
        }
    }
}
