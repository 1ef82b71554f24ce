ghost use Rattle.std.specs.Prelude.{◌≡◌, ◌^◌};

use crate::Pulse;
use std::marker::Model;

/// The allowance with which a pulse that does nothing begins: 2^40.
const ALLOWANCE: u64 = 1_099_511_627_776;

/// A pulse that does nothing. Contracts see it as the work that may still be told.
#[derive(Debug, Drop)]
pub struct NoPulse {
    left: u64,
}

impl Model for NoPulse {
    ghost use Rattle.std.specs.Prelude.{ℕ};

    ghost Value = { ℕ };

    ghost view = { λ p. p.left };
}

impl NoPulse {
    /// A pulse with the allowance 2^40. It takes no memory.
    pub fn new() -> NoPulse
        ensures { result ≡ 2 ^ 40 }
    {
        NoPulse { left: ALLOWANCE }
    }
}

impl Pulse for NoPulse {
    ghost Rest = { Unit {0} };

    ghost allowance = { λ p. p };

    ghost IsReady = { λ _. Unit {0} };

    ghost rest = { λ _. tt };

    fn tick(&mut self, work: u64) {
        self.left -= work;
    }
}
