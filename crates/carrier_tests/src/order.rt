ghost use Rattle.std.specs.Prelude.{◌<◌};

use version_store::Advance;

/// In which order the slots of a run get their turns.
#[derive(Clone, Copy, Debug)]
pub(crate) enum Order {
    /// One turn each, from slot 0 on, again and again.
    InTurn,
    /// Each slot until it is blocked or over, from this slot on, again and again.
    UntilBlocked(u32),
    /// By the numbers of a generator with this seed. After most turns of a blocked slot comes the one for which it
    /// waits.
    ByNumbers(u64),
}

/// A turn of an order: the number that gives its slot, and the generator's number.
#[derive(Clone, Copy, Debug)]
pub(crate) struct Turn {
    order: Order,
    place: u64,
    number: u64,
}

impl Turn {
    /// The first turn.
    pub(crate) fn first(order: Order) -> Turn {
        let (place, number) = match order {
            Order::InTurn => (0, 0),
            Order::UntilBlocked(first) => (u64::from(first), 0),
            Order::ByNumbers(seed) => (seed >> 33, seed),
        };
        Turn {
            order,
            place,
            number,
        }
    }

    /// The turn after this one, which came to this, or to nothing where the slot was over.
    pub(crate) fn after(self, outcome: Option<Advance>) -> Turn {
        let number = next_number(self.number);
        let place = match self.order {
            Order::InTurn => self.place.wrapping_add(1),
            Order::UntilBlocked(_) => self.place.wrapping_add(u64::from(!has_moved(outcome))),
            Order::ByNumbers(_) => next_place(outcome, number),
        };
        Turn {
            order: self.order,
            place,
            number,
        }
    }

    /// The turn's slot, of so many.
    pub(crate) fn slot(self, slots: u32) -> u32
        requires { 0 < slots }
        ensures { result < slots }
    {
        (self.place % u64::from(slots)) as u32
    }
}

/// The next number of a linear congruential generator.
fn next_number(number: u64) -> u64 {
    number
        .wrapping_mul(6_364_136_223_846_793_005)
        .wrapping_add(1_442_695_040_888_963_407)
}

/// Whether a slot moved and lives.
fn has_moved(outcome: Option<Advance>) -> bool {
    match outcome {
        Some(Advance::Moved) => true,
        _ => false,
    }
}

/// The place of a turn that a number gives, after a turn that came to this.
fn next_place(outcome: Option<Advance>, number: u64) -> u64 {
    match outcome {
        Some(Advance::Blocked { slot, .. }) if number >> 62 != 0 => u64::from(slot),
        _ => number >> 33,
    }
}
