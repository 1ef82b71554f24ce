ghost use Rattle.std.specs.Prelude.{◌≡◌, ◌<◌, ℕ, length, Some};
ghost use Rattle.stamp_machine.specs.Slots.{IsLiveAt, comes_first as comes_first_of, next_slot as next_slot_of};

use crate::Slot;

/// The live slot of the least clock, and of equal clocks the one of the least number.
pub fn next_slot<L>(slots: &[Slot<L>]) -> Option<usize>
    ensures { result ≡ next_slot_of slots.now }
{
    let mut next = None;
    let mut number = slots.len();
    while 0 < number {
        number -= 1;
        if comes_first(slots, number, next) {
            next = Some(number);
        }
    }
    next
}

/// Whether the slot lives and comes before a later one, which lives.
#[tactic(auto, using(crate::proofs::NextSlot::comes_first_is))]
fn comes_first<L>(slots: &[Slot<L>], number: usize, later: Option<usize>) -> bool
    requires here { number < length slots.now }
    requires there { (place : ℕ) → later ≡ Some place → IsLiveAt slots.now place }
    ensures { result ≡ comes_first_of slots.now number later }
{
    let slot = &slots[number];
    match later {
        None => slot.live.is_some(),
        Some(later) => slot.live.is_some() && slot.clock <= slots[later].clock,
    }
}
