ghost use Rattle.std.specs.Prelude.{◌≡◌, ◌<◌, ◌==◌, ◌&&◌, true, false, length, IfSome, MatchOption};
ghost use Rattle.mps_read.specs.Names.{is_among, place_among};
ghost use Rattle.mps_read.specs.DraftRows.{state_at, is_tested as is_tested_place};

use crate::draft::{Draft, RowPlace, RowState};

/// A known row's name by its number, with what it stands for.
#[derive(Clone, Copy)]
pub struct FoundRow {
    pub number: usize,
    pub state: RowState,
}

/// The row of a name, or None where it isn't known.
pub fn find_row(draft: &Draft, name: &[u8]) -> Option<FoundRow>
    requires { length draft.now.row_states ≡ length draft.now.row_names }
    ensures row { MatchOption result (is_among name.now draft.now.row_names ≡ false)
        (λ r. (is_among name.now draft.now.row_names ≡ true)
        × (r.number ≡ place_among name.now draft.now.row_names)
        × (r.state ≡ state_at draft.now.row_states r.number)) }
    ensures within { IfSome result (λ r. r.number < length draft.now.row_names) }
{
    match draft.row_names.find(name) {
        None => None,
        Some(number) => {
            let state = draft.row_states.as_slice()[number];
            Some(FoundRow { number, state })
        }
    }
}

/// Whether a row isn't dropped.
pub fn is_tested(place: RowPlace) -> bool
    ensures { result ≡ is_tested_place place }
{
    match place {
        RowPlace::Objective | RowPlace::Kept(_) => true,
        RowPlace::Dropped => false,
    }
}

/// Whether two rows are one that isn't dropped.
pub fn is_same_row(first: FoundRow, second: FoundRow) -> bool
    ensures { result ≡ (first.number == second.number && is_tested_place first.state.place) }
{
    first.number == second.number && is_tested(first.state.place)
}
