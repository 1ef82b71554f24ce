ghost use Rattle.std.specs.Prelude.{◌≡◌, ◌≤◌, ◌<◌, ◌+◌, ◌^◌, ◌++◌, length, replicate, true, IfOk};
ghost use Rattle.std.specs.List.{list_all};
ghost use Rattle.leaf_truth.specs.Steps.{has_row as has_row_of};
ghost use Rattle.leaf_truth.specs.Multipliers.{are_rising as are_rising_of, is_pair as is_pair_of, multipliers, name_at as name_at_of, pairs_of as pairs_of_multipliers, place_of as place_of_name, rise_after as rise_after_of};
ghost use Rattle.safe_bound.specs.Premises.{AreCuts, AreMultipliers};

use ip_core::{List, Model, OutOfMemory, Pair, Row, RowRef};
use safe_bound::MAX_MULTIPLIER;
use std::alloc::Global;

/// The pairs of all multipliers above 0, in order: the first `rows` are of the rows of a model, and the others of cuts.
/// The only error is want of memory.
#[tactic(auto, using(crate::proofs::Writing::pairs_more, crate::proofs::Writing::with_pair_some))]
pub fn pairs_of(alloc: Global, rows: usize, mults: &[u64]) -> Result<List<Pair>, OutOfMemory>
    requires { length mults.now ≤ 2 ^ 32 }
    ensures { IfOk result (λ pairs. pairs ≡ pairs_of_multipliers rows mults.now) }
{
    let mut pairs = List::new(alloc);
    for place in 0..mults.len() {
        let weight = mults[place];
        if weight > 0 {
            let row = name_at(rows, place);
            pairs.push(Pair { row, weight })?;
        }
    }
    Ok(pairs)
}

/// The name of the row at a place, where the rows of a model stand before the cuts.
fn name_at(rows: usize, place: usize) -> RowRef
    requires { place < 2 ^ 32 }
    ensures { result ≡ name_at_of rows place }
{
    if place < rows {
        RowRef::Model(place as u32)
    } else {
        RowRef::Cut((place - rows) as u32)
    }
}

/// The place of the row of a name, which exists.
#[tactic(auto, using(crate::proofs::Writing::place_known))]
fn place_of(rows: &[Row], cuts: &[Row], name: RowRef) -> usize
    requires known { has_row_of rows.now cuts.now name ≡ true }
    requires few { length rows.now + length cuts.now ≤ 2 ^ 32 }
    ensures value { result ≡ place_of_name (length rows.now) name }
    ensures known { result < length rows.now + length cuts.now }
{
    match name {
        RowRef::Model(number) => number as usize,
        RowRef::Cut(number) => rows.len() + number as usize,
    }
}

/// Writes one multiplier for each row and then for each cut: the weight of its pair, and 0 where it has none.
#[tactic(auto, using(crate::proofs::Writing::none_written, crate::proofs::Writing::one_written, crate::proofs::Writing::pair_known, crate::proofs::Writing::are_multipliers))]
pub fn write_multipliers(model: &Model, cuts: &[Row], pairs: &[Pair], mults: &mut [u64])
    requires cuts { AreCuts model.now cuts.now }
    requires known { list_all (is_pair_of model.now.rows cuts.now) pairs.now ≡ true }
    requires one_each { length mults.old ≡ length model.now.rows + length cuts.now }
    ensures value { mults.new ≡ multipliers model.now.rows cuts.now pairs.now }
    ensures multipliers { AreMultipliers model.now cuts.now mults.new }
{
    let _limits = model.parts();
    let rows = model.rows();
    clear(mults);
    for at in (0..pairs.len()).rev() {
        let pair = pairs[at];
        mults[place_of(rows, cuts, pair.row)] = pair.weight;
    }
}

/// Sets each multiplier to 0.
fn clear(mults: &mut [u64])
    ensures { mults.new ≡ replicate (length mults.old) 0 }
{
    mults.fill(0);
}

/// Whether each pair's row exists and its multiplier is at most 2^40.
#[tactic(auto, using(crate::proofs::Writing::all_first))]
pub fn are_pairs(rows: &[Row], cuts: &[Row], pairs: &[Pair]) -> bool
    ensures { result ≡ list_all (is_pair_of rows.now cuts.now) pairs.now }
{
    for pair in pairs {
        if !is_pair(rows, cuts, *pair) {
            return false;
        }
    }
    true
}

/// Whether a pair's row exists and its multiplier is at most 2^40.
fn is_pair(rows: &[Row], cuts: &[Row], pair: Pair) -> bool
    ensures { result ≡ is_pair_of rows.now cuts.now pair }
{
    has_row(rows, cuts, pair.row) && pair.weight <= MAX_MULTIPLIER
}

/// Whether there is a row of this name.
fn has_row(rows: &[Row], cuts: &[Row], name: RowRef) -> bool
    ensures { result ≡ has_row_of rows.now cuts.now name }
{
    match name {
        RowRef::Model(number) => (number as usize) < rows.len(),
        RowRef::Cut(number) => (number as usize) < cuts.len(),
    }
}

/// Whether the rows of pairs rise strictly.
pub fn are_rising(pairs: &[Pair]) -> bool
    ensures { result ≡ are_rising_of pairs.now }
{
    match pairs.split_first() {
        None => true,
        Some((first, rest)) => rise_after(first.row, rest),
    }
}

/// Whether the rows of pairs rise strictly, behind a row of this name.
#[tactic(auto, using(crate::proofs::Writing::rise_first))]
fn rise_after(name: RowRef, pairs: &[Pair]) -> bool
    ensures { result ≡ rise_after_of name pairs.now }
{
    let mut last = name;
    for pair in pairs {
        if !last.is_before(pair.row) {
            return false;
        }
        last = pair.row;
    }
    true
}
