ghost use Rattle.std.specs.Prelude.{◌≡◌, ◌≤◌, ◌^◌, ◌+◌, ◌++◌, length, OnErr, OnOk};
ghost use Rattle.work_stamp.specs.Appends.{HasAppended};
ghost use Rattle.work_stamp.specs.Words.{derivation_words, further_words, kind_word as kind_word_of, pair_words, row_word as row_word_of, signed_words, words as words_of};
ghost use Rattle.work_stamp.specs.Writable.{IsShort, IsWritable, IsWritableDerivation};

use crate::{Entry, Stamped};
use ip_core::{Derivation, List, OutOfMemory, Pair, RowRef};

/// Appends the words of an entry with its stamp: the number of words, the entry's kind, the stamp, and what the kind asks
/// for. The `keep` of a split is at most 2. After a refusal `out` is as before.
pub fn to_words(item: &Stamped, out: &mut List<u64>) -> Result<(), OutOfMemory>
    requires { IsWritable item.now.entry }
    ensures ok { OnOk result (out.new ≡ out.old ++ words_of item.now) }
    ensures err { OnErr result (out.new ≡ out.old) }
{
    let before = out.len();
    let outcome = push_item(item, out);
    if outcome.is_err() {
        out.truncate(before);
    }
    outcome
}

#[tactic(auto, using(crate::proofs::Fronts::front_after, crate::proofs::Fronts::front_trans))]
fn push_item(item: &Stamped, out: &mut List<u64>) -> Result<(), OutOfMemory>
    requires { IsWritable item.now.entry }
    ensures { HasAppended result (words_of item.now) out.old out.new }
{
    out.push(item.entry.word_count())?;
    out.push(kind_word(&item.entry))?;
    out.push(item.stamp)?;
    push_further(&item.entry, out)
}

impl Entry {
    ghost use Rattle.std.specs.Prelude.{◌≡◌, ◌≤◌, ◌^◌, ◌+◌, length};
    ghost use Rattle.work_stamp.specs.Words.{further_words};
    ghost use Rattle.work_stamp.specs.Writable.{IsWritable};

    /// The number of words of this entry with any stamp.
    pub fn word_count(&self) -> u64
        requires { IsWritable self.now }
        ensures value { result ≡ 3 + length (further_words self.now) }
        ensures small { result ≤ 2 ^ 32 }
    {
        match self {
            Entry::CutStart | Entry::Done | Entry::Halt => 3,
            Entry::Start { .. } | Entry::HeurStart { .. } | Entry::Closed { .. } => 4,
            Entry::Found { point, .. } => 4 + point.values().len() as u64,
            Entry::Cut { derivation } => 3 + derivation_count(derivation),
            Entry::Split { .. } => 9,
        }
    }
}

fn derivation_count(derivation: &Derivation) -> u64
    requires { IsWritableDerivation derivation.now }
    ensures value { result ≡ length (derivation_words derivation.now) }
    ensures small { 3 + result ≤ 2 ^ 32 }
{
    match derivation {
        Derivation::Gomory { parts, .. } => 2 + 2 * parts.len() as u64,
        Derivation::Cover { cols, .. } => 2 + cols.len() as u64,
    }
}

fn kind_word(entry: &Entry) -> u64
    ensures { result ≡ kind_word_of entry.now }
{
    match entry {
        Entry::Start { .. } => 1,
        Entry::CutStart => 2,
        Entry::HeurStart { .. } => 3,
        Entry::Done => 4,
        Entry::Found { .. } => 5,
        Entry::Cut { .. } => 6,
        Entry::Split { .. } => 7,
        Entry::Closed { .. } => 8,
        Entry::Halt => 9,
    }
}

#[tactic(auto, using(crate::proofs::Fronts::front_after, crate::proofs::Fronts::front_trans))]
fn push_further(entry: &Entry, out: &mut List<u64>) -> Result<(), OutOfMemory>
    requires { IsWritable entry.now }
    ensures { HasAppended result (further_words entry.now) out.old out.new }
{
    match entry {
        Entry::CutStart | Entry::Done | Entry::Halt => Ok(()),
        Entry::Start { node } | Entry::HeurStart { node } | Entry::Closed { node } => {
            out.push(*node)
        }
        Entry::Found { value, point } => {
            out.push(value.cast_unsigned())?;
            push_signed(point.values(), out)
        }
        Entry::Cut { derivation } => push_derivation(derivation, out),
        Entry::Split {
            node,
            col,
            at,
            first,
            keep,
            bound,
        } => push_all(
            &[
                *node,
                u64::from(*col),
                at.cast_unsigned(),
                *first,
                u64::from(*keep),
                bound.cast_unsigned(),
            ],
            out,
        ),
    }
}

#[tactic(auto, using(crate::proofs::Fronts::front_after, crate::proofs::Fronts::front_trans))]
fn push_derivation(derivation: &Derivation, out: &mut List<u64>) -> Result<(), OutOfMemory>
    ensures { HasAppended result (derivation_words derivation.now) out.old out.new }
{
    match derivation {
        Derivation::Gomory { parts, divisor } => {
            out.push(0)?;
            out.push(*divisor)?;
            push_pairs(parts.as_slice(), out)
        }
        Derivation::Cover { row, cols } => {
            out.push(1)?;
            out.push(row_word(*row))?;
            push_columns(cols.as_slice(), out)
        }
    }
}

fn row_word(row: RowRef) -> u64
    ensures { result ≡ row_word_of row }
{
    match row {
        RowRef::Model(number) => 2 * u64::from(number),
        RowRef::Cut(number) => 2 * u64::from(number) + 1,
    }
}

#[tactic(auto, using(crate::proofs::Fronts::front_after, crate::proofs::Fronts::front_trans))]
fn push_all(words: &[u64], out: &mut List<u64>) -> Result<(), OutOfMemory>
    ensures { HasAppended result words.now out.old out.new }
{
    for word in words {
        out.push(*word)?;
    }
    Ok(())
}

#[tactic(auto, using(crate::proofs::Fronts::front_after, crate::proofs::Fronts::front_trans))]
fn push_columns(cols: &[u32], out: &mut List<u64>) -> Result<(), OutOfMemory>
    ensures { HasAppended result cols.now out.old out.new }
{
    for col in cols {
        out.push(u64::from(*col))?;
    }
    Ok(())
}

#[tactic(auto, using(crate::proofs::Fronts::front_after, crate::proofs::Fronts::front_trans))]
fn push_signed(values: &[i64], out: &mut List<u64>) -> Result<(), OutOfMemory>
    ensures { HasAppended result (signed_words values.now) out.old out.new }
{
    for value in values {
        out.push(value.cast_unsigned())?;
    }
    Ok(())
}

#[tactic(auto, using(crate::proofs::Fronts::front_after, crate::proofs::Fronts::front_trans))]
fn push_pairs(pairs: &[Pair], out: &mut List<u64>) -> Result<(), OutOfMemory>
    ensures { HasAppended result (pair_words pairs.now) out.old out.new }
{
    for pair in pairs {
        out.push(row_word(pair.row))?;
        out.push(pair.weight)?;
    }
    Ok(())
}
