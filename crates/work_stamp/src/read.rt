ghost use Rattle.std.specs.Prelude.{◌≡◌, ◌≤◌, ◌<◌, ◌^◌, ◌/◌, suc, length, IfOk, true};
ghost use Rattle.std.specs.List.{list_all};
ghost use Rattle.work_stamp.specs.Reads.{IsAnswerOf, IsBare, HasNode, signed_numbers as signed_numbers_of, are_rows as are_rows_of, read_by_count as read_by_count_of, cover_of, cut_of, entry_of, gomory_of, is_number as is_number_of, pairs_of, read, row_of as row_read};
ghost use Rattle.work_stamp.specs.Writable.{IsShort};
ghost use Rattle.work_stamp.specs.declared.kind.Kind.TheVariants.{Found, Split};

use crate::kind::{Kind, kind_of};
use crate::{Entry, Stamped, WordRead, WordsError};
use ip_core::{Derivation, List, OutOfMemory, Pair, Point, RowRef};
use std::alloc::Global;

/// Reads the entry that begins the words. It refuses in this order: `Short` where there are no words, or fewer than the
/// first one counts; `Length` where that one is below 3; `Kind` where there is no such kind of entry; `Length` where the
/// number of words doesn't fit the kind; `Value` where a number is out of its range.
pub fn read_words(alloc: Global, words: &[u64]) -> Result<WordRead, WordsError>
    requires { IsShort words.now }
    ensures { IsAnswerOf result (read words.now) }
{
    match words {
        [] => Err(WordsError::Short),
        [count, rest @ ..] => {
            if rest.len() as u64 + 1 < *count {
                return Err(WordsError::Short);
            }
            if *count < 3 {
                return Err(WordsError::Length);
            }
            read_by_count(alloc, *count as u32, rest)
        }
    }
}

fn read_by_count(alloc: Global, count: u32, rest: &[u64]) -> Result<WordRead, WordsError>
    requires three { 3 ≤ count }
    requires within { count ≤ suc (length rest.now) }
    ensures { IsAnswerOf result (read_by_count_of count rest.now) }
{
    match rest {
        [kind, stamp, words @ ..] => {
            let kind = kind_of(*kind)?;
            let further = &words[..count as usize - 3];
            let entry = read_entry(alloc, kind, further)?;
            Ok(WordRead {
                item: Stamped {
                    stamp: *stamp,
                    entry,
                },
                used: count,
            })
        }
        _ => Err(WordsError::Short),
    }
}

/// The entry of a kind, from the words behind the stamp.
fn read_entry(alloc: Global, kind: Kind, further: &[u64]) -> Result<Entry, WordsError>
    ensures { IsAnswerOf result (entry_of kind further.now) }
{
    match kind {
        Kind::Found => read_found(alloc, further),
        Kind::Cut => read_cut(alloc, further),
        Kind::Split => read_split(further),
        Kind::Start | Kind::HeurStart | Kind::Closed => read_node(kind, further),
        Kind::CutStart | Kind::Done | Kind::Halt => read_bare(kind, further),
    }
}

fn read_node(kind: Kind, further: &[u64]) -> Result<Entry, WordsError>
    requires { HasNode kind }
    ensures { result ≡ entry_of kind further.now }
{
    let [node] = further else {
        return Err(WordsError::Length);
    };
    match kind {
        Kind::Start => Ok(Entry::Start { node: *node }),
        Kind::HeurStart => Ok(Entry::HeurStart { node: *node }),
        _ => Ok(Entry::Closed { node: *node }),
    }
}

fn read_bare(kind: Kind, further: &[u64]) -> Result<Entry, WordsError>
    requires { IsBare kind }
    ensures { result ≡ entry_of kind further.now }
{
    if !further.is_empty() {
        return Err(WordsError::Length);
    }
    match kind {
        Kind::CutStart => Ok(Entry::CutStart),
        Kind::Done => Ok(Entry::Done),
        _ => Ok(Entry::Halt),
    }
}

fn read_found(alloc: Global, further: &[u64]) -> Result<Entry, WordsError>
    ensures { IsAnswerOf result (entry_of Found further.now) }
{
    match further {
        [] => Err(WordsError::Length),
        [value, point @ ..] => {
            let values = signed_numbers(alloc, point)?;
            Ok(Entry::Found {
                value: value.cast_signed(),
                point: Point::of(values),
            })
        }
    }
}

fn signed_numbers(alloc: Global, words: &[u64]) -> Result<List<i64>, OutOfMemory>
    ensures { IfOk result (λ values. values ≡ signed_numbers_of words.now) }
{
    let mut values = List::new(alloc);
    for word in words {
        values.push(word.cast_signed())?;
    }
    Ok(values)
}

fn read_split(further: &[u64]) -> Result<Entry, WordsError>
    ensures { result ≡ entry_of Split further.now }
{
    let [node, col, at, first, keep, bound] = further else {
        return Err(WordsError::Length);
    };
    if !is_number(*col) || 2 < *keep {
        return Err(WordsError::Value);
    }
    Ok(Entry::Split {
        node: *node,
        col: *col as u32,
        at: at.cast_signed(),
        first: *first,
        keep: *keep as u8,
        bound: bound.cast_signed(),
    })
}

fn read_cut(alloc: Global, further: &[u64]) -> Result<Entry, WordsError>
    ensures { IsAnswerOf result (cut_of further.now) }
{
    match further {
        [] => Err(WordsError::Length),
        [form, ..] if 1 < *form => Err(WordsError::Value),
        [0, divisor, rest @ ..] => read_gomory(alloc, *divisor, rest),
        [_, row, cols @ ..] => read_cover(alloc, *row, cols),
        _ => Err(WordsError::Length),
    }
}

fn read_gomory(alloc: Global, divisor: u64, rest: &[u64]) -> Result<Entry, WordsError>
    ensures { IsAnswerOf result (gomory_of divisor rest.now) }
{
    if rest.len() % 2 != 0 {
        return Err(WordsError::Length);
    }
    if !are_rows(rest) {
        return Err(WordsError::Value);
    }
    let parts = pairs(alloc, rest)?;
    Ok(Entry::Cut {
        derivation: Derivation::Gomory { parts, divisor },
    })
}

fn are_rows(words: &[u64]) -> bool
    ensures { result ≡ are_rows_of words.now }
{
    let mut left = words;
    while let [word, _, rest @ ..] = left {
        if !is_number(*word / 2) {
            return false;
        }
        left = rest;
    }
    true
}

fn pairs(alloc: Global, words: &[u64]) -> Result<List<Pair>, OutOfMemory>
    requires { are_rows_of words.now ≡ true }
    ensures { IfOk result (λ pairs. pairs ≡ pairs_of words.now) }
{
    let mut pairs = List::new(alloc);
    let mut left = words;
    while let [word, weight, rest @ ..] = left {
        let row = row_of(*word);
        pairs.push(Pair {
            row,
            weight: *weight,
        })?;
        left = rest;
    }
    Ok(pairs)
}

fn read_cover(alloc: Global, row: u64, words: &[u64]) -> Result<Entry, WordsError>
    ensures { IsAnswerOf result (cover_of row words.now) }
{
    if !is_number(row / 2) {
        return Err(WordsError::Value);
    }
    if !are_numbers(words) {
        return Err(WordsError::Value);
    }
    let cols = columns(alloc, words)?;
    Ok(Entry::Cut {
        derivation: Derivation::Cover {
            row: row_of(row),
            cols,
        },
    })
}

fn are_numbers(words: &[u64]) -> bool
    ensures { result ≡ list_all is_number_of words.now }
{
    words.iter().all(|word| is_number(*word))
}

fn columns(alloc: Global, words: &[u64]) -> Result<List<u32>, OutOfMemory>
    requires { list_all is_number_of words.now ≡ true }
    ensures { IfOk result (λ cols. cols ≡ words.now) }
{
    let mut cols = List::new(alloc);
    for word in words {
        cols.push(*word as u32)?;
    }
    Ok(cols)
}

/// Whether this is the number of a row or a column: it is below 2^32.
fn is_number(word: u64) -> bool
    ensures { result ≡ is_number_of word }
{
    word <= u64::from(u32::MAX)
}

/// The row of a name, which is odd for a cut.
fn row_of(word: u64) -> RowRef
    requires { word / 2 < 2 ^ 32 }
    ensures { result ≡ row_read word }
{
    let number = (word / 2) as u32;
    if word % 2 == 0 {
        RowRef::Model(number)
    } else {
        RowRef::Cut(number)
    }
}
