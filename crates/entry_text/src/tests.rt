use crate::{append_derivation, append_entries, append_number, append_row, append_signed};
use ip_core::{Derivation, List, OutOfMemory, Pair, Point, RowRef, Text};
use std::alloc::Global;
use std::test::Fail;
use work_stamp::{Entry, Key, KeyedEntry};

/// Each kind of entry, all of slot 3 at stamp 240.
fn entries(alloc: Global) -> Result<List<KeyedEntry>, OutOfMemory> {
    let mut entries = List::new(alloc);
    for entry in [
        Entry::CutStart,
        Entry::Cut {
            derivation: gomory(alloc)?,
        },
        Entry::Cut {
            derivation: cover(alloc)?,
        },
        Entry::Start { node: 5 },
        Entry::HeurStart {
            node: 1_099_511_627_780,
        },
        Entry::Found {
            value: -3,
            point: Point::of(List::of(Vec::from_slice(alloc, &[0, -1])?)),
        },
        split(),
        Entry::Closed { node: 4 },
        Entry::Done,
        Entry::Halt,
    ] {
        let key = Key {
            stamp: 240,
            slot: 3,
        };
        entries.push(KeyedEntry { key, entry })?;
    }
    Ok(entries)
}

fn split() -> Entry {
    Entry::Split {
        node: 0,
        col: 2,
        at: -7,
        first: 4,
        keep: 1,
        bound: -2685,
    }
}

fn gomory(alloc: Global) -> Result<Derivation, OutOfMemory> {
    let mut parts = List::new(alloc);
    parts.push(Pair {
        row: RowRef::Model(0),
        weight: 322_458,
    })?;
    parts.push(Pair {
        row: RowRef::Cut(1),
        weight: 102,
    })?;
    Ok(Derivation::Gomory {
        parts,
        divisor: 2_048,
    })
}

fn cover(alloc: Global) -> Result<Derivation, OutOfMemory> {
    Ok(Derivation::Cover {
        row: RowRef::Model(7),
        cols: List::of(Vec::from_slice(alloc, &[1, 30])?),
    })
}

const LINES: &[u8] = b"240 3 cutloop
240 3 gomory 2048 2 r0 322458 k1 102
240 3 cover r7 2 1 30
240 3 start 5
240 3 dive 1099511627780
240 3 found -3 0 -1
240 3 split 0 2 -7 4 1 -2685
240 3 closed 4
240 3 done
240 3 halt
";

fn lines(alloc: Global) -> Result<Text, OutOfMemory> {
    let mut text = Text::new(alloc);
    append_entries(&mut text, entries(alloc)?.as_slice())?;
    Ok(text)
}

#[test]
fn each_entry_has_a_line(rt: HostRuntime) -> Result<(), Fail> {
    let text = lines(rt.alloc())?;
    assert_eq!(rt; text.as_slice(), LINES);
    Ok(())
}

fn fields(alloc: Global) -> Result<Text, OutOfMemory> {
    let mut text = Text::new(alloc);
    append_derivation(&mut text, &cover(alloc)?)?;
    append_row(&mut text, RowRef::Cut(9))?;
    append_number(&mut text, u64::MAX)?;
    append_signed(&mut text, i64::MIN)?;
    Ok(text)
}

#[test]
fn fields_follow_a_blank(rt: HostRuntime) -> Result<(), Fail> {
    let text = fields(rt.alloc())?;
    assert_eq!(rt;
        text.as_slice(),
        b"cover r7 2 1 30 k9 18446744073709551615 -9223372036854775808".as_slice()
    );
    Ok(())
}
