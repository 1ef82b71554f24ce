use crate::{CertError, CertKind, print, read, read_is_its_text, text_is_read};
use ip_core::OutOfMemory;
use std::alloc::Global;
use std::test::Fail;

/// The certificate of a model with a split, by its lines.
const SPLIT: [&[u8]; 10] = [
    b"xsearch certificate 1\n",
    b"size 3 2\n",
    b"value 1\n",
    b"none\n",
    b"cuts 0\n",
    b"tree 3\n",
    b"split 0 0 1\n",
    b"leaf 2 r0 1 L r0 2 L conflict r1\n",
    b"leaf 2 r1 1 H r1 2 H conflict r0\n",
    b"end\n",
];

/// The certificate of a model that a bound closes, by its lines.
const BOUND: [&[u8]; 8] = [
    b"xsearch certificate 1\n",
    b"size 1 1\n",
    b"value 2\n",
    b"point 2\n",
    b"cuts 0\n",
    b"tree 1\n",
    b"leaf 0 bound 1 r0 342\n",
    b"end\n",
];

/// Damage to a certificate: how many first lines stay, the bytes behind them, the number of lines before those that
/// follow, and the line and the kind of the refusal.
type Damage = (usize, &'static [u8], usize, u32, CertKind);

const SPLIT_DAMAGES: [Damage; 86] = [
    // Cut after whole lines.
    (0, b"", 10, 1, CertKind::Short),
    (1, b"", 10, 2, CertKind::Short),
    (2, b"", 10, 3, CertKind::Short),
    (3, b"", 10, 4, CertKind::Short),
    (4, b"", 10, 5, CertKind::Short),
    (5, b"", 10, 6, CertKind::Short),
    (6, b"", 10, 7, CertKind::Short),
    (7, b"", 10, 8, CertKind::Short),
    (8, b"", 10, 9, CertKind::Short),
    (9, b"", 10, 10, CertKind::Short),
    // Cut within a line, also where it has no form or is that of another place.
    (0, b"x", 10, 1, CertKind::Short),
    (2, b"value 01", 10, 3, CertKind::Short),
    (5, b"tree 0", 10, 6, CertKind::Short),
    (8, b" ", 10, 9, CertKind::Short),
    (9, b"end", 10, 10, CertKind::Short),
    (9, b"end\r", 10, 10, CertKind::Short),
    // A line twice.
    (1, b"", 0, 2, CertKind::Order),
    (2, b"", 1, 3, CertKind::Order),
    (3, b"", 2, 4, CertKind::Order),
    (4, b"", 3, 5, CertKind::Order),
    (5, b"", 4, 6, CertKind::Order),
    (6, b"", 5, 7, CertKind::Order),
    (7, b"", 6, 9, CertKind::Order),
    (8, b"", 7, 10, CertKind::Order),
    (9, b"", 8, 10, CertKind::Order),
    (10, b"", 9, 11, CertKind::Trailing),
    // A line left out.
    (0, b"", 1, 1, CertKind::Order),
    (1, b"", 2, 2, CertKind::Order),
    (2, b"", 3, 3, CertKind::Order),
    (3, b"", 4, 4, CertKind::Order),
    (4, b"", 5, 5, CertKind::Order),
    (5, b"", 6, 6, CertKind::Order),
    (6, b"", 7, 7, CertKind::Order),
    (7, b"", 8, 9, CertKind::Order),
    (8, b"", 9, 9, CertKind::Order),
    (9, b"", 10, 10, CertKind::Short),
    // A blank line.
    (0, b"\n", 0, 1, CertKind::Form),
    (1, b"\n", 1, 2, CertKind::Form),
    (2, b"\n", 2, 3, CertKind::Form),
    (3, b"\n", 3, 4, CertKind::Form),
    (4, b"\n", 4, 5, CertKind::Form),
    (5, b"\n", 5, 6, CertKind::Form),
    (6, b"\n", 6, 7, CertKind::Form),
    (7, b"\n", 7, 8, CertKind::Form),
    (8, b"\n", 8, 9, CertKind::Form),
    (9, b"\n", 9, 10, CertKind::Form),
    (10, b"\n", 10, 11, CertKind::Trailing),
    // `end` too early.
    (0, b"end\n", 0, 1, CertKind::Order),
    (1, b"end\n", 1, 2, CertKind::Order),
    (2, b"end\n", 2, 3, CertKind::Order),
    (3, b"end\n", 3, 4, CertKind::Order),
    (4, b"end\n", 4, 5, CertKind::Order),
    (5, b"end\n", 5, 6, CertKind::Order),
    (6, b"end\n", 6, 7, CertKind::Order),
    (7, b"end\n", 7, 8, CertKind::Order),
    (8, b"end\n", 8, 9, CertKind::Order),
    // Bytes behind `end`.
    (10, b"x", 10, 11, CertKind::Trailing),
    (10, b"end", 10, 11, CertKind::Trailing),
    (10, b"value 01\n", 10, 11, CertKind::Trailing),
    (10, b"\n\n", 10, 11, CertKind::Trailing),
    // Other counts of cuts and nodes.
    (5, b"tree 0\n", 6, 6, CertKind::Order),
    (5, b"tree 0\n", 9, 6, CertKind::Order),
    (5, b"tree 1\n", 6, 7, CertKind::Order),
    (5, b"tree 2\n", 6, 8, CertKind::Order),
    (5, b"tree 4\n", 6, 9, CertKind::Order),
    (6, b"", 9, 7, CertKind::Order),
    (6, b"", 8, 7, CertKind::Order),
    (7, b"split 1 0 1\n", 8, 9, CertKind::Order),
    (4, b"cuts 1\n", 5, 6, CertKind::Order),
    (5, b"gomory 2 1 r0 1\n", 5, 6, CertKind::Order),
    (
        4,
        b"cuts 1\ncover r0 1 0\ncover r0 1 1\n",
        5,
        7,
        CertKind::Order,
    ),
    (4, b"cuts 2\ncover r0 1 0\n", 5, 7, CertKind::Order),
    (4, b"cuts 4294967295\n", 5, 6, CertKind::Order),
    (5, b"tree 4294967295\n", 6, 9, CertKind::Order),
    // A line without a form or with a bad numeral, also where it can't stand.
    (0, b"xsearch certificate 2\n", 1, 1, CertKind::Form),
    (1, b"size 3\n", 2, 2, CertKind::Form),
    (1, b"size 03 2\n", 2, 2, CertKind::Number),
    (1, b"value 01\n", 1, 2, CertKind::Number),
    (1, b"value 1 \n", 1, 2, CertKind::Form),
    (2, b"value 4611686018427387905\n", 3, 3, CertKind::Number),
    (2, b"value 1\r\n", 3, 3, CertKind::Number),
    (9, b"end\r\n", 10, 10, CertKind::Form),
    (4, b"cuts 4294967296\n", 5, 5, CertKind::Number),
    (7, b"leaf 1 conflict r1\n", 8, 8, CertKind::Form),
    (7, b"leaf 01 conflict r1\n", 8, 8, CertKind::Number),
    (9, b"tree 01 \n", 10, 10, CertKind::Form),
];

const BOUND_DAMAGES: [Damage; 10] = [
    (0, b"", 8, 1, CertKind::Short),
    (1, b"", 8, 2, CertKind::Short),
    (2, b"", 8, 3, CertKind::Short),
    (3, b"", 8, 4, CertKind::Short),
    (4, b"", 8, 5, CertKind::Short),
    (5, b"", 8, 6, CertKind::Short),
    (6, b"", 8, 7, CertKind::Short),
    (7, b"", 8, 8, CertKind::Short),
    (5, b"tree 2\n", 6, 7, CertKind::Order),
    (8, b"\n", 8, 9, CertKind::Trailing),
];

/// Texts that are read.
const READ: [&[u8]; 7] = [
    b"xsearch certificate 1
size 1 2
value 6
none
cuts 0
tree 1
leaf 1 r0 0 L conflict r1
end
",
    b"xsearch certificate 1
size 1 1
value 2
point 2
cuts 2
gomory 2 1 r0 1
gomory 2048 1 r0 512
tree 1
leaf 1 r0 0 L bound 0
end
",
    b"xsearch certificate 1
size 3 2
value 1
none
cuts 0
tree 3
split 0 0 1
leaf 2 r0 1 L r0 2 L conflict r1
leaf 2 r1 1 H r1 2 H conflict r0
end
",
    b"xsearch certificate 1
size 1 1
value 2
point 2
cuts 0
tree 1
leaf 0 bound 1 r0 342
end
",
    b"xsearch certificate 1
size 0 0
value 0
point
cuts 0
tree 1
leaf 0 bound 0
end
",
    b"xsearch certificate 1
size 4294967295 4294967295
value -4611686018427387904
point -1 0 4611686018427387904
cuts 2
cover r4294967295 2 0 4294967295
gomory 9223372036854775807 2 r0 9223372036854775807 k0 0
tree 1
leaf 1 k1 0 H empty 4294967295
end
",
    b"xsearch certificate 1
size 2 0
value 0
none
cuts 0
tree 5
split 0 -4611686018427387904 4611686018427387904
split 1 -1 0
leaf 0 empty 0
leaf 0 empty 0
leaf 0 empty 0
end
",
];

/// A certificate's text, damaged.
fn damaged(alloc: Global, lines: &[&[u8]], damage: Damage) -> Result<Vec<u8>, OutOfMemory> {
    let mut bytes = Vec::new(alloc);
    for place in 0..lines.len() {
        if place < damage.0 {
            bytes.extend_from_slice(lines[place])?;
        }
    }
    bytes.extend_from_slice(damage.1)?;
    for place in 0..lines.len() {
        if place >= damage.2 {
            bytes.extend_from_slice(lines[place])?;
        }
    }
    Ok(bytes)
}

/// Where and why a text is refused, or None where it is read.
fn refusal(alloc: Global, bytes: &[u8]) -> Result<Option<(u32, CertKind)>, OutOfMemory> {
    if bytes.len() > 1_000_000 {
        return Ok(None);
    }
    match read(alloc, bytes) {
        Ok(_) => Ok(None),
        Err(CertError::Refused { line, kind }) => Ok(Some((line, kind))),
        Err(CertError::Memory) => Err(OutOfMemory),
    }
}

/// The place of the first damage of a table that isn't refused as the table says.
fn first_wrong(
    alloc: Global,
    lines: &[&[u8]],
    damages: &[Damage],
) -> Result<Option<usize>, OutOfMemory> {
    for place in 0..damages.len() {
        let (_, _, _, line, kind) = damages[place];
        let bytes = damaged(alloc, lines, damages[place])?;
        if refusal(alloc, bytes.as_slice())? != Some((line, kind)) {
            return Ok(Some(place));
        }
    }
    Ok(None)
}

/// Whether a text is read, and printed again as it was.
fn is_printed_again(alloc: Global, bytes: &[u8]) -> Result<bool, OutOfMemory> {
    if bytes.len() > 1_000_000 {
        return Ok(false);
    }
    match read(alloc, bytes) {
        Ok(certificate) => Ok(print(alloc, &certificate)?.as_slice() == bytes),
        Err(CertError::Refused { .. }) => Ok(false),
        Err(CertError::Memory) => Err(OutOfMemory),
    }
}

/// The place of the first text of a table that isn't printed again as it was.
fn first_other(alloc: Global, table: &[&[u8]]) -> Result<Option<usize>, OutOfMemory> {
    for place in 0..table.len() {
        if !is_printed_again(alloc, table[place])? {
            return Ok(Some(place));
        }
    }
    Ok(None)
}

#[test]
fn refuses_damaged_texts(rt: HostRuntime) -> Result<(), Fail> {
    let alloc = rt.alloc();
    assert_eq!(rt;
        first_wrong(alloc, SPLIT.as_slice(), SPLIT_DAMAGES.as_slice())?,
        None
    );
    assert_eq!(rt;
        first_wrong(alloc, BOUND.as_slice(), BOUND_DAMAGES.as_slice())?,
        None
    );
    assert_eq!(rt;
        (CertKind::Form.number(), CertKind::Trailing.number()),
        (1, 5)
    );
    Ok(())
}

#[test]
fn prints_what_was_read(rt: HostRuntime) -> Result<(), Fail> {
    let alloc = rt.alloc();
    text_is_read();
    read_is_its_text();
    assert_eq!(rt; first_other(alloc, READ.as_slice())?, None);
    Ok(())
}
