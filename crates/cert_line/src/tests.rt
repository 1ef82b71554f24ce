use crate::{
    Line, LineReading, append_cut, append_cuts, append_end, append_header, append_line,
    append_node, append_point, append_size, append_tree, append_value, line_has_no_feed, read_line,
    reading_is_exact,
};
use ip_core::{Closing, Derivation, Leaf, List, OutOfMemory, Pair, Point, RowRef, Text, Tighten};
use std::alloc::Global;
use std::test::Fail;
use tree_cert::CertNode;

/// What a line is read as.
#[derive(Clone, Copy, Debug, PartialEq, Eq)]
enum Kind {
    Line,
    Form,
    Number,
}

/// Lines with what they are read as. What is read as a line is printed as the same bytes.
const LINES: &[(&[u8], Kind)] = &[
    (b"xsearch certificate 1", Kind::Line),
    (b"size 1 2", Kind::Line),
    (b"size 4294967295 0", Kind::Line),
    (b"value 6", Kind::Line),
    (b"value -4611686018427387904", Kind::Line),
    (b"value 4611686018427387904", Kind::Line),
    (b"point", Kind::Line),
    (b"point 2 -1 0", Kind::Line),
    (b"none", Kind::Line),
    (b"cuts 0", Kind::Line),
    (b"gomory 2 1 r0 1", Kind::Line),
    (
        b"gomory 2048 2 r0 512 k4294967295 9223372036854775807",
        Kind::Line,
    ),
    (b"gomory 9223372036854775807 0", Kind::Line),
    (b"cover k0 2 1 30", Kind::Line),
    (b"cover r7 0", Kind::Line),
    (b"tree 1", Kind::Line),
    (b"split 0 0 1", Kind::Line),
    (b"split 3 -7 -6", Kind::Line),
    (b"leaf 1 r0 0 L conflict r1", Kind::Line),
    (b"leaf 2 r1 1 H k1 2 L conflict k0", Kind::Line),
    (b"leaf 0 bound 1 r0 342", Kind::Line),
    (b"leaf 1 r0 0 L bound 0", Kind::Line),
    (b"leaf 0 empty 4294967295", Kind::Line),
    (b"end", Kind::Line),
    (b"", Kind::Form),
    (b" ", Kind::Form),
    (b" end", Kind::Form),
    (b"end ", Kind::Form),
    (b"end\r", Kind::Form),
    (b"end\n", Kind::Form),
    (b"end 1", Kind::Form),
    (b"found 0 0", Kind::Form),
    (b"xsearch certificate 2", Kind::Form),
    (b"xsearch certificate", Kind::Form),
    (b"xsearch log 1", Kind::Form),
    (b"size 1", Kind::Form),
    (b"size 1  2", Kind::Form),
    (b"size 1 2 3", Kind::Form),
    (b"value", Kind::Form),
    (b"value 2 ", Kind::Form),
    (b"point 1  2", Kind::Form),
    (b"none 1", Kind::Form),
    (b"cuts", Kind::Form),
    (b"gomory 2", Kind::Form),
    (b"gomory 2 1 x1 1", Kind::Form),
    (b"gomory 2 1 r 1", Kind::Form),
    (b"gomory 2 2 r0 1", Kind::Form),
    (b"gomory 01 2 r0 1", Kind::Form),
    (b"gomory 2 0 r0", Kind::Form),
    (b"gomory 2 01 r0", Kind::Form),
    (b"cover 0 1 1", Kind::Form),
    (b"cover r0 1 1 2", Kind::Form),
    (b"leaf", Kind::Form),
    (b"leaf 0", Kind::Form),
    (b"leaf 1 conflict r1", Kind::Form),
    (b"leaf 0 r0 0 L conflict r1", Kind::Form),
    (b"leaf 1 r0 0 l conflict r1", Kind::Form),
    (b"leaf 01 r0 L conflict r1", Kind::Form),
    (b"leaf 0 conflict", Kind::Form),
    (b"leaf 0 conflict 1", Kind::Form),
    (b"leaf 0 conflict r1 r2", Kind::Form),
    (b"leaf 0 empty", Kind::Form),
    (b"leaf 0 empty 1 2", Kind::Form),
    (b"leaf 01 bound 2 r0 1", Kind::Form),
    (b"leaf 0 bound 1 r0", Kind::Form),
    (b"size 4294967296 0", Kind::Number),
    (b"size -1 0", Kind::Number),
    (b"size 1 x", Kind::Number),
    (b"value 2\r", Kind::Number),
    (b"value +1", Kind::Number),
    (b"value -0", Kind::Number),
    (b"value 01", Kind::Number),
    (b"value -01", Kind::Number),
    (b"value -", Kind::Number),
    (b"value 1-", Kind::Number),
    (b"value \xff", Kind::Number),
    (b"value 4611686018427387905", Kind::Number),
    (b"value -4611686018427387905", Kind::Number),
    (
        b"value 340282366920938463463374607431768211457",
        Kind::Number,
    ),
    (b"point 1 x", Kind::Number),
    (b"cuts 4294967296", Kind::Number),
    (b"gomory 2 01 r0 1", Kind::Number),
    (b"gomory 2 4294967296 r0 1 k1 2", Kind::Number),
    (b"gomory 2 1 rx 1", Kind::Number),
    (b"gomory 2 1 r4294967296 1", Kind::Number),
    (b"gomory 9223372036854775808 0", Kind::Number),
    (b"gomory 2 1 r0 9223372036854775808", Kind::Number),
    (b"cover r0 x 1 2 3", Kind::Number),
    (b"cover k-1 1 0", Kind::Number),
    (b"cover r0 1 00", Kind::Number),
    (b"tree 00", Kind::Number),
    (b"split -1 0 1", Kind::Number),
    (b"split 0 0 a", Kind::Number),
    (b"leaf x r0 0 L conflict r1", Kind::Number),
    (b"leaf 1 r0 00 L conflict r1", Kind::Number),
    (b"leaf 1 r01 0 L conflict r1", Kind::Number),
    (b"leaf 1 r0 conflict L conflict r1", Kind::Number),
    (b"leaf 0 conflict kk", Kind::Number),
    (b"leaf 0 empty x", Kind::Number),
    (b"leaf 0 bound -1 r0 1 r1 1", Kind::Number),
    (b"leaf 0 bound 1 r0 -1", Kind::Number),
];

fn is_read_as(alloc: Global, line: &[u8], kind: Kind) -> Result<bool, OutOfMemory> {
    if line.len() > 100 {
        return Ok(false);
    }
    match read_line(alloc, line)? {
        LineReading::NoForm => Ok(kind == Kind::Form),
        LineReading::BadNumber => Ok(kind == Kind::Number),
        LineReading::Is(found) => {
            let mut text = Text::new(alloc);
            append_line(&mut text, &found)?;
            Ok(kind == Kind::Line && text.as_slice() == line)
        }
    }
}

/// The place of the first line of the table that is read otherwise.
fn first_wrong(alloc: Global) -> Result<Option<usize>, OutOfMemory> {
    for (place, case) in LINES.iter().enumerate() {
        if !is_read_as(alloc, case.0, case.1)? {
            return Ok(Some(place));
        }
    }
    Ok(None)
}

#[test]
fn lines_are_read(rt: HostRuntime) -> Result<(), Fail> {
    line_has_no_feed();
    reading_is_exact();
    assert_eq!(rt; first_wrong(rt.alloc())?, None);
    Ok(())
}

fn cut(alloc: Global, divisor: u64, weight: u64) -> Result<Derivation, OutOfMemory> {
    let mut parts = List::new(alloc);
    parts.push(Pair {
        row: RowRef::Model(0),
        weight,
    })?;
    Ok(Derivation::Gomory { parts, divisor })
}

fn leaf(alloc: Global) -> Result<CertNode, OutOfMemory> {
    let mut steps = List::new(alloc);
    steps.push(Tighten {
        row: RowRef::Model(0),
        col: 0,
        low: true,
    })?;
    Ok(CertNode::Leaf(Leaf {
        steps,
        closing: Closing::Bound(List::new(alloc)),
    }))
}

/// A certificate, and a split after it.
const PRINTED: &[u8] = b"xsearch certificate 1
size 1 1
value 2
point 2
cuts 2
gomory 2 1 r0 1
gomory 2048 1 r0 512
tree 1
leaf 1 r0 0 L bound 0
end
split 3 -7 -6
";

fn printed(alloc: Global) -> Result<Text, OutOfMemory> {
    let mut text = Text::new(alloc);
    let point = Some(Point::of(List::of(Vec::from_slice(alloc, &[2])?)));
    append_header(&mut text)?;
    text.push(b'\n')?;
    append_size(&mut text, 1, 1)?;
    text.push(b'\n')?;
    append_value(&mut text, 2)?;
    text.push(b'\n')?;
    append_point(&mut text, &point)?;
    text.push(b'\n')?;
    append_cuts(&mut text, 2)?;
    text.push(b'\n')?;
    append_cut(&mut text, &cut(alloc, 2, 1)?)?;
    text.push(b'\n')?;
    append_cut(&mut text, &cut(alloc, 2048, 512)?)?;
    text.push(b'\n')?;
    append_tree(&mut text, 1)?;
    text.push(b'\n')?;
    append_node(&mut text, &leaf(alloc)?)?;
    text.push(b'\n')?;
    append_end(&mut text)?;
    text.push(b'\n')?;
    append_line(
        &mut text,
        &Line::Node(CertNode::Split {
            col: 3,
            at: -7,
            next: -6,
        }),
    )?;
    text.push(b'\n')?;
    Ok(text)
}

#[test]
fn lines_are_printed(rt: HostRuntime) -> Result<(), Fail> {
    let text = printed(rt.alloc())?;
    assert_eq!(rt; text.as_slice(), PRINTED);
    Ok(())
}
