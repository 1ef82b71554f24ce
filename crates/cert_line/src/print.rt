ghost use Rattle.std.specs.Prelude.{◌≡◌, ◌++◌, OnOk};
ghost use Rattle.entry_text.specs.Fields.{signed_fields, pair_fields};
ghost use Rattle.cert_line.specs.declared.line.Line.TheVariants.{Header, Size, Value, Point as PointLine, Cuts, Cut, Tree, Node, End};
ghost use Rattle.cert_line.specs.Lines.{line_text, side_field, step_fields, closing_fields, leaf_text};

use crate::Line;
use entry_text::{append_derivation, append_number, append_row, append_signed};
use ip_core::{Closing, Derivation, Leaf, OutOfMemory, Pair, Point, Text, Tighten};
use tree_cert::CertNode;

/// Appends the first line, `xsearch certificate 1`, without a line feed. Err comes only of want of memory, and the text
/// is used no more then.
pub fn append_header(text: &mut Text) -> Result<(), OutOfMemory>
    ensures { OnOk result (text.new ≡ text.old ++ line_text Header) }
{
    text.extend(b"xsearch certificate 1")
}

/// Appends the line of the model's numbers of columns and of rows: `size COLS ROWS`. Err comes only of want of memory,
/// and the text is used no more then.
pub fn append_size(text: &mut Text, cols: u32, rows: u32) -> Result<(), OutOfMemory>
    ensures { OnOk result (text.new ≡ text.old ++ line_text (Size cols rows)) }
{
    text.extend(b"size")?;
    append_number(text, u64::from(cols))?;
    append_number(text, u64::from(rows))
}

/// Appends the line of the value: `value V`. Err comes only of want of memory, and the text is used no more then.
pub fn append_value(text: &mut Text, value: i64) -> Result<(), OutOfMemory>
    ensures { OnOk result (text.new ≡ text.old ++ line_text (Value value)) }
{
    text.extend(b"value")?;
    append_signed(text, value)
}

fn append_values(text: &mut Text, values: &[i64]) -> Result<(), OutOfMemory>
    ensures { OnOk result (text.new ≡ text.old ++ signed_fields values.now) }
{
    for value in values {
        append_signed(text, *value)?;
    }
    Ok(())
}

/// Appends the line of the point, `point` with its values, or `none`. Err comes only of want of memory, and the text is
/// used no more then.
pub fn append_point(text: &mut Text, point: &Option<Point>) -> Result<(), OutOfMemory>
    ensures { OnOk result (text.new ≡ text.old ++ line_text (PointLine point.now)) }
{
    match point {
        Some(point) => {
            text.extend(b"point")?;
            append_values(text, point.values())
        }
        None => text.extend(b"none"),
    }
}

/// Appends the line of the number of cuts: `cuts N`. Err comes only of want of memory, and the text is used no more
/// then.
pub fn append_cuts(text: &mut Text, count: u64) -> Result<(), OutOfMemory>
    ensures { OnOk result (text.new ≡ text.old ++ line_text (Cuts count)) }
{
    text.extend(b"cuts")?;
    append_number(text, count)
}

/// Appends the line of a cut, by its derivation. Err comes only of want of memory, and the text is used no more then.
pub fn append_cut(text: &mut Text, derivation: &Derivation) -> Result<(), OutOfMemory>
    ensures { OnOk result (text.new ≡ text.old ++ line_text (Cut derivation.now)) }
{
    append_derivation(text, derivation)
}

/// Appends the line of the number of nodes: `tree M`. Err comes only of want of memory, and the text is used no more
/// then.
pub fn append_tree(text: &mut Text, count: u64) -> Result<(), OutOfMemory>
    ensures { OnOk result (text.new ≡ text.old ++ line_text (Tree count)) }
{
    text.extend(b"tree")?;
    append_number(text, count)
}

fn append_side(text: &mut Text, low: bool) -> Result<(), OutOfMemory>
    ensures { OnOk result (text.new ≡ text.old ++ side_field low) }
{
    if low {
        text.extend(b" L")
    } else {
        text.extend(b" H")
    }
}

fn append_steps(text: &mut Text, steps: &[Tighten]) -> Result<(), OutOfMemory>
    ensures { OnOk result (text.new ≡ text.old ++ step_fields steps.now) }
{
    for step in steps {
        append_row(text, step.row)?;
        append_number(text, u64::from(step.col))?;
        append_side(text, step.low)?;
    }
    Ok(())
}

fn append_pairs(text: &mut Text, pairs: &[Pair]) -> Result<(), OutOfMemory>
    ensures { OnOk result (text.new ≡ text.old ++ pair_fields pairs.now) }
{
    for pair in pairs {
        append_row(text, pair.row)?;
        append_number(text, pair.weight)?;
    }
    Ok(())
}

fn append_closing(text: &mut Text, closing: &Closing) -> Result<(), OutOfMemory>
    ensures { OnOk result (text.new ≡ text.old ++ closing_fields closing.now) }
{
    match closing {
        Closing::Conflict(row) => {
            text.extend(b" conflict")?;
            append_row(text, *row)
        }
        Closing::Empty(col) => {
            text.extend(b" empty")?;
            append_number(text, u64::from(*col))
        }
        Closing::Bound(pairs) => {
            text.extend(b" bound")?;
            append_number(text, pairs.len() as u64)?;
            append_pairs(text, pairs.as_slice())
        }
    }
}

fn append_leaf(text: &mut Text, leaf: &Leaf) -> Result<(), OutOfMemory>
    ensures { OnOk result (text.new ≡ text.old ++ leaf_text leaf.now) }
{
    text.extend(b"leaf")?;
    append_number(text, leaf.steps.len() as u64)?;
    append_steps(text, leaf.steps.as_slice())?;
    append_closing(text, &leaf.closing)
}

/// Appends the line of a node: a split, or a leaf with its steps and its closing. Err comes only of want of memory, and
/// the text is used no more then.
pub fn append_node(text: &mut Text, node: &CertNode) -> Result<(), OutOfMemory>
    ensures { OnOk result (text.new ≡ text.old ++ line_text (Node node.now)) }
{
    match node {
        CertNode::Split { col, at, next } => {
            text.extend(b"split")?;
            append_number(text, u64::from(*col))?;
            append_signed(text, *at)?;
            append_signed(text, *next)
        }
        CertNode::Leaf(leaf) => append_leaf(text, leaf),
    }
}

/// Appends the last line, `end`. Err comes only of want of memory, and the text is used no more then.
pub fn append_end(text: &mut Text) -> Result<(), OutOfMemory>
    ensures { OnOk result (text.new ≡ text.old ++ line_text End) }
{
    text.extend(b"end")
}

/// Appends a line, without a line feed. Err comes only of want of memory, and the text is used no more then.
pub fn append_line(text: &mut Text, line: &Line) -> Result<(), OutOfMemory>
    ensures { OnOk result (text.new ≡ text.old ++ line_text line.now) }
{
    match line {
        Line::Header => append_header(text),
        Line::Size { cols, rows } => append_size(text, *cols, *rows),
        Line::Value(value) => append_value(text, *value),
        Line::Point(point) => append_point(text, point),
        Line::Cuts(count) => append_cuts(text, u64::from(*count)),
        Line::Cut(derivation) => append_cut(text, derivation),
        Line::Tree(count) => append_tree(text, u64::from(*count)),
        Line::Node(node) => append_node(text, node),
        Line::End => append_end(text),
    }
}
