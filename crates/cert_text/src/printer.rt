ghost use Rattle.std.specs.Prelude.{◌≡◌, ◌++◌, ◌∷◌, [], codes, map, IfOk, OnOk};
ghost use Rattle.cert_text.specs.Certificates.{certificate_text, cut_lines, point_lines, size_lines, text_of, tree_lines};
ghost use Rattle.cert_line.specs.declared.line.Line.TheVariants.{Cut, End, Node};

use cert_line::{
    append_cut, append_cuts, append_end, append_header, append_node, append_point, append_size,
    append_tree, append_value,
};
use ip_core::{Derivation, OutOfMemory, Point, Text};
use std::alloc::Global;
use tree_cert::{CertNode, Certificate};

/// Appends the first line and the line of the sizes.
fn append_sizes(text: &mut Text, cols: u32, rows: u32) -> Result<(), OutOfMemory>
    ensures { OnOk result (text.new ≡ text.old ++ text_of (size_lines cols rows)) }
{
    append_header(text)?;
    text.push(b'\n')?;
    append_size(text, cols, rows)?;
    text.push(b'\n')
}

/// Appends the line of the value, and that of the point.
fn append_best(text: &mut Text, value: i64, point: &Option<Point>) -> Result<(), OutOfMemory>
    ensures { OnOk result (text.new ≡ text.old ++ text_of (point_lines value point.now)) }
{
    append_value(text, value)?;
    text.push(b'\n')?;
    append_point(text, point)?;
    text.push(b'\n')
}

/// Appends a line for each cut.
fn append_each_cut(text: &mut Text, cuts: &[Derivation]) -> Result<(), OutOfMemory>
    ensures { OnOk result (text.new ≡ text.old ++ text_of (map Cut cuts.now)) }
{
    for cut in cuts {
        append_cut(text, cut)?;
        text.push(b'\n')?;
    }
    Ok(())
}

/// Appends the number of cuts and a line for each of them.
fn append_all_cuts(text: &mut Text, cuts: &[Derivation]) -> Result<(), OutOfMemory>
    ensures { OnOk result (text.new ≡ text.old ++ text_of (cut_lines cuts.now)) }
{
    append_cuts(text, cuts.len() as u64)?;
    text.push(b'\n')?;
    append_each_cut(text, cuts)
}

/// Appends a line for each node.
fn append_each_node(text: &mut Text, nodes: &[CertNode]) -> Result<(), OutOfMemory>
    ensures { OnOk result (text.new ≡ text.old ++ text_of (map Node nodes.now)) }
{
    for node in nodes {
        append_node(text, node)?;
        text.push(b'\n')?;
    }
    Ok(())
}

/// Appends the number of nodes and a line for each of them.
fn append_all_nodes(text: &mut Text, nodes: &[CertNode]) -> Result<(), OutOfMemory>
    ensures { OnOk result (text.new ≡ text.old ++ text_of (tree_lines nodes.now)) }
{
    append_tree(text, nodes.len() as u64)?;
    text.push(b'\n')?;
    append_each_node(text, nodes)
}

/// Appends the last line.
fn append_last(text: &mut Text) -> Result<(), OutOfMemory>
    ensures { OnOk result (text.new ≡ text.old ++ text_of (End ∷ [])) }
{
    append_end(text)?;
    text.push(b'\n')
}

/// The text of a certificate. Err comes only of want of memory.
#[tactic(auto, using(crate::proofs::Printing::printed))]
pub fn print(alloc: Global, certificate: &Certificate) -> Result<Text, OutOfMemory>
    ensures { IfOk result (λ t. t ≡ certificate_text certificate.now) }
{
    let mut text = Text::new(alloc);
    append_sizes(&mut text, certificate.cols, certificate.rows)?;
    append_best(&mut text, certificate.value, &certificate.point)?;
    append_all_cuts(&mut text, certificate.cuts.as_slice())?;
    append_all_nodes(&mut text, certificate.nodes.as_slice())?;
    append_last(&mut text)?;
    Ok(text)
}
