//! The nodes of a certificate.
ghost use Rattle.std.specs.Prelude.{◌≡◌, ◌≤◌, ◌^◌, ◌∷◌, [], length, IfOk};
ghost use Rattle.ip_core.specs.Boxes.{IsWithin};
ghost use Rattle.safe_bound.specs.Premises.{AreCuts};
ghost use Rattle.leaf_truth.specs.Leaves.{leaf_reason as leaf_reason_of};
ghost use Rattle.leaf_truth.specs.Rooms.{HasRoom};
ghost use Rattle.cert_check.specs.Nodes.{nodes_fault, split_reason as split_reason_of, why_of as why_of_leaf};
ghost use Rattle.cert_check.specs.Verdicts.{verdict_of};
ghost use Rattle.cert_check.specs.Walks.{HasColumn, boxes_after, boxes_if, node_reason as node_reason_of};

use crate::walk::Walk;
use crate::{Verdict, Why};
use ip_core::{Leaf, Model, OutOfMemory, Row};
use leaf_truth::{LeafReason, Scratch, leaf_reason};
use std::alloc::Global;
use tree_cert::CertNode;

/// The verdict on nodes over the rows of the cuts, with this value, where no earlier line has a reason and the first
/// node stands on this line. It ends with the tree.
pub fn nodes_verdict(
    alloc: Global,
    model: &Model,
    cuts: &[Row],
    value: i64,
    first_line: u32,
    nodes: &[CertNode],
) -> Result<Verdict, OutOfMemory>
    requires cuts { AreCuts model.now cuts.now }
    requires line { first_line ≤ 2 ^ 31 }
    requires few { length nodes.now ≤ 2 ^ 30 }
    ensures { IfOk result (λ verdict. verdict ≡ verdict_of
        (nodes_fault model.now cuts.now value first_line (model.now.root ∷ []) nodes.now)) }
{
    let _limits = model.parts();
    let mut scratch = Scratch::of(alloc, model, cuts)?;
    let mut walk = Walk::new(alloc, model.root())?;
    let mut line = first_line;
    for node in nodes {
        if let Some(why) = node_reason(alloc, model, cuts, value, node, &walk, &mut scratch)? {
            return Ok(Verdict::Rejected { line, why });
        }
        if !go_on(&mut walk, node)? {
            return Ok(Verdict::Accepted);
        }
        line += 1;
    }
    Ok(Verdict::Accepted)
}

/// Why a node with the walk's box is rejected.
fn node_reason(
    alloc: Global,
    model: &Model,
    cuts: &[Row],
    value: i64,
    node: &CertNode,
    walk: &Walk,
    scratch: &mut Scratch,
) -> Result<Option<Why>, OutOfMemory>
    requires cuts { AreCuts model.now cuts.now }
    requires within { IsWithin model.now.root walk.now.here }
    requires room { HasRoom model.now cuts.now scratch.old }
    ensures reason { IfOk result (λ why. why ≡
        node_reason_of model.now cuts.now value walk.now.here node.now) }
    ensures room { HasRoom model.now cuts.now scratch.new }
{
    match node {
        CertNode::Split { col, at, next } => Ok(split_reason(model, *col, *at, *next)),
        CertNode::Leaf(leaf) => leaf_why(alloc, model, cuts, value, leaf, walk, scratch),
    }
}

/// Why the box can't be parted so.
fn split_reason(model: &Model, col: u32, at: i64, next: i64) -> Option<Why>
    ensures { result ≡ split_reason_of model.now col at next }
{
    if col as usize >= model.cols().len() {
        return Some(Why::SplitColumn);
    }
    if i128::from(next) != i128::from(at) + 1 {
        return Some(Why::SplitGap);
    }
    None
}

/// Why a leaf doesn't hold on the walk's box. Its steps are made on a copy of the box.
fn leaf_why(
    alloc: Global,
    model: &Model,
    cuts: &[Row],
    value: i64,
    leaf: &Leaf,
    walk: &Walk,
    scratch: &mut Scratch,
) -> Result<Option<Why>, OutOfMemory>
    requires cuts { AreCuts model.now cuts.now }
    requires within { IsWithin model.now.root walk.now.here }
    requires room { HasRoom model.now cuts.now scratch.old }
    ensures reason { IfOk result (λ why. why ≡
        why_of_leaf (leaf_reason_of model.now cuts.now value walk.now.here leaf.now)) }
    ensures room { HasRoom model.now cuts.now scratch.new }
{
    let mut bounds = walk.bounds(alloc)?;
    let reason = leaf_reason(model, cuts, &mut bounds, value, leaf, scratch);
    Ok(why_of(reason))
}

/// The checker's reason for what a leaf lacks.
fn why_of(reason: Option<LeafReason>) -> Option<Why>
    ensures { result ≡ why_of_leaf reason }
{
    match reason {
        None => None,
        Some(LeafReason::BadStep) => Some(Why::Step),
        Some(LeafReason::BadConflict) => Some(Why::Conflict),
        Some(LeafReason::BadBound) => Some(Why::Bound),
    }
}

/// Goes on behind a node, whose column exists if it is a split, and tells whether a tree is still due.
fn go_on(walk: &mut Walk, node: &CertNode) -> Result<bool, OutOfMemory>
    requires { HasColumn walk.old.here node.now }
    ensures { IfOk result (λ left. boxes_if left walk.new ≡ boxes_after walk.old node.now) }
{
    match node {
        CertNode::Split { col, at, next } => {
            walk.split(*col, *at, *next)?;
            Ok(true)
        }
        CertNode::Leaf(_) => walk.advance(),
    }
}
