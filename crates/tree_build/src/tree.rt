ghost use Rattle.std.specs.Prelude.{◌≡◌, ◌+◌, ◌<◌, ◌^◌, ◌++◌, ◌∷◌, [], IfOk, OnOk, pos, ◌<ℤ◌};
ghost use Rattle.tree_build.specs.FirstRecords.{HasRecordPlaces};
ghost use Rattle.tree_build.specs.Histories.{IsSearchHistory};
ghost use Rattle.tree_build.specs.ProofTrees.{all_records, leaf_named, proof_tree, split_node as split_node_of};

use crate::copies::copy_leaf;
use crate::parting::{Parting, first_partings};
use crate::record_place::{RecordPlace, first_records};
use ip_core::{Closing, Leaf, List, OutOfMemory, Record};
use stamp_machine::History;
use std::alloc::Global;
use std::collections::BTreeMap;
use tree_cert::CertNode;

/// The tree of a history and its records: its nodes in preorder, the low child first. It takes time
/// in proportion to the history, but for the look-ups of names.
pub fn tree_of(alloc: Global, history: &History) -> Result<List<CertNode>, OutOfMemory>
    requires { IsSearchHistory history.now.entries }
    ensures { IfOk result (λ nodes. nodes ≡
        proof_tree history.now.records history.now.entries) }
{
    let lists = history.records.as_slice();
    let partings = first_partings(alloc, history.entries.as_slice())?;
    let places = first_records(alloc, lists)?;
    let mut nodes = List::new(alloc);
    let mut due = Vec::new(alloc);
    due.push(0)?;
    while let Some(name) = due.pop() {
        match partings.get(&name) {
            Some(parting) => {
                nodes.push(split_node(*parting))?;
                push_children(&mut due, parting.first)?;
            }
            None => nodes.push(CertNode::Leaf(leaf_of(alloc, lists, &places, name)?))?,
        }
    }
    Ok(nodes)
}

/// Adds the children of a node to the names that are due, where the last is next: the low child is,
/// which has the first name.
fn push_children(due: &mut Vec<u64>, first: u64) -> Result<(), OutOfMemory>
    requires { first + 1 < 2 ^ 64 }
    ensures { OnOk result
        (due.new.items ≡ (due.old.items ++ (first + 1) ∷ []) ++ first ∷ []) }
{
    due.push(first + 1)?;
    due.push(first)?;
    Ok(())
}

/// The leaf of a node: that of its first record.
fn leaf_of(
    alloc: Global,
    lists: &[List<Record>],
    places: &BTreeMap<u64, RecordPlace>,
    name: u64,
) -> Result<Leaf, OutOfMemory>
    requires { HasRecordPlaces 0 lists.now places.now }
    ensures { IfOk result (λ leaf. leaf ≡ leaf_named (all_records lists.now) name) }
{
    match places.get(&name) {
        Some(place) => copy_leaf(alloc, &lists[place.slot].as_slice()[place.index].leaf),
        None => Ok(Leaf {
            steps: List::new(alloc),
            closing: Closing::Bound(List::new(alloc)),
        }),
    }
}

/// The inner node for a node that is parted.
fn split_node(parting: Parting) -> CertNode
    requires { parting.at <ℤ pos (2 ^ 62) }
    ensures { result ≡ split_node_of parting }
{
    CertNode::Split {
        col: parting.col,
        at: parting.at,
        next: parting.at + 1,
    }
}
