ghost use Rattle.std.specs.Prelude.{◌≡◌, None, OnErr, OnOk, MatchOption};
ghost use Rattle.node_pool.specs.Nodes.{IsNameAt, first_named, insert_open as insert_open_of, without_name};

use ip_core::OutOfMemory;
use std::collections::BTreeSet;

/// An open node: the bound by which it is picked, and its name. Open nodes are in the order of their
/// bounds, and where those are equal in the order of their names.
#[derive(Clone, Copy, Debug, PartialEq, Eq, PartialOrd, Ord)]
pub struct OpenNode {
    pub bound: i64,
    pub name: u64,
}

/// Puts a node of a new name among open ones.
#[tactic(auto, using(crate::proofs::OpenNodes::insert_is))]
pub fn insert_open(nodes: &mut BTreeSet<OpenNode>, node: OpenNode) -> Result<(), OutOfMemory>
    requires { first_named node.name nodes.old.keys ≡ None }
    ensures ok { OnOk result (nodes.new.keys ≡ insert_open_of node nodes.old.keys) }
    ensures err { OnErr result (nodes.new.keys ≡ nodes.old.keys) }
{
    nodes.insert(node)?;
    Ok(())
}

/// Takes out the first of a name, if there is one.
pub fn remove_name(names: &mut Vec<u64>, name: u64)
    ensures { names.new.items ≡ without_name name names.old.items }
{
    if let Some(place) = name_place(names.as_slice(), name) {
        names.remove(place);
    }
}

/// The first place of a name.
fn name_place(names: &[u64], name: u64) -> Option<usize>
    ensures { MatchOption result (without_name name names.now ≡ names.now)
        (λ place. IsNameAt names.now name place) }
{
    for place in 0..names.len() {
        if names[place] == name {
            return Some(place);
        }
    }
    None
}
