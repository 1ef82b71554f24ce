ghost use Rattle.std.specs.Prelude.{◌≡◌, ◌<◌, ◌+◌, ◌^◌, IfOk, ℤ, pos, ◌<ℤ◌};
ghost use Rattle.tree_build.specs.FirstRecords.{HasFirstPartings};
ghost use Rattle.tree_build.specs.Partings.{parting_of as parting_of_entry};

use ip_core::OutOfMemory;
use std::alloc::Global;
use std::collections::BTreeMap;
use work_stamp::{Entry, KeyedEntry};

/// How a node is parted: `first` has the column at most `at`, and the next name has it at least
/// `at + 1`.
#[derive(Clone, Copy, Debug, PartialEq, Eq)]
pub struct Parting {
    pub node: u64,
    pub col: u32,
    pub at: i64,
    pub first: u64,
}

/// How an entry parts a node, or None where it doesn't.
fn parting_of(entry: &Entry) -> Option<Parting>
    ensures { result ≡ parting_of_entry entry.now }
{
    match entry {
        Entry::Split {
            node,
            col,
            at,
            first,
            ..
        } => Some(Parting {
            node: *node,
            col: *col,
            at: *at,
            first: *first,
        }),
        _ => None,
    }
}

/// The first parting of each node that is parted, by the node's name.
pub fn first_partings(
    alloc: Global,
    entries: &[KeyedEntry],
) -> Result<BTreeMap<u64, Parting>, OutOfMemory>
    ensures { IfOk result (HasFirstPartings entries.now) }
{
    let mut partings = BTreeMap::new(alloc);
    for place in (0..entries.len()).rev() {
        if let Some(parting) = parting_of(&entries[place].entry) {
            partings.insert(parting.node, parting)?;
        }
    }
    Ok(partings)
}
