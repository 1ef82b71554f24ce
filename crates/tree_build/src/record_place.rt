ghost use Rattle.std.specs.Prelude.{◌≡◌, IfOk};
ghost use Rattle.tree_build.specs.FirstRecords.{HasRecordPlaces, HasSlotPlaces};

use ip_core::{List, OutOfMemory, Record};
use std::alloc::Global;
use std::collections::BTreeMap;

/// Where a record stands: the slot, and its index among the slot's records.
#[derive(Clone, Copy, Debug, PartialEq, Eq)]
pub struct RecordPlace {
    pub slot: usize,
    pub index: usize,
}

/// Where the first record of each node stands, by the node's name.
pub fn first_records(
    alloc: Global,
    lists: &[List<Record>],
) -> Result<BTreeMap<u64, RecordPlace>, OutOfMemory>
    ensures { IfOk result (HasRecordPlaces 0 lists.now) }
{
    let mut places = BTreeMap::new(alloc);
    for slot in (0..lists.len()).rev() {
        places = with_slot(places, slot, lists[slot].as_slice())?;
    }
    Ok(places)
}

/// The places with those of a slot, which come before the places of later slots.
fn with_slot(
    later: BTreeMap<u64, RecordPlace>,
    slot: usize,
    records: &[Record],
) -> Result<BTreeMap<u64, RecordPlace>, OutOfMemory>
    ensures { IfOk result (HasSlotPlaces slot 0 records.now later) }
{
    let mut places = later;
    for index in (0..records.len()).rev() {
        places.insert(records[index].node, RecordPlace { slot, index })?;
    }
    Ok(places)
}
