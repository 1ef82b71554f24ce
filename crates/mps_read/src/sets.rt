ghost use Rattle.std.specs.Prelude.{◌≡◌, true, false, OnOk};
ghost use Rattle.mps_read.specs.Names.{is_long as is_long_name};
ghost use Rattle.mps_read.specs.Sets.{is_used as is_used_set};
ghost use Rattle.mps_read.specs.Steps.{with_set};
ghost use Rattle.mps_lines.specs.FieldWords.{IsField};

use crate::draft::SetUse;
use crate::name::name_of;
use ip_core::OutOfMemory;
use mps_lines::is_word;
use std::alloc::Global;

/// Whether a line of this set is used: the first data line of a section names its set.
pub fn is_used(first: &SetUse, set: &[u8]) -> bool
    ensures { result ≡ is_used_set first.now.set set.now }
{
    match &first.set {
        None => true,
        Some(name) => is_word(name.text().as_slice(), set),
    }
}

/// Names the set of a section, where it has none.
pub fn name_set(alloc: Global, first: &mut SetUse, set: &[u8]) -> Result<(), OutOfMemory>
    requires field { IsField set.now }
    requires short { is_long_name set.now ≡ false }
    requires used { is_used_set first.old.set set.now ≡ true }
    ensures { OnOk result (first.new ≡ with_set set.now first.old) }
{
    if first.set.is_none() {
        first.set = Some(name_of(alloc, set)?);
    }
    Ok(())
}
