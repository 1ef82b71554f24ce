ghost use Rattle.std.specs.Prelude.{◌≡◌, ◌<◌, ◌≤◌, length, IfOk, IfSome, IsErrOf, OnOk};
ghost use Rattle.xsearch_words.specs.Faults.{HasFailed, next_count, failed_read, failed_write};
ghost use Rattle.xsearch_words.specs.Files.{MaySetFront, SetsFile, contents};
ghost use Rattle.xsearch_words.specs.Shelf.{HasNoFault, ShelfState};

use crate::{ShelfError, WriteError};
use ip_core::{List, Text};
use std::alloc::Global;

/// Files that are read and written by name.
pub trait Shelf {
    /// What the shelf tells: its files, where it tells them, how many calls were made and how many
    /// failed, and the one that failed last. The counts stand still at 2^64 - 1.
    ghost state: { Self → ShelfState };

    /// Reads the file of a name, which is to have at most `most` bytes.
    fn read(&mut self, alloc: Global, name: &Text, most: u64) -> Result<List<u8>, ShelfError>
        ensures short { IfOk result (λ bytes. length bytes ≤ most) }
        ensures bytes { IfOk result (λ bytes.
            IfSome (state self.old).files (λ files. bytes ≡ contents files name.now)) }
        ensures too_long { IsErrOf result ShelfError.TooLong →
            IfSome (state self.old).files (λ files. most < length (contents files name.now)) }
        ensures failed { IsErrOf result ShelfError.Failed →
            HasFailed (state self.old).faults (state self.new).faults (state self.new).last
            (failed_read name.now) }

        // No answer changes what the shelf tells of its files, and only a failure is a fault.
        ensures files { (state self.new).files ≡ (state self.old).files }
        ensures quiet { ¬ IsErrOf result ShelfError.Failed →
            HasNoFault (state self.old) (state self.new) }
        ensures count { (state self.old).faults ≤ (state self.new).faults }
        ensures calls { (state self.new).calls ≡ next_count (state self.old).calls };

    /// Makes the file of a name hold these bytes. After a failure it may hold a front of them.
    fn write(&mut self, alloc: Global, name: &Text, bytes: &[u8]) -> Result<(), WriteError>
        ensures ok { OnOk result
            (SetsFile (state self.old).files (state self.new).files name.now bytes.now) }
        ensures failed { IsErrOf result WriteError.Failed →
            HasFailed (state self.old).faults (state self.new).faults (state self.new).last
            (failed_write name.now) }
        ensures front { IsErrOf result WriteError.Failed →
            MaySetFront (state self.old).files (state self.new).files name.now bytes.now }
        ensures memory { IsErrOf result WriteError.Memory →
            (state self.new).files ≡ (state self.old).files }
        ensures quiet { ¬ IsErrOf result WriteError.Failed →
            HasNoFault (state self.old) (state self.new) }
        ensures count { (state self.old).faults ≤ (state self.new).faults }
        ensures calls { (state self.new).calls ≡ next_count (state self.old).calls };
}
