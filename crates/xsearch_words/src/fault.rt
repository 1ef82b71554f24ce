ghost use Rattle.std.specs.Prelude.{◌≡◌, IfOk};
ghost use Rattle.std.specs.Option.{option_copied};

use ip_core::{OutOfMemory, Text};
use std::alloc::Global;

/// The call of a shelf that failed last: whether it was a write or a read, and of which name.
#[derive(Debug, Drop)]
pub struct LastFault {
    pub write: bool,
    pub name: Text,
}

impl LastFault {
    ghost use Rattle.xsearch_words.specs.Faults.{failed_read, failed_write};

    /// A read of this name, kept ready before the call so that a fault takes no memory.
    pub(crate) fn of_read(alloc: Global, name: &Text) -> Result<LastFault, OutOfMemory>
        ensures { IfOk result (λ fault. fault ≡ failed_read name.now) }
    {
        Ok(LastFault {
            write: false,
            name: name.copy(alloc)?,
        })
    }

    /// The same of a write.
    pub(crate) fn of_write(alloc: Global, name: &Text) -> Result<LastFault, OutOfMemory>
        ensures { IfOk result (λ fault. fault ≡ failed_write name.now) }
    {
        Ok(LastFault {
            write: true,
            name: name.copy(alloc)?,
        })
    }
}

/// The faults of a shelf: their count, which stands still at its type's end, and the last one.
#[derive(Debug, Drop)]
pub(crate) struct FaultLog {
    count: u64,
    last: Option<LastFault>,
}

impl FaultLog {
    ghost use Rattle.xsearch_words.specs.Faults.{no_faults, log_with, HasFailed};

    /// A log without faults.
    pub(crate) fn new() -> FaultLog
        ensures { result ≡ no_faults }
    {
        FaultLog {
            count: 0,
            last: None,
        }
    }

    /// Keeps one more fault.
    pub(crate) fn report(&mut self, fault: LastFault)
        ensures log { self.new ≡ log_with self.old fault }
        ensures risen { HasFailed self.old.count self.new.count self.new.last fault }
    {
        self.count = self.count.saturating_add(1);
        self.last = Some(fault);
    }

    /// The count of faults.
    pub(crate) fn count(&self) -> u64
        ensures { result ≡ self.now.count }
    {
        self.count
    }

    /// The last fault, or None where there is none.
    pub(crate) fn last(&self) -> Option<&LastFault>
        ensures { option_copied result ≡ self.now.last }
    {
        self.last.as_ref()
    }
}
