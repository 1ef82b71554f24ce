ghost use Rattle.std.specs.Prelude.{◌≡◌, ◌≤◌, [], Some, ◌++◌, OnOk, IsErrOf};

use crate::{Sink, WriteError};
use ip_core::Text;
use std::alloc::Global;

/// A sink in memory without faults.
#[derive(Drop)]
pub struct SureSink {
    out: Text,
    calls: u64,
}

impl SureSink {
    ghost use Rattle.xsearch_words.specs.SureSink.{bytes_of};

    /// A sink without bytes.
    pub fn new(alloc: Global) -> SureSink
        ensures { bytes_of result ≡ [] }
    {
        SureSink {
            out: Text::new(alloc),
            calls: 0,
        }
    }

    /// The bytes gone out.
    pub fn bytes(&self) -> &[u8]
        ensures { result.now ≡ bytes_of self.now }
    {
        self.out.as_slice()
    }
}

impl Sink for SureSink {
    ghost use Rattle.xsearch_words.specs.SureSink.{state_of};

    ghost state = { state_of };

    fn put(&mut self, _alloc: Global, bytes: &[u8]) -> Result<(), WriteError> {
        self.calls = self.calls.saturating_add(1);
        self.out.extend(bytes)?;
        Ok(())
    }
}
