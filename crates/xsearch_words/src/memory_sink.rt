ghost use Rattle.std.specs.Prelude.{◌≡◌, ◌≤◌, [], Some, ◌++◌, take, OnOk, IsErrOf};
ghost use Rattle.xsearch_words.specs.Faults.{HasRisen, write_failed};
ghost use Rattle.xsearch_words.specs.Calls.{after_call, next_fails, no_calls};
ghost use Rattle.xsearch_words.specs.Sink.{GrowsByFront, count_after_write};

use crate::calls::Calls;
use crate::{Sink, WriteError};
use ip_core::{List, Text};
use std::alloc::Global;

/// A sink in memory, of which chosen calls fail.
#[derive(Drop)]
pub struct MemorySink {
    out: Text,
    calls: Calls,
    faults: u64,
}

impl MemorySink {
    ghost use Rattle.xsearch_words.specs.MemorySink.{bytes_of, calls_of, faults_of};

    /// A sink without bytes and without faults. Its calls are numbered from 1, and those whose
    /// numbers are in `fails` will fail. Of a failing put at most `first` bytes go out.
    pub fn new(alloc: Global, fails: List<u64>, first: u64) -> MemorySink
        ensures bytes { bytes_of result ≡ [] }
        ensures calls { calls_of result ≡ no_calls fails first }
        ensures faults { faults_of result ≡ 0 }
    {
        MemorySink {
            out: Text::new(alloc),
            calls: Calls::new(fails, first),
            faults: 0,
        }
    }

    /// The bytes gone out.
    pub fn bytes(&self) -> &[u8]
        ensures { result.now ≡ bytes_of self.now }
    {
        self.out.as_slice()
    }

    /// The count of faults.
    pub fn faults(&self) -> u64
        ensures { result ≡ faults_of self.now }
    {
        self.faults
    }
}

impl Sink for MemorySink {
    ghost use Rattle.xsearch_words.specs.MemorySink.{bytes_of, calls_of, faults_of, state_of};

    ghost state = { state_of };

    fn put(&mut self, _alloc: Global, bytes: &[u8]) -> Result<(), WriteError>
        ensures ok { OnOk result (bytes_of self.new ≡ bytes_of self.old ++ bytes.now) }
        ensures failed { IsErrOf result WriteError.Failed →
            HasRisen (faults_of self.old) (faults_of self.new) }
        ensures front { IsErrOf result WriteError.Failed →
            GrowsByFront (Some (bytes_of self.old)) (Some (bytes_of self.new)) bytes.now }
        ensures memory { IsErrOf result WriteError.Memory → bytes_of self.new ≡ bytes_of self.old }
        ensures quiet { ¬ IsErrOf result WriteError.Failed →
            faults_of self.new ≡ faults_of self.old }
        ensures count { faults_of self.old ≤ faults_of self.new }

        // Want of memory aside, it fails exactly where its call is to fail, and first bytes go out.
        ensures fails { ¬ IsErrOf result WriteError.Memory →
            write_failed result ≡ next_fails (calls_of self.old) }
        ensures first { IsErrOf result WriteError.Failed →
            bytes_of self.new ≡ bytes_of self.old ++ take (calls_of self.old).first bytes.now }
        ensures calls { calls_of self.new ≡ after_call (calls_of self.old) }
        ensures faults { faults_of self.new ≡ count_after_write (faults_of self.old) result }
    {
        if self.calls.next() {
            self.out.extend(self.calls.front(bytes))?;
            self.faults = self.faults.saturating_add(1);
            return Err(WriteError::Failed);
        }
        self.out.extend(bytes)?;
        Ok(())
    }
}
