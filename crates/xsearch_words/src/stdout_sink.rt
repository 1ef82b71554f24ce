ghost use Rattle.std.specs.Prelude.{◌≡◌, ◌≤◌, IsErrOf};
ghost use Rattle.xsearch_words.specs.Faults.{HasRisen, next_count};
ghost use Rattle.xsearch_words.specs.Sink.{count_after_write};

use crate::streams::write_out;
use crate::{Sink, WriteError};
use std::alloc::Global;
use std::io;

/// The sink over the standard output. It tells nothing of what went out.
#[derive(Drop)]
pub struct StdoutSink<R> {
    rt: R,
    faults: u64,
    calls: u64,
}

impl<R: Print> StdoutSink<R> {
    ghost use Rattle.xsearch_words.specs.StdoutSink.{faults_of};

    /// A sink without faults over the standard output. It takes no memory.
    pub fn new(rt: R) -> StdoutSink<R>
        ensures { faults_of result ≡ 0 }
    {
        StdoutSink {
            rt,
            faults: 0,
            calls: 0,
        }
    }
}

impl<R: Print> Sink for StdoutSink<R> {
    ghost use Rattle.xsearch_words.specs.StdoutSink.{faults_of, state_of};

    ghost state = { state_of };

    fn put(&mut self, _alloc: Global, bytes: &[u8]) -> Result<(), WriteError>
        ensures failed { IsErrOf result WriteError.Failed →
            HasRisen (faults_of self.old) (faults_of self.new) }
        ensures quiet { ¬ IsErrOf result WriteError.Failed →
            faults_of self.new ≡ faults_of self.old }
        ensures count { faults_of self.old ≤ faults_of self.new }
        ensures calls { (state_of self.new).calls ≡ next_count (state_of self.old).calls }
        ensures memory { ¬ IsErrOf result WriteError.Memory }
        ensures faults { faults_of self.new ≡ count_after_write (faults_of self.old) result }
    {
        self.calls = self.calls.saturating_add(1);
        let outcome = write_out(&mut io::writer(&self.rt), bytes);
        if outcome.is_err() {
            self.faults = self.faults.saturating_add(1);
        }
        outcome
    }
}
