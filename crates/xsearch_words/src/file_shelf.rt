ghost use Rattle.std.specs.Prelude.{◌≡◌, ◌≤◌, length, IfOk, IsErrOf};
ghost use Rattle.xsearch_words.specs.Faults.{ShowsFailure, next_count, failed_read, failed_write, no_faults};
ghost use Rattle.xsearch_words.specs.Shelf.{HasNoFault, log_after_read, log_after_write};

use crate::fault::FaultLog;
use crate::streams::{read_opened, write_opened};
use crate::{LastFault, Shelf, ShelfError, WriteError};
use ip_core::{List, Text};
use std::alloc::Global;
use std::fs;
use std::rt::Files;

/// The shelf of the system's files. It tells nothing of what they hold.
#[derive(Drop)]
pub struct FileShelf<R> {
    rt: R,
    faults: FaultLog,
    calls: u64,
}

impl<R: Files> FileShelf<R> {
    ghost use Rattle.xsearch_words.specs.FileShelf.{faults_of};

    /// A shelf without faults over the system's files. It takes no memory.
    pub fn new(rt: R) -> FileShelf<R>
        ensures { faults_of result ≡ no_faults }
    {
        FileShelf {
            rt,
            faults: FaultLog::new(),
            calls: 0,
        }
    }
}

impl<R: Files> Shelf for FileShelf<R> {
    ghost use Rattle.xsearch_words.specs.FileShelf.{faults_of, state_of};

    ghost state = { state_of };

    fn read(&mut self, alloc: Global, name: &Text, most: u64) -> Result<List<u8>, ShelfError>
        ensures short { IfOk result (λ bytes. length bytes ≤ most) }
        ensures failed { IsErrOf result ShelfError.Failed →
            ShowsFailure (faults_of self.old) (faults_of self.new) (failed_read name.now) }
        ensures quiet { ¬ IsErrOf result ShelfError.Failed →
            HasNoFault (state_of self.old) (state_of self.new) }
        ensures count { (faults_of self.old).count ≤ (faults_of self.new).count }
        ensures calls { (state_of self.new).calls ≡ next_count (state_of self.old).calls }
        ensures faults { faults_of self.new ≡ log_after_read (faults_of self.old) name.now result }
    {
        self.calls = self.calls.saturating_add(1);
        let fault = LastFault::of_read(alloc, name)?;
        let outcome = read_file(&self.rt, alloc, name.as_slice(), most);
        if let Err(ShelfError::Failed) = outcome {
            self.faults.report(fault);
        }
        outcome
    }

    fn write(&mut self, alloc: Global, name: &Text, bytes: &[u8]) -> Result<(), WriteError>
        ensures failed { IsErrOf result WriteError.Failed →
            ShowsFailure (faults_of self.old) (faults_of self.new) (failed_write name.now) }
        ensures quiet { ¬ IsErrOf result WriteError.Failed →
            HasNoFault (state_of self.old) (state_of self.new) }
        ensures count { (faults_of self.old).count ≤ (faults_of self.new).count }
        ensures calls { (state_of self.new).calls ≡ next_count (state_of self.old).calls }
        ensures faults { faults_of self.new ≡ log_after_write (faults_of self.old) name.now result }
    {
        self.calls = self.calls.saturating_add(1);
        let fault = LastFault::of_write(alloc, name)?;
        let outcome = write_file(&self.rt, name.as_slice(), bytes);
        if outcome.is_err() {
            self.faults.report(fault);
        }
        outcome
    }
}

/// Reads the file at a path. A name that isn't text is a failure.
fn read_file<R: Files>(
    rt: &R,
    alloc: Global,
    name: &[u8],
    most: u64,
) -> Result<List<u8>, ShelfError>
    ensures { IfOk result (λ bytes. length bytes ≤ most) }
{
    let Ok(path) = str::from_utf8(name) else {
        return Err(ShelfError::Failed);
    };
    read_opened(fs::open(rt, path), alloc, most)
}

/// Writes the file at a path, which may be a new one. A name that isn't text is a failure.
fn write_file<R: Files>(rt: &R, name: &[u8], bytes: &[u8]) -> Result<(), WriteError>
    ensures { ¬ IsErrOf result WriteError.Memory }
{
    let Ok(path) = str::from_utf8(name) else {
        return Err(WriteError::Failed);
    };
    match write_opened(fs::create(rt, path), bytes) {
        Ok(_file) => Ok(()),
        Err(error) => Err(error),
    }
}
