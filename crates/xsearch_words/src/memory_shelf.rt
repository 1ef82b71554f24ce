ghost use Rattle.std.specs.Prelude.{◌≡◌, ◌<◌, ◌≤◌, Some, length, take, IfOk, OnOk, OnErr, IsErrOf};
ghost use Rattle.std.specs.Option.{option_copied};
ghost use Rattle.xsearch_words.specs.Faults.{ShowsFailure, failed_read, failed_write, no_faults, read_failed, write_failed};
ghost use Rattle.xsearch_words.specs.Files.{MaySetFront, contents, no_files, with_file};
ghost use Rattle.xsearch_words.specs.Calls.{after_call, next_fails, no_calls};
ghost use Rattle.xsearch_words.specs.Shelf.{HasNoFault, log_after_read, log_after_write};

use crate::calls::Calls;
use crate::fault::FaultLog;
use crate::files::{FileMap, copy_file};
use crate::{LastFault, Shelf, ShelfError, WriteError};
use ip_core::{List, OutOfMemory, Text};
use std::alloc::Global;

/// A shelf in memory, of which chosen calls fail. A read of a name without a file fails too.
#[derive(Drop)]
pub struct MemoryShelf {
    files: FileMap,
    calls: Calls,
    faults: FaultLog,
}

impl MemoryShelf {
    ghost use Rattle.xsearch_words.specs.MemoryShelf.{calls_of, faults_of, files_of};

    /// A shelf without files and without faults. Its calls are numbered from 1, and those whose
    /// numbers are in `fails` will fail. Of a failing write at most `first` bytes go out.
    pub fn new(alloc: Global, fails: List<u64>, first: u64) -> MemoryShelf
        ensures files { files_of result ≡ no_files }
        ensures calls { calls_of result ≡ no_calls fails first }
        ensures faults { faults_of result ≡ no_faults }
    {
        MemoryShelf {
            files: FileMap::new(alloc),
            calls: Calls::new(fails, first),
            faults: FaultLog::new(),
        }
    }

    /// Makes the file of a name hold these bytes. It isn't numbered among the calls.
    pub fn set(&mut self, name: Text, bytes: List<u8>) -> Result<(), OutOfMemory>
        ensures ok { OnOk result (files_of self.new ≡ with_file name bytes (files_of self.old)) }
        ensures err { OnErr result (files_of self.new ≡ files_of self.old) }
        ensures calls { calls_of self.new ≡ calls_of self.old }
        ensures faults { faults_of self.new ≡ faults_of self.old }
    {
        self.files.set(name, bytes)
    }

    /// The bytes of the file of a name, or None where the name has no file.
    pub fn file(&self, name: &Text) -> Option<&[u8]>
        ensures { option_copied result ≡ files_of self.now name.now }
    {
        self.files.file(name)
    }

    /// The count of faults.
    pub fn faults(&self) -> u64
        ensures { result ≡ (faults_of self.now).count }
    {
        self.faults.count()
    }

    /// The last fault, or None where there is none.
    pub fn last_fault(&self) -> Option<&LastFault>
        ensures { option_copied result ≡ (faults_of self.now).last }
    {
        self.faults.last()
    }
}

impl Shelf for MemoryShelf {
    ghost use Rattle.xsearch_words.specs.MemoryShelf.{calls_of, faults_of, files_of, read_fails, state_of};

    ghost state = { state_of };

    fn read(&mut self, alloc: Global, name: &Text, most: u64) -> Result<List<u8>, ShelfError>
        ensures short { IfOk result (λ bytes. length bytes ≤ most) }
        ensures bytes { IfOk result (λ bytes. bytes ≡ contents (files_of self.old) name.now) }
        ensures too_long { IsErrOf result ShelfError.TooLong →
            most < length (contents (files_of self.old) name.now) }
        ensures failed { IsErrOf result ShelfError.Failed →
            ShowsFailure (faults_of self.old) (faults_of self.new) (failed_read name.now) }
        ensures files { files_of self.new ≡ files_of self.old }
        ensures quiet { ¬ IsErrOf result ShelfError.Failed →
            HasNoFault (state_of self.old) (state_of self.new) }
        ensures count { (faults_of self.old).count ≤ (faults_of self.new).count }

        // Want of memory aside, it fails exactly where its call is to fail or the name has no file.
        ensures fails { ¬ IsErrOf result ShelfError.Memory →
            read_failed result ≡ read_fails self.old name.now }
        ensures calls { calls_of self.new ≡ after_call (calls_of self.old) }
        ensures faults { faults_of self.new ≡ log_after_read (faults_of self.old) name.now result }
    {
        let fails = self.calls.next();
        let fault = LastFault::of_read(alloc, name)?;
        match self.files.file(name) {
            Some(bytes) if !fails => copy_file(alloc, bytes, most),
            _ => {
                self.faults.report(fault);
                Err(ShelfError::Failed)
            }
        }
    }

    fn write(&mut self, alloc: Global, name: &Text, bytes: &[u8]) -> Result<(), WriteError>
        ensures ok { OnOk result
            (files_of self.new ≡ with_file name.now bytes.now (files_of self.old)) }
        ensures failed { IsErrOf result WriteError.Failed →
            ShowsFailure (faults_of self.old) (faults_of self.new) (failed_write name.now) }
        ensures front { IsErrOf result WriteError.Failed →
            MaySetFront (Some (files_of self.old)) (Some (files_of self.new)) name.now bytes.now }
        ensures memory { IsErrOf result WriteError.Memory → files_of self.new ≡ files_of self.old }
        ensures quiet { ¬ IsErrOf result WriteError.Failed →
            HasNoFault (state_of self.old) (state_of self.new) }
        ensures count { (faults_of self.old).count ≤ (faults_of self.new).count }

        // Want of memory aside, it fails exactly where its call is to fail, and sets first bytes.
        ensures fails { ¬ IsErrOf result WriteError.Memory →
            write_failed result ≡ next_fails (calls_of self.old) }
        ensures first { IsErrOf result WriteError.Failed → files_of self.new ≡
            with_file name.now (take (calls_of self.old).first bytes.now) (files_of self.old) }
        ensures calls { calls_of self.new ≡ after_call (calls_of self.old) }
        ensures faults { faults_of self.new ≡ log_after_write (faults_of self.old) name.now result }
    {
        let fails = self.calls.next();
        let fault = LastFault::of_write(alloc, name)?;
        if fails {
            self.files.write(alloc, name, self.calls.front(bytes))?;
            self.faults.report(fault);
            return Err(WriteError::Failed);
        }
        self.files.write(alloc, name, bytes)?;
        Ok(())
    }
}
