ghost use Rattle.std.specs.Prelude.{◌≡◌, ◌<◌, ◌≤◌, None, Some, length, IfOk, OnOk, OnErr, IsErrOf};
ghost use Rattle.std.specs.Option.{option_copied};
ghost use Rattle.xsearch_words.specs.Files.{contents, no_files, with_file};

use crate::files::{FileMap, copy_file};
use crate::{Shelf, ShelfError, WriteError};
use ip_core::{List, OutOfMemory, Text};
use std::alloc::Global;

/// A shelf in memory without faults. A name without a file is read as an empty file.
#[derive(Drop)]
pub struct SureShelf {
    files: FileMap,
    calls: u64,
}

impl SureShelf {
    ghost use Rattle.xsearch_words.specs.SureShelf.{files_of, state_of};

    /// A shelf without files.
    pub fn new(alloc: Global) -> SureShelf
        ensures { files_of result ≡ no_files }
    {
        SureShelf {
            files: FileMap::new(alloc),
            calls: 0,
        }
    }

    /// Makes the file of a name hold these bytes. After a refusal the files are as before.
    pub fn set(&mut self, name: Text, bytes: List<u8>) -> Result<(), OutOfMemory>
        ensures ok { OnOk result (files_of self.new ≡ with_file name bytes (files_of self.old)) }
        ensures err { OnErr result (files_of self.new ≡ files_of self.old) }
        ensures calls { (state_of self.new).calls ≡ (state_of self.old).calls }
    {
        self.files.set(name, bytes)
    }

    /// The bytes of the file of a name, or None where the name has no file.
    pub fn file(&self, name: &Text) -> Option<&[u8]>
        ensures { option_copied result ≡ files_of self.now name.now }
    {
        self.files.file(name)
    }
}

impl Shelf for SureShelf {
    ghost use Rattle.xsearch_words.specs.SureShelf.{state_of};

    ghost state = { state_of };

    fn read(&mut self, alloc: Global, name: &Text, most: u64) -> Result<List<u8>, ShelfError> {
        self.calls = self.calls.saturating_add(1);
        match self.files.file(name) {
            Some(bytes) => copy_file(alloc, bytes, most),
            None => Ok(List::new(alloc)),
        }
    }

    fn write(&mut self, alloc: Global, name: &Text, bytes: &[u8]) -> Result<(), WriteError> {
        self.calls = self.calls.saturating_add(1);
        self.files.write(alloc, name, bytes)?;
        Ok(())
    }
}
