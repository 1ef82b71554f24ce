ghost use Rattle.std.specs.Prelude.{◌≡◌, ◌<◌, ◌≤◌, length, IfOk, OnOk, OnErr, IsErrOf};
ghost use Rattle.std.specs.Option.{option_copied};

use crate::ShelfError;
use ip_core::{List, OutOfMemory, Text};
use std::alloc::Global;
use std::collections::BTreeMap;

/// The bytes of files by their names.
#[derive(Drop)]
pub(crate) struct FileMap {
    files: BTreeMap<Vec<u8>, List<u8>>,
}

impl FileMap {
    ghost use Rattle.xsearch_words.specs.Files.{files_in, no_files, with_file};

    /// No files.
    pub(crate) fn new(alloc: Global) -> FileMap
        ensures { files_in result ≡ no_files }
    {
        FileMap {
            files: BTreeMap::new(alloc),
        }
    }

    /// Makes the file of a name hold these bytes. After a refusal the files are as before.
    pub(crate) fn set(&mut self, name: Text, bytes: List<u8>) -> Result<(), OutOfMemory>
        ensures ok { OnOk result (files_in self.new ≡ with_file name bytes (files_in self.old)) }
        ensures err { OnErr result (files_in self.new ≡ files_in self.old) }
    {
        self.files.insert(name.into_vec(), bytes)?;
        Ok(())
    }

    /// The same of copies.
    pub(crate) fn write(
        &mut self,
        alloc: Global,
        name: &Text,
        bytes: &[u8],
    ) -> Result<(), OutOfMemory>
        ensures ok { OnOk result
            (files_in self.new ≡ with_file name.now bytes.now (files_in self.old)) }
        ensures err { OnErr result (files_in self.new ≡ files_in self.old) }
    {
        let name = name.copy(alloc)?;
        let bytes = copy_bytes(alloc, bytes)?;
        self.set(name, bytes)
    }

    /// The bytes of the file of a name, or None where the name has no file.
    pub(crate) fn file(&self, name: &Text) -> Option<&[u8]>
        ensures { option_copied result ≡ files_in self.now name.now }
    {
        let bytes = self.files.get(name.as_slice())?;
        Some(bytes.as_slice())
    }
}

/// A copy of the bytes of a file, which are to be at most `most`.
pub(crate) fn copy_file(alloc: Global, bytes: &[u8], most: u64) -> Result<List<u8>, ShelfError>
    ensures short { OnOk result (length bytes.now ≤ most) }
    ensures same { IfOk result (λ copy. copy ≡ bytes.now) }
    ensures too_long { IsErrOf result ShelfError.TooLong → most < length bytes.now }
    ensures reads { IsErrOf result ShelfError.Failed → ⊥ }
{
    if bytes.len() as u64 > most {
        return Err(ShelfError::TooLong);
    }
    Ok(copy_bytes(alloc, bytes)?)
}

fn copy_bytes(alloc: Global, bytes: &[u8]) -> Result<List<u8>, OutOfMemory>
    ensures { IfOk result (λ copy. copy ≡ bytes.now) }
{
    Ok(List::of(Vec::from_slice(alloc, bytes)?))
}
