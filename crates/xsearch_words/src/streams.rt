//! Reading to the end, and writing out, over any reader and any writer.
ghost use Rattle.std.specs.Prelude.{◌≡◌, ◌<◌, ◌≤◌, length, IfOk, IfSome, IsErr, IsErrOf, OnErr, OnOk};
ghost use Rattle.std.specs.Io.KnownBytes.{Appends};
ghost use Rattle.xsearch_words.specs.Streams.{AppendsFront};

use crate::{ShelfError, WriteError};
use ip_core::List;
use std::alloc::Global;
use std::io;
use std::io::{ErrorKind, Read, Write};

/// Reads what was opened. What could not be opened is a failure.
pub(crate) fn read_opened<F: Read + Drop>(
    opened: io::Result<F>,
    alloc: Global,
    most: u64,
) -> Result<List<u8>, ShelfError>
    ensures short { IfOk result (λ bytes. length bytes ≤ most) }
    ensures unopened { IsErr opened → IsErrOf result ShelfError.Failed }
{
    match opened {
        Ok(file) => read_to_end(file, alloc, most),
        Err(_unopened) => Err(ShelfError::Failed),
    }
}

/// Reads all bytes that a reader gives up to its end, which are to be at most `most`.
///
/// # Errors
/// `Failed` on an error of the reader, whatever it gave before; `TooLong` where it gave more than
/// `most` bytes.
pub(crate) fn read_to_end<F: Read + Drop>(
    file: F,
    alloc: Global,
    most: u64,
) -> Result<List<u8>, ShelfError>
    ensures short { IfOk result (λ bytes. length bytes ≤ most) }
    ensures whole { IfOk result (λ bytes. IfSome (F.remaining file) (λ left. bytes ≡ left)) }
    ensures too_long { IsErrOf result ShelfError.TooLong →
        IfSome (F.remaining file) (λ left. most < length left) }
{
    let mut bytes = Vec::new(alloc);

    // One byte more than may be there tells a longer file.
    match file.take(most.saturating_add(1)).read_to_end(&mut bytes) {
        Ok(_) if bytes.len() as u64 <= most => Ok(List::of(bytes)),
        Ok(_) => Err(ShelfError::TooLong),
        Err(error) if error.kind() == ErrorKind::OutOfMemory => Err(ShelfError::Memory),
        Err(_) => Err(ShelfError::Failed),
    }
}

/// Writes bytes to what was opened, and gives it back. What could not be opened is a failure.
pub(crate) fn write_opened<F: Write + Drop>(
    opened: io::Result<F>,
    bytes: &[u8],
) -> Result<F, WriteError>
    ensures whole { IfOk opened (λ file. IfOk result (λ written.
        Appends (F.contents file) (F.contents written) bytes.now)) }
    ensures unopened { IsErr opened → IsErrOf result WriteError.Failed }
    ensures memory { ¬ IsErrOf result WriteError.Memory }
{
    let Ok(mut file) = opened else {
        return Err(WriteError::Failed);
    };
    match write_out(&mut file, bytes) {
        Ok(()) => Ok(file),
        Err(error) => Err(error),
    }
}

/// Writes bytes in as many pieces as the writer takes.
///
/// # Errors
/// `Failed` on an error of the writer, and where it takes no byte of a piece. A front of the bytes
/// is then written.
pub(crate) fn write_out<W: Write>(writer: &mut W, bytes: &[u8]) -> Result<(), WriteError>
    ensures whole { OnOk result
        (Appends (W.contents writer.old) (W.contents writer.new) bytes.now) }
    ensures front { OnErr result
        (AppendsFront (W.contents writer.old) (W.contents writer.new) bytes.now) }
    ensures memory { ¬ IsErrOf result WriteError.Memory }
{
    let mut rest = bytes;
    while !rest.is_empty() {
        let Ok(count) = writer.write(rest) else {
            return Err(WriteError::Failed);
        };
        if count == 0 {
            return Err(WriteError::Failed);
        }
        rest = &rest[count..];
    }
    Ok(())
}
