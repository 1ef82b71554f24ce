ghost use Rattle.std.specs.Prelude.{◌≡◌, [], false, IfOk};
ghost use Rattle.mps_read.specs.Names.{is_long as is_long_name};
ghost use Rattle.mps_lines.specs.FieldWords.{IsField};

use ip_core::{MAX_NAME, Name, OutOfMemory, Text};
use std::alloc::Global;

/// Whether a name has too many bytes.
pub fn is_long(name: &[u8]) -> bool
    ensures { result ≡ is_long_name name.now }
{
    name.len() > MAX_NAME
}

/// The name of no byte.
pub fn empty_name(alloc: Global) -> Name
    ensures { result ≡ [] }
{
    match Name::of(Text::new(alloc)) {
        Some(name) => name,
        None => unreachable!(),
    }
}

/// A field as a name, which it is where it isn't too long.
pub fn name_of(alloc: Global, field: &[u8]) -> Result<Name, OutOfMemory>
    requires field { IsField field.now }
    requires short { is_long_name field.now ≡ false }
    ensures { IfOk result (λ n. n ≡ field.now) }
{
    let text = Text::of(Vec::from_slice(alloc, field)?);
    match Name::of(text) {
        Some(name) => Ok(name),
        None => unreachable!(),
    }
}
