ghost use Rattle.std.specs.Prelude.{◌≡◌, ◌<◌, ◌≤◌, ◌^◌, IfOk};
ghost use Rattle.ip_core.specs.Names.{IsName};
ghost use Rattle.sample_model.specs.Wholes.{numbered_name, whole_decimal};

use ip_core::{Decimal, Name, OutOfMemory, Text};
use itoa::Buffer;
use std::alloc::Global;

/// A whole number as a decimal.
pub fn whole_decimal(number: u64) -> Decimal
    requires { number < 10 ^ 18 }
    ensures { result ≡ whole_decimal number }
{
    match Decimal::read(Buffer::new().format(number).as_bytes()) {
        Ok(decimal) => decimal,
        Err(_) => unreachable!(),
    }
}

/// The bytes of a name as one.
pub fn name(alloc: Global, bytes: &[u8]) -> Result<Name, OutOfMemory>
    requires { IsName bytes.now }
    ensures { IfOk result (λ name. name ≡ bytes.now) }
{
    let text = Text::of(Vec::from_slice(alloc, bytes)?);
    match Name::of(text) {
        Some(name) => Ok(name),
        None => unreachable!(),
    }
}

/// The name of a letter and a number.
pub fn numbered_name(alloc: Global, letter: u8, number: usize) -> Result<Name, OutOfMemory>
    requires low { 33 ≤ letter }
    requires high { letter ≤ 126 }
    ensures { IfOk result (λ name. name ≡ numbered_name letter number) }
{
    let mut text = Text::new(alloc);
    text.push(letter)?;
    text.extend(Buffer::new().format(number).as_bytes())?;
    match Name::of(text) {
        Some(name) => Ok(name),
        None => unreachable!(),
    }
}
