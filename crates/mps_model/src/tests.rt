ghost use Rattle.std.specs.Prelude.{◌≡◌, ◌≤◌, ◌^◌, length, Ok, IfOk};
ghost use Rattle.ip_core.specs.Decimals.{read_decimal};
ghost use Rattle.mps_model.specs.MpsModels.{IsMpsModel};

use crate::{Limit, MpsCol, MpsModel, canonical_text};
use ip_core::{Decimal, List, Name, OutOfMemory, Text};
use std::alloc::Global;
use std::test::Fail;

fn name(alloc: Global, bytes: &[u8]) -> Result<Name, OutOfMemory>
    ensures { IfOk result (λ name. name ≡ bytes.now) }
{
    let text = Text::of(Vec::from_slice(alloc, bytes)?);
    match Name::of(text) {
        Some(name) => Ok(name),
        None => Err(OutOfMemory),
    }
}

fn number(bytes: &[u8]) -> Result<Decimal, OutOfMemory>
    requires { length bytes.now ≤ 2 ^ 30 }
    ensures { IfOk result (λ number. read_decimal bytes.now ≡ Ok number) }
{
    match Decimal::read(bytes) {
        Ok(number) => Ok(number),
        Err(_error) => Err(OutOfMemory),
    }
}

/// One column x of cost 1 in 0 to 1.
fn one_column(alloc: Global) -> Result<MpsModel, OutOfMemory>
    ensures { IfOk result (λ model. IsMpsModel model) }
{
    let mut cols = List::new(alloc);
    cols.push(MpsCol {
        name: name(alloc, b"x")?,
        integer: true,
        cost: number(b"1")?,
        entries: List::new(alloc),
        low: Limit::Unset,
        high: Limit::At(number(b"1")?),
    })?;
    Ok(MpsModel {
        name: name(alloc, b"one")?,
        maximise: false,
        objective: name(alloc, b"c")?,
        constant: Decimal::zero(),
        rows: List::new(alloc),
        cols,
    })
}

#[test]
fn prints_a_model(rt: HostRuntime) -> Result<(), Fail> {
    let alloc = rt.alloc();
    let mps = one_column(alloc)?;
    let text = canonical_text(alloc, &mps)?;
    let expected: &[u8] =
        b"NAME one\nROWS\n N c\nCOLUMNS\n M 'MARKER' 'INTORG'\n x c 1\n M 'MARKER' 'INTEND'\nBOUNDS\n UP BND x 1\nENDATA\n";
    assert!(rt; text.as_slice() == expected);
    Ok(())
}
