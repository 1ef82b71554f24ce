ghost use Rattle.std.specs.Prelude.{◌≡◌, ◌≤◌, ◌^◌, length, IfOk};
ghost use Rattle.mps_model.specs.MpsModels.{IsMpsModel};

use crate::{generate, samples_are_admitted};
use ip_core::OutOfMemory;
use mps_model::{MpsModel, canonical_text};
use std::alloc::Global;
use std::test::Fail;
use width_admit::admit;

/// The place from which on the text has this part, or its length where it doesn't have it.
fn place_of(text: &[u8], part: &[u8]) -> usize {
    for at in 0..text.len() {
        if text[at..].starts_with(part) {
            return at;
        }
    }
    text.len()
}

/// Whether the text of the sample model of a number has this part.
fn prints(alloc: Global, number: u64, part: &[u8]) -> Result<bool, OutOfMemory> {
    let mps = generate(alloc, number)?;
    let text = canonical_text(alloc, &mps)?;
    Ok(place_of(text.as_slice(), part) < text.len())
}

/// A checksum of a text that a change of any one byte changes.
fn checksum(text: &[u8]) -> u64 {
    let mut sum: u64 = 0;
    for byte in text {
        sum = sum
            .wrapping_mul(1_099_511_628_211)
            .wrapping_add(u64::from(*byte));
    }
    sum
}

/// Whether the text of the sample model of a number has so many bytes and this checksum.
fn has_text(alloc: Global, number: u64, len: usize, sum: u64) -> Result<bool, OutOfMemory> {
    let mps = generate(alloc, number)?;
    let text = canonical_text(alloc, &mps)?;
    Ok(text.len() == len && checksum(text.as_slice()) == sum)
}

/// Whether a model is admitted with so many rows and columns.
fn is_admitted(alloc: Global, mps: &MpsModel, rows: usize, cols: usize) -> Result<bool, OutOfMemory>
    requires file { IsMpsModel mps.now }
    requires few_rows { length mps.now.rows ≤ 2 ^ 30 }
    requires few_columns { length mps.now.cols ≤ 2 ^ 30 }
{
    match admit(alloc, mps, None) {
        Ok(model) => Ok(model.parts().rows.len() == rows && model.parts().cols.len() == cols),
        Err(_) => Ok(false),
    }
}

#[test]
fn prints_the_first_upper_bound(rt: HostRuntime) -> Result<(), Fail> {
    assert!(rt; prints(rt.alloc(), 1, b"\nBOUNDS\n UP BND C0 3\n")?);
    Ok(())
}

/// Length and checksum come from another program, in another language, that was written from the rule alone.
#[test]
fn prints_the_whole_model(rt: HostRuntime) -> Result<(), Fail> {
    assert!(rt; has_text(rt.alloc(), 1, 140_876, 10_446_761_780_550_025_749)?);
    Ok(())
}

#[test]
fn prints_the_model_of_the_greatest_number(rt: HostRuntime) -> Result<(), Fail> {
    assert!(rt; has_text(rt.alloc(), u64::MAX, 140_087, 4_015_353_147_514_776_414)?);
    Ok(())
}

#[test]
fn is_admitted_as_it_stands(rt: HostRuntime) -> Result<(), Fail> {
    let mps = generate(rt.alloc(), 1)?;
    assert!(rt; is_admitted(rt.alloc(), &mps, 100, 400)?);
    samples_are_admitted();
    Ok(())
}
