ghost use Rattle.std.specs.Prelude.{◌≡◌, ◌++◌, codes, IfOk, OnOk};
ghost use Rattle.std.specs.Fmt.{decimal};
ghost use Rattle.mps_read.specs.KindNumbers.{kind_number};
ghost use Rattle.width_admit.specs.KindNumbers.{index_of, kind_of};
ghost use Rattle.cert_text.specs.Refusals.{kind_number as certificate_kind_number};
ghost use Rattle.xsearch.specs.Refusals.{certificate_refusal as certificate_refusal_of, model_refusal as model_refusal_of, mps_refusal as mps_refusal_of};

use cert_text::CertKind;
use ip_core::{OutOfMemory, Text};
use itoa::Buffer;
use mps_read::MpsKind;
use std::alloc::Global;
use width_admit::Refusal;

/// The refusal of a line of a model file.
pub fn mps_refusal(alloc: Global, line: u32, kind: MpsKind) -> Result<Text, OutOfMemory>
    ensures { IfOk result (λ text. text ≡ mps_refusal_of line (kind_number kind)) }
{
    let mut text = Text::new(alloc);
    text.extend(b"refused mps line ")?;
    append_number(&mut text, line)?;
    text.extend(b" kind ")?;
    append_number(&mut text, kind.number())?;
    text.push(b'\n')?;
    Ok(text)
}

/// The refusal of a model that isn't admitted.
pub fn model_refusal(alloc: Global, refusal: Refusal) -> Result<Text, OutOfMemory>
    ensures { IfOk result (λ text. text ≡ model_refusal_of (kind_of refusal) (index_of refusal)) }
{
    let mut text = Text::new(alloc);
    text.extend(b"refused model kind ")?;
    append_number(&mut text, u32::from(refusal.kind()))?;
    text.extend(b" index ")?;
    append_number(&mut text, refusal.index())?;
    text.push(b'\n')?;
    Ok(text)
}

/// The refusal of a line of a certificate.
pub fn certificate_refusal(alloc: Global, line: u32, kind: CertKind) -> Result<Text, OutOfMemory>
    ensures { IfOk result (λ text. text ≡
        certificate_refusal_of line (certificate_kind_number kind)) }
{
    let mut text = Text::new(alloc);
    text.extend(b"refused certificate line ")?;
    append_number(&mut text, line)?;
    text.extend(b" kind ")?;
    append_number(&mut text, kind.number())?;
    text.push(b'\n')?;
    Ok(text)
}

/// Appends a number in decimal digits.
pub fn append_number(text: &mut Text, number: u32) -> Result<(), OutOfMemory>
    ensures { OnOk result (text.new ≡ text.old ++ decimal number) }
{
    text.extend(Buffer::new().format(number).as_bytes())
}
