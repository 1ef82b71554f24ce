ghost use Rattle.std.specs.Prelude.{◌≡◌};
ghost use Rattle.mps_read.specs.KindNumbers.{kind_number};
ghost use Rattle.width_admit.specs.KindNumbers.{index_of, kind_of};
ghost use Rattle.xsearch.specs.Endings.{EndsAs, FailsAs, IsPut};
ghost use Rattle.xsearch.specs.Runs.{Ends};
ghost use Rattle.cert_text.specs.Refusals.{kind_number as certificate_kind_number};
ghost use Rattle.xsearch.specs.Refusals.{certificate_refusal as certificate_refusal_of, model_refusal as model_refusal_of, mps_refusal as mps_refusal_of};

use crate::output::{Failure, Output};
use crate::refusal::{certificate_refusal, model_refusal, mps_refusal};
use crate::status::{ExitStatus, exit_code};
use cert_text::CertKind;
use ip_core::OutOfMemory;
use mps_read::MpsKind;
use std::alloc::Global;
use width_admit::Refusal;
use xsearch_words::{Sink, WriteError};

/// Puts what a command came to, and answers the exit status.
pub fn finish<O: Sink>(alloc: Global, ended: Result<Output, Failure>, out: &mut O) -> u8
    ensures { Ends (λ e. e ≡ ended) (O.state out.old) (O.state out.new) result }
{
    exit_code(report(alloc, ended, out))
}

/// Puts what a command came to: its text, one refusal line, or nothing.
fn report<O: Sink>(alloc: Global, ended: Result<Output, Failure>, out: &mut O) -> ExitStatus
    ensures { EndsAs ended (O.state out.old) (O.state out.new) result }
{
    match ended {
        Ok(output) => put(alloc, out, output.text.as_slice(), output.exit),
        Err(failure) => report_failure(alloc, failure, out),
    }
}

fn report_failure<O: Sink>(alloc: Global, failure: Failure, out: &mut O) -> ExitStatus
    ensures { FailsAs failure (O.state out.old) (O.state out.new) result }
{
    match failure {
        Failure::Words => put(alloc, out, b"refused words\n", ExitStatus::RefusedWords),
        Failure::Length => put(alloc, out, b"refused length\n", ExitStatus::RefusedInput),
        Failure::Mps { line, kind } => put_mps_refusal(alloc, out, line, kind),
        Failure::Model(error) => put_model_refusal(alloc, out, error),
        Failure::Cert { line, kind } => put_certificate_refusal(alloc, out, line, kind),
        Failure::ReadFailed => ExitStatus::ShelfFailed,
        Failure::WriteFailed { .. } => ExitStatus::ShelfFailed,
        Failure::Memory => ExitStatus::NoMemory,
    }
}

fn put_mps_refusal<O: Sink>(alloc: Global, out: &mut O, line: u32, kind: MpsKind) -> ExitStatus
    ensures { IsPut (O.state out.old) (O.state out.new)
        (mps_refusal_of line (kind_number kind)) ExitStatus.RefusedInput result }
{
    match mps_refusal(alloc, line, kind) {
        Ok(text) => put(alloc, out, text.as_slice(), ExitStatus::RefusedInput),
        Err(OutOfMemory) => ExitStatus::NoMemory,
    }
}

fn put_model_refusal<O: Sink>(alloc: Global, out: &mut O, refusal: Refusal) -> ExitStatus
    ensures { IsPut (O.state out.old) (O.state out.new)
        (model_refusal_of (kind_of refusal) (index_of refusal)) ExitStatus.RefusedInput result }
{
    match model_refusal(alloc, refusal) {
        Ok(text) => put(alloc, out, text.as_slice(), ExitStatus::RefusedInput),
        Err(OutOfMemory) => ExitStatus::NoMemory,
    }
}

fn put_certificate_refusal<O: Sink>(
    alloc: Global,
    out: &mut O,
    line: u32,
    kind: CertKind,
) -> ExitStatus
    ensures { IsPut (O.state out.old) (O.state out.new)
        (certificate_refusal_of line (certificate_kind_number kind))
        ExitStatus.RefusedInput result }
{
    match certificate_refusal(alloc, line, kind) {
        Ok(text) => put(alloc, out, text.as_slice(), ExitStatus::RefusedInput),
        Err(OutOfMemory) => ExitStatus::NoMemory,
    }
}

/// Puts a text, and says how the run ends then: with `meant` where it succeeds.
fn put<O: Sink>(alloc: Global, out: &mut O, text: &[u8], meant: ExitStatus) -> ExitStatus
    ensures { IsPut (O.state out.old) (O.state out.new) text.now meant result }
{
    match out.put(alloc, text) {
        Ok(()) => meant,
        Err(WriteError::Failed) => ExitStatus::SinkFailed,
        Err(WriteError::Memory) => ExitStatus::NoMemory,
    }
}
