ghost use Rattle.std.specs.Prelude.{◌≡◌, ◌≤◌, ◌^◌, length, Err, IfOk};
ghost use Rattle.cert_check.specs.Verdicts.{fault_of, verdict_of};
ghost use Rattle.tree_cert.specs.Trees.{IsTree};
ghost use Rattle.width_admit.specs.Admission.{IsCause};
ghost use Rattle.xsearch.specs.CertificateFiles.{IsCertificateFailure, IsCertificateFile};
ghost use Rattle.xsearch.specs.Checks.{IsChecked, IsCheckedFile, IsUnchecked, told as told_of, verdict_exit as verdict_exit_of};
ghost use Rattle.xsearch.specs.FileJobs.{IsFileJob};
ghost use Rattle.xsearch.specs.Refusals.{verdict_text as verdict_text_of};
ghost use Rattle.xsearch.specs.Runs.{Ends};
ghost use Rattle.xsearch_words.specs.Jobs.{IsCheckJob};

use crate::certificate_file::read_certificate;
use crate::model_file::read_model;
use crate::output::{Failure, Output};
use crate::refusal::append_number;
use crate::report::finish;
use crate::status::ExitStatus;
use cert_check::{Verdict, accepted_is_true, check};
use ip_core::{List, Model, OutOfMemory, Text};
use mps_read::MpsModel;
use std::alloc::Global;
use tree_cert::Certificate;
use width_admit::{AdmitError, admit};
use xsearch_words::{CheckJob, Shelf, Sink};

/// Does the command `check`, and answers the exit status: reads the model of a file, admits it, reads
/// the certificate of another file, checks it, and puts what the checker says, or the one refusal
/// line. Columns without a high get `default_upper`, where it is given.
///
/// The status is 0 where the certificate is accepted and 9 where it is rejected, 5 where a file is too
/// long, a line of it is refused or the model isn't admitted, 6 where a read failed, 7 where the put
/// failed, and 8 where memory could not be had.
pub fn check_command<S: Shelf, O: Sink>(
    alloc: Global,
    job: &CheckJob,
    shelf: &mut S,
    out: &mut O,
) -> u8
    requires { IsCheckJob job.now }
    ensures { Ends (IsCheckedFile job.now (S.state shelf.old) (S.state shelf.new))
        (O.state out.old) (O.state out.new) result }
{
    let found = check_file(alloc, job, shelf);
    finish(alloc, found, out)
}

/// Checks the certificate of a file against the model of another: what is told of it, or why nothing
/// is.
fn check_file<S: Shelf>(alloc: Global, job: &CheckJob, shelf: &mut S) -> Result<Output, Failure>
    ensures { IsCheckedFile job.now (S.state shelf.old) (S.state shelf.new) result }
{
    let mps = match read_model(alloc, &job.model, shelf) {
        Ok(mps) => mps,
        Err(failure) => return Err(failure),
    };
    match admit(alloc, &mps, job.default_upper) {
        Ok(model) => check_certificate(alloc, &model, &job.cert, shelf),
        Err(error) => refuse(&mps, job.default_upper, error),
    }
}

/// What becomes of a model that isn't admitted.
fn refuse(mps: &MpsModel, upper: Option<u32>, error: AdmitError) -> Result<Output, Failure>
    requires { IsCause mps.now upper error }
    ensures { IsUnchecked upper mps.now result }
{
    match error.refusal() {
        Some(refusal) => Err(Failure::Model(refusal)),
        None => Err(Failure::Memory),
    }
}

/// Checks the certificate of a file against a model.
#[tactic(auto, using(crate::proofs::Running::of_certificate, crate::proofs::Running::of_no_certificate))]
fn check_certificate<S: Shelf>(
    alloc: Global,
    model: &Model,
    name: &Text,
    shelf: &mut S,
) -> Result<Output, Failure>
    ensures { IsFileJob IsCertificateFile IsCertificateFailure (IsChecked model.now)
        (S.state shelf.old) (S.state shelf.new) name.now result }
{
    match read_certificate(alloc, name, shelf) {
        Ok(certificate) => judge(alloc, model, &certificate),
        Err(failure) => Err(failure),
    }
}

/// What is told of a certificate of a model.
fn judge(alloc: Global, model: &Model, certificate: &Certificate) -> Result<Output, Failure>
    requires tree { IsTree certificate.now.nodes }
    requires few_cuts { length certificate.now.cuts ≤ 2 ^ 30 }
    requires few_nodes { length certificate.now.nodes ≤ 2 ^ 30 }
    ensures { IsChecked model.now certificate.now result }
{
    let _limits = model.parts();
    accepted_is_true();
    match told(alloc, model, certificate) {
        Ok(output) => Ok(output),
        Err(OutOfMemory) => Err(Failure::Memory),
    }
}

/// The checker's verdict of a certificate of a model, as it is put.
fn told(alloc: Global, model: &Model, certificate: &Certificate) -> Result<Output, OutOfMemory>
    requires tree { IsTree certificate.now.nodes }
    requires few_cuts { length certificate.now.cuts ≤ 2 ^ 30 }
    requires few_nodes { length certificate.now.nodes ≤ 2 ^ 30 }
    ensures { IfOk result (λ output. output ≡
        told_of (verdict_of (fault_of model.now certificate.now))) }
{
    let verdict = check(alloc, model, certificate)?;
    Ok(Output {
        files: List::new(alloc),
        text: verdict_text(alloc, verdict)?,
        exit: verdict_exit(verdict),
    })
}

/// The line of a verdict.
fn verdict_text(alloc: Global, verdict: Verdict) -> Result<Text, OutOfMemory>
    ensures { IfOk result (λ text. text ≡ verdict_text_of verdict) }
{
    let mut text = Text::new(alloc);
    match verdict {
        Verdict::Accepted => text.extend(b"accepted\n")?,
        Verdict::Rejected { line, why } => {
            text.extend(b"rejected line ")?;
            append_number(&mut text, line)?;
            text.extend(b" reason ")?;
            append_number(&mut text, why.number())?;
            text.push(b'\n')?;
        }
    }
    Ok(text)
}

/// How a run ends that tells a verdict.
fn verdict_exit(verdict: Verdict) -> ExitStatus
    ensures { result ≡ verdict_exit_of verdict }
{
    match verdict {
        Verdict::Accepted => ExitStatus::Done,
        Verdict::Rejected { .. } => ExitStatus::Rejected,
    }
}
