ghost use Rattle.std.specs.Prelude.{◌≡◌, ◌<◌, ◌≤◌, None, IfOk};
ghost use Rattle.mps_model.specs.MpsModels.{IsMpsModel};
ghost use Rattle.sample_model.specs.Samples.{generated_model};
ghost use Rattle.stamp_machine.specs.Limits.{AreLimits};
ghost use Rattle.width_admit.specs.Admission.{IsCause, refusal as refusal_of_model};
ghost use Rattle.xsearch.specs.ModelFiles.{IsSmall};
ghost use Rattle.xsearch.specs.Runs.{Ends};
ghost use Rattle.xsearch.specs.SampleAnswers.{IsSampled, IsSummary};
ghost use Rattle.xsearch.specs.Searches.{CanPlay, IsPlayed, PlaysMachine, machine_answer};
ghost use Rattle.xsearch_words.specs.Jobs.{IsSampleJob};
ghost use Rattle.xsearch_words.specs.Tunes.{IsTune};

use crate::output::{Failure, Output};
use crate::report::finish;
use crate::search::search_model;
use crate::status::exit_status;
use crate::summary::summary_text;
use ip_core::{List, Model, OutOfMemory};
use mps_model::MpsModel;
use sample_model::{generate, samples_are_admitted};
use stamp_machine::{History, Limits};
use std::alloc::Global;
use std::sync::Wait;
use std::thread::Threads;
use task_crew::{Gate, run_crew};
use task_steps::Search;
use width_admit::{AdmitError, admit};
use xsearch_words::{SampleJob, Sink};

/// Does the command `sample`, and answers the exit status: searches the sample model of a number as
/// `solve` does, on the job's number of threads and with a gate before each turn of a slot, and puts
/// one line that sums the search up. No file is read or written. The command waits for its threads.
///
/// The status is 0 where the answer is optimal or infeasible, 3 and 4 where the limit on work or the
/// store ended the search, 7 where the put failed, and 8 where memory could not be had.
pub fn sample_command<O: Sink, G: Gate + Sync, R: Threads + Wait + Sync>(
    rt: &R,
    alloc: Global,
    job: &SampleJob,
    out: &mut O,
    gate: &G,
) -> u8
    requires { IsSampleJob job.now }
    ensures { Ends (IsSampled job.now (generated_model job.now.number))
        (O.state out.old) (O.state out.new) result }
{
    let threads = job.threads;
    let play = |search: Search, limits: Limits| -> Result<(Search, History), OutOfMemory>
        requires { AreLimits limits × (0 < threads) × (threads ≤ 64) }
        ensures { IfOk result (IsPlayed search limits) }
    {
        let history = run_crew(rt, alloc, &search, &limits, threads, gate)?;
        Ok((search, history))
    };
    let found = sample(alloc, job, &play);
    finish(alloc, found, out)
}

fn sample<F: Fn(Search, Limits) -> Result<(Search, History), OutOfMemory>>(
    alloc: Global,
    job: &SampleJob,
    play: &F,
) -> Result<Output, Failure>
    requires tune { IsTune job.now.tune }
    requires can { CanPlay (F.pre play.now) }
    requires plays { PlaysMachine (F.post play.now) }
    ensures { IsSampled job.now (generated_model job.now.number) result }
{
    samples_are_admitted();
    match generate(alloc, job.number) {
        Ok(mps) => search_sample(alloc, &mps, job, play),
        Err(OutOfMemory) => Err(Failure::Memory),
    }
}

/// Searches a sample model, which is one that is admitted.
fn search_sample<F: Fn(Search, Limits) -> Result<(Search, History), OutOfMemory>>(
    alloc: Global,
    mps: &MpsModel,
    job: &SampleJob,
    play: &F,
) -> Result<Output, Failure>
    requires kept { IsMpsModel mps.now }
    requires small { IsSmall mps.now }
    requires admitted { refusal_of_model mps.now None ≡ None }
    requires tune { IsTune job.now.tune }
    requires can { CanPlay (F.pre play.now) }
    requires plays { PlaysMachine (F.post play.now) }
    ensures { IsSampled job.now mps.now result }
{
    match admit(alloc, mps, None) {
        Ok(model) => match summary(alloc, model, job, play) {
            Ok(output) => Ok(output),
            Err(OutOfMemory) => Err(Failure::Memory),
        },
        Err(error) => Err(failure_of(mps, error)),
    }
}

/// What becomes of a sample model that admission gives no model for: there was no memory.
fn failure_of(mps: &MpsModel, error: AdmitError) -> Failure
    requires admitted { refusal_of_model mps.now None ≡ None }
    requires cause { IsCause mps.now None error }
    ensures { result ≡ Failure.Memory }
{
    match error.refusal() {
        Some(refusal) => Failure::Model(refusal),
        None => Failure::Memory,
    }
}

/// Searches a model, and makes the line that sums the search up.
fn summary<F: Fn(Search, Limits) -> Result<(Search, History), OutOfMemory>>(
    alloc: Global,
    model: Model,
    job: &SampleJob,
    play: &F,
) -> Result<Output, OutOfMemory>
    requires tune { IsTune job.now.tune }
    requires can { CanPlay (F.pre play.now) }
    requires plays { PlaysMachine (F.post play.now) }
    ensures { IfOk result (λ output.
        IsSummary job.now model (machine_answer model job.now.tune) output) }
{
    let ended = search_model(alloc, model, &job.tune, play)?;
    let entries = ended.history.entries.len() as u64;
    let text = summary_text(
        alloc,
        job.number,
        ended.search.model(),
        &ended.answer,
        entries,
    )?;
    Ok(Output {
        files: List::new(alloc),
        text,
        exit: exit_status(ended.answer.status),
    })
}
