ghost use Rattle.std.specs.Prelude.{◌≡◌, ◌++◌, ◌<◌, ◌≤◌, IfOk, OnOk};
ghost use Rattle.ip_core.specs.declared.model.ModelParts.{ModelParts};
ghost use Rattle.mps_model.specs.MpsModels.{IsMpsModel};
ghost use Rattle.stamp_machine.specs.Limits.{AreLimits};
ghost use Rattle.task_steps.specs.Truth.{IsHistory};
ghost use Rattle.tree_build.specs.Certificates.{proof_of};
ghost use Rattle.width_admit.specs.Admission.{IsCause};
ghost use Rattle.xsearch.specs.Causes.{IsAnswer, IsSolved, IsSolvedFile};
ghost use Rattle.xsearch.specs.FileJobs.{IsFileJob};
ghost use Rattle.xsearch.specs.ModelFiles.{IsModelFailure, IsModelFile, IsSmall};
ghost use Rattle.xsearch.specs.Runs.{Ends};
ghost use Rattle.xsearch.specs.Searches.{CanPlay, IsPlayed, PlaysMachine, machine_answer};
ghost use Rattle.xsearch.specs.Writes.{certificate_file, log_file, solve_files as solve_files_of};
ghost use Rattle.xsearch_words.specs.Jobs.{IsSolveJob};
ghost use Rattle.xsearch_words.specs.Tunes.{IsTune};

use crate::answer::{answer_text, status_word};
use crate::files::write_files;
use crate::model_file::read_model;
use crate::output::{Failure, Output};
use crate::report::finish;
use crate::search::{limits_of, search_model, settings_of};
use crate::status::exit_status;
use cert_text::print;
use ip_core::{List, Model, OutOfMemory, Text};
use log_text::log_text;
use mps_read::MpsModel;
use stamp_machine::{History, Limits, run_alone};
use std::alloc::Global;
use std::sync::Wait;
use std::thread::Threads;
use task_crew::{Gate, run_crew};
use task_steps::{Answer, Search, Status};
use tree_build::build;
use width_admit::{AdmitError, admit};
use xsearch_words::{OutputFile, Shelf, Sink, SolveJob};

/// Does the command `solve`, and answers the exit status: reads and admits the model of a file,
/// searches it on the job's number of threads, writes certificate and log, and puts the answer, or the
/// one refusal line. A worker passes the gate before each turn of a slot. The command waits for its
/// threads, so what is said here holds if it returns. What it finds depends neither on the number of
/// threads nor on the gate.
///
/// The status is 0 where the answer is optimal or infeasible, and else 3 to 8 as `run` says. The files
/// are whole after 0, 3, 4 and 7; after 6 and 8 some first ones are, and after 6 the next in part.
pub fn solve_command<S: Shelf, O: Sink, G: Gate + Sync, R: Threads + Wait + Sync>(
    rt: &R,
    alloc: Global,
    job: &SolveJob,
    shelf: &mut S,
    out: &mut O,
    gate: &G,
) -> u8
    requires { IsSolveJob job.now }
    ensures { Ends (IsSolvedFile job.now (S.state shelf.old) (S.state shelf.new))
        (O.state out.old) (O.state out.new) result }
{
    let threads = job.threads;
    let play = |search: Search, limits: Limits| -> Result<(Search, History), OutOfMemory>
        requires { AreLimits limits × (0 < threads) × (threads ≤ 64) }
        ensures { IfOk result (IsPlayed search limits) }
    {
        let history = run_crew(rt, alloc, &search, &limits, threads, gate)?;
        Ok((search, history))
    };
    solve(alloc, job, shelf, out, &play)
}

/// Does the command `alone`: the same on the calling thread, which waits for nobody.
pub fn solve_alone<S: Shelf, O: Sink>(
    alloc: Global,
    job: &SolveJob,
    shelf: &mut S,
    out: &mut O,
) -> u8
    requires { IsSolveJob job.now }
    ensures { Ends (IsSolvedFile job.now (S.state shelf.old) (S.state shelf.new))
        (O.state out.old) (O.state out.new) result }
{
    let play = |search: Search, limits: Limits| -> Result<(Search, History), OutOfMemory>
        requires { AreLimits limits }
        ensures { IfOk result (IsPlayed search limits) }
    {
        let history = run_alone(alloc, &search, &limits)?;
        Ok((search, history))
    };
    solve(alloc, job, shelf, out, &play)
}

/// The same, where the call plays the slots of the search.
fn solve<S: Shelf, O: Sink, F: Fn(Search, Limits) -> Result<(Search, History), OutOfMemory>>(
    alloc: Global,
    job: &SolveJob,
    shelf: &mut S,
    out: &mut O,
    play: &F,
) -> u8
    requires job { IsSolveJob job.now }
    requires can { CanPlay (F.pre play.now) }
    requires plays { PlaysMachine (F.post play.now) }
    ensures { Ends (IsSolvedFile job.now (S.state shelf.old) (S.state shelf.new))
        (O.state out.old) (O.state out.new) result }
{
    let found = solve_file(alloc, job, shelf, play);
    let ended = write_files(alloc, found, shelf);
    finish(alloc, ended, out)
}

/// Solves the model of a file: its answer, or why there is none.
#[tactic(auto, using(crate::proofs::Running::of_model, crate::proofs::Running::of_no_model))]
fn solve_file<S: Shelf, F: Fn(Search, Limits) -> Result<(Search, History), OutOfMemory>>(
    alloc: Global,
    job: &SolveJob,
    shelf: &mut S,
    play: &F,
) -> Result<Output, Failure>
    requires tune { IsTune job.now.tune }
    requires can { CanPlay (F.pre play.now) }
    requires plays { PlaysMachine (F.post play.now) }
    ensures { IsFileJob IsModelFile IsModelFailure (IsSolved job.now)
        (S.state shelf.old) (S.state shelf.new) job.now.model result }
{
    match read_model(alloc, &job.model, shelf) {
        Ok(mps) => solve_model(alloc, &mps, job, play),
        Err(failure) => Err(failure),
    }
}

fn solve_model<F: Fn(Search, Limits) -> Result<(Search, History), OutOfMemory>>(
    alloc: Global,
    mps: &MpsModel,
    job: &SolveJob,
    play: &F,
) -> Result<Output, Failure>
    requires kept { IsMpsModel mps.now }
    requires small { IsSmall mps.now }
    requires tune { IsTune job.now.tune }
    requires can { CanPlay (F.pre play.now) }
    requires plays { PlaysMachine (F.post play.now) }
    ensures { IsSolved job.now mps.now result }
{
    match admit(alloc, mps, job.default_upper) {
        Ok(model) => match answer(alloc, model, job, play) {
            Ok(output) => Ok(output),
            Err(OutOfMemory) => Err(Failure::Memory),
        },
        Err(error) => refuse(mps, job, error),
    }
}

/// What becomes of a model that isn't admitted.
fn refuse(mps: &MpsModel, job: &SolveJob, error: AdmitError) -> Result<Output, Failure>
    requires { IsCause mps.now job.now.default_upper error }
    ensures { IsSolved job.now mps.now result }
{
    match error.refusal() {
        Some(refusal) => Err(Failure::Model(refusal)),
        None => Err(Failure::Memory),
    }
}

/// Searches the model, and makes the text and the files of the search.
fn answer<F: Fn(Search, Limits) -> Result<(Search, History), OutOfMemory>>(
    alloc: Global,
    model: Model,
    job: &SolveJob,
    play: &F,
) -> Result<Output, OutOfMemory>
    requires tune { IsTune job.now.tune }
    requires can { CanPlay (F.pre play.now) }
    requires plays { PlaysMachine (F.post play.now) }
    ensures { IfOk result (λ output.
        IsAnswer model job.now (machine_answer model job.now.tune) output) }
{
    let ended = search_model(alloc, model, &job.tune, play)?;
    let text = answer_text(alloc, ended.search.model(), &ended.answer)?;
    let files = solve_files(
        alloc,
        job,
        ended.search.model(),
        &ended.history,
        &ended.answer,
    )?;
    Ok(Output {
        files,
        text,
        exit: exit_status(ended.answer.status),
    })
}

/// The files that are asked for, in their order: the certificate of a finished search, and the log.
fn solve_files(
    alloc: Global,
    job: &SolveJob,
    model: &Model,
    history: &History,
    answer: &Answer,
) -> Result<List<OutputFile>, OutOfMemory>
    requires tune { IsTune job.now.tune }
    requires history { IsHistory model.now history.now.entries }
    ensures { IfOk result (λ files. files ≡
        solve_files_of model.now job.now history.now answer.now) }
{
    let mut files = List::new(alloc);
    add_certificate(alloc, &mut files, &job.cert, model, history, answer)?;
    add_log(alloc, &mut files, job, history, answer.status)?;
    Ok(files)
}

/// Adds the file of the certificate, if the search is finished and the file is given a name.
fn add_certificate(
    alloc: Global,
    files: &mut List<OutputFile>,
    name: &Option<Text>,
    model: &Model,
    history: &History,
    answer: &Answer,
) -> Result<(), OutOfMemory>
    requires { IsHistory model.now history.now.entries }
    ensures { OnOk result (files.new ≡ files.old ++ certificate_file name.now
        (proof_of model.now history.now answer.now)) }
{
    let Some(name) = name else {
        return Ok(());
    };
    let Some(certificate) = build(alloc, model, history, answer)? else {
        return Ok(());
    };
    files.push(OutputFile {
        name: name.copy(alloc)?,
        text: print(alloc, &certificate)?,
    })
}

/// Adds the file of the log, if it is given a name.
fn add_log(
    alloc: Global,
    files: &mut List<OutputFile>,
    job: &SolveJob,
    history: &History,
    status: Status,
) -> Result<(), OutOfMemory>
    requires { IsTune job.now.tune }
    ensures { OnOk result (files.new ≡ files.old ++ log_file job.now history.now status) }
{
    let Some(name) = &job.log else {
        return Ok(());
    };
    let limits = limits_of(&job.tune);
    let settings = settings_of(&job.tune);
    files.push(OutputFile {
        name: name.copy(alloc)?,
        text: log_text(alloc, &limits, settings, history, status_word(status))?,
    })
}
