ghost use Rattle.std.specs.Prelude.{map};
ghost use Rattle.std.specs.String.{string_bytes};
ghost use Rattle.xsearch.specs.AcceptedFiles.{IsAcceptedIfAsked, IsAcceptedIfSolved};
ghost use Rattle.xsearch.specs.Causes.{IsCaused, IsCausedBy};
ghost use Rattle.xsearch.specs.Runs.{Ends};
ghost use Rattle.xsearch_words.specs.Jobs.{IsJob};

use crate::check::check_command;
use crate::generate::gen_command;
use crate::output::Failure;
use crate::report::finish;
use crate::sample::sample_command;
use crate::show::show_command;
use crate::solve::{solve_alone, solve_command};
use std::alloc::Global;
use std::sync::Wait;
use std::thread::Threads;
use task_crew::Gate;
use xsearch_words::{Job, JobError, Shelf, Sink, settings};

/// Does the one command that the words ask for, and answers the exit status.
///
/// `solve MODEL` and `alone MODEL` read the model file MODEL from the shelf, admit it, search it,
/// write the certificate of a finished search to the file NAME of `--cert=NAME` and the log to that
/// of `--log=NAME`, where these are given, and put the answer on the sink. `alone` searches on the
/// calling thread, `solve` and `sample` on so many threads as `--threads=N` sets, whose workers
/// pass the gate before each turn of a slot. `--tasks=N` sets the number of slots, `--work=N` and
/// `--store=N` their limits, `--cuts=yes|no` whether cuts are derived and `--heuristics=yes|no`
/// whether the search dives for points, both of which it does without them, and `--default-upper=N`
/// the upper bound of columns that have none. `check MODEL CERT` reads the model file, admits it,
/// reads the certificate file CERT and puts whether the checker accepts it. `show MODEL` puts the
/// canonical text of the file's model, and `gen NUMBER` that of a sample model. `sample NUMBER`
/// searches this model by the settings that it is given, reads and writes no file, and puts one
/// line that sums the search up.
///
/// The status is 0 where an optimal or infeasible answer or the summary of one, an acceptance or a
/// canonical text went out, 2 where the words ask nothing, 3 and 4 where the limit on work or the
/// store ended the search, 5 where a file is too long, a line of it isn't allowed or its model
/// isn't admitted, 6 where a read or a write failed, 7 where the put failed, 8 where memory could
/// not be had, and 9 where the certificate is rejected.
///
/// A text goes out by one put, after all files are written. After 6 and 8 nothing has gone out and
/// some first files are written, after 6 perhaps the next in part; after 7 all are, and a front of
/// the text has gone out. No other file is changed. Neither the number of threads nor the gate
/// makes a difference to what is put and written. After 0 the bytes of the file of `--cert=NAME`
/// are read as a certificate that the checker accepts for the admitted model.
///
/// The call may wait, so all this holds if it returns. `solve_alone`, `check_command`,
/// `show_command` and `gen_command`, by which it does `alone`, `check`, `show` and `gen`, are
/// proved to return.
pub fn run<S: Shelf, O: Sink, G: Gate + Sync, R: Threads + Wait + Sync>(
    rt: &R,
    alloc: Global,
    words: &[String],
    shelf: &mut S,
    out: &mut O,
    gate: &G,
) -> u8
    ensures cause { Ends
        (IsCaused (map string_bytes words.now) (S.state shelf.old) (S.state shelf.new))
        (O.state out.old) (O.state out.new) result }
    ensures accepted { IsAcceptedIfAsked (map string_bytes words.now) (S.state shelf.old)
        (S.state shelf.new) result }
{
    match settings(alloc, words) {
        Ok(job) => run_job(rt, alloc, &job, shelf, out, gate),
        Err(JobError::Words) => finish(alloc, Err(Failure::Words), out),
        Err(JobError::Memory) => finish(alloc, Err(Failure::Memory), out),
    }
}

fn run_job<S: Shelf, O: Sink, G: Gate + Sync, R: Threads + Wait + Sync>(
    rt: &R,
    alloc: Global,
    job: &Job,
    shelf: &mut S,
    out: &mut O,
    gate: &G,
) -> u8
    requires { IsJob job.now }
    ensures cause { Ends (IsCausedBy job.now (S.state shelf.old) (S.state shelf.new))
        (O.state out.old) (O.state out.new) result }
    ensures accepted { IsAcceptedIfSolved job.now (S.state shelf.old) (S.state shelf.new) result }
{
    match job {
        Job::Solve(job) => solve_command(rt, alloc, job, shelf, out, gate),
        Job::Alone(job) => solve_alone(alloc, job, shelf, out),
        Job::Check(job) => check_command(alloc, job, shelf, out),
        Job::Show(model) => show_command(alloc, model, shelf, out),
        Job::Gen(number) => gen_command(alloc, *number, out),
        Job::Sample(job) => sample_command(rt, alloc, job, out, gate),
    }
}
