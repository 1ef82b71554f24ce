ghost use Rattle.std.specs.Prelude.{◌≡◌, ◌≤◌, ◌^◌, map, IfOk, IfSome, IsTrue, MatchResult};
ghost use Rattle.std.specs.Option.{option_copied};
ghost use Rattle.std.specs.String.{string_bytes};
ghost use Rattle.xsearch_words.specs.Jobs.{IsCheckJob, IsJob, IsJobCause, IsJobOf, IsSampleJob, IsSolveJob, IsThreadCount, check_job as check_job_of, command_job as command_job_of, model_number as model_number_of, sample_job as sample_job_of, solve_job as solve_job_of, threads_in as threads_in_words};
ghost use Rattle.xsearch_words.specs.Forms.{IsOtherName, is_name, name_at as name_at_of, names_differ as names_differ_of, other_name as other_name_of, value as value_of};

use crate::command::{Command, Key};
use crate::form::{has_form, is_name, name_at, value};
use crate::number::{number_between, number_or, optional_number};
use crate::tune::tune_in;
use crate::{JobError, Tune};
use ip_core::{OutOfMemory, Text};
use std::alloc::Global;

/// The number of threads where the words give none.
const DEFAULT_THREADS: u64 = 4;

/// The greatest number of threads.
const MAX_THREADS: u64 = 64;

/// The greatest upper bound of the columns that have none of their own.
const MAX_UPPER: u32 = 2_147_483_648;

/// What the words of the command line ask.
#[derive(Debug, Drop)]
pub enum Job {
    /// To solve a model.
    Solve(SolveJob),
    /// To solve a model on one thread.
    Alone(SolveJob),
    /// To check a certificate of a model.
    Check(CheckJob),
    /// To show the model of the file of this name.
    Show(Text),
    /// To generate the model of this number.
    Gen(u64),
    /// To search the generated model of a number.
    Sample(SampleJob),
}

/// What `solve` or `alone` is asked.
#[derive(Debug, Drop)]
pub struct SolveJob {
    /// The names of the files of the model, of the certificate and of the log. They differ.
    pub model: Text,
    pub cert: Option<Text>,
    pub log: Option<Text>,
    /// How the search is run.
    pub tune: Tune,
    /// The number of threads that search, 1 to 64. `alone` doesn't use it.
    pub threads: u32,
    /// The upper bound of each column that has none of its own, at most 2^31, if one is given.
    pub default_upper: Option<u32>,
}

/// What `check` is asked.
#[derive(Debug, Drop)]
pub struct CheckJob {
    /// The names of the model's file and of the certificate's.
    pub model: Text,
    pub cert: Text,
    /// The upper bound of each column that has none of its own, at most 2^31, if one is given.
    pub default_upper: Option<u32>,
}

/// What `sample` is asked.
#[derive(Clone, Copy, Debug)]
pub struct SampleJob {
    /// The number of the generated model.
    pub number: u64,
    /// How the search is run.
    pub tune: Tune,
    /// The number of threads that search, 1 to 64.
    pub threads: u32,
}

/// What the words of the command line ask, without the program's name.
///
/// The first word is the command, which is one of `solve MODEL` and `alone MODEL`, both with the
/// options `--tasks=N`, `--threads=N`, `--work=N`, `--store=N`, `--cuts=yes|no`,
/// `--heuristics=yes|no`, `--default-upper=N`, `--cert=NAME` and `--log=NAME`, `check MODEL CERT` with
/// the option `--default-upper=N`, `show MODEL`, `gen NUMBER`, and `sample NUMBER` with the first six
/// of the options of `solve`. Each further word is `--key=value` with a key of the command, at most once
/// each, or a name: a word that isn't empty and doesn't begin with `-`. There are exactly as many
/// names as the command has, and options may stand before, between and after them.
///
/// A number is 1 to 20 decimal digits within its range: N of `--tasks` and of `--threads` is 1 to 64,
/// and 4 without it; N of `--work` is at most 10^12, and 200,000,000 without it; N of `--store`, in words for
/// each task, is 64 to 2^22, and without it 2^22 divided by the number of tasks and rounded down;
/// tasks times store is at most 2^22; N of `--default-upper` is at most 2^31; NUMBER is at most
/// 2^64 - 1. Without `--cuts` or `--heuristics` it is yes. The NAMEs of `--cert` and `--log` are
/// names that differ from MODEL and from each other, byte for byte. `Words` is answered exactly
/// where the words ask nothing by these rules, unless memory runs out.
pub fn settings(alloc: Global, words: &[String]) -> Result<Job, JobError>
    ensures answer { MatchResult result (IsJobOf (map string_bytes words.now))
        (IsJobCause (map string_bytes words.now)) }
    ensures kept { IfOk result IsJob }
{
    let [first, words @ ..] = words else {
        return Err(JobError::Words);
    };
    let Some(command) = Command::of(first.as_bytes()) else {
        return Err(JobError::Words);
    };
    if !has_form(command, words) {
        return Err(JobError::Words);
    }
    match command_job(alloc, command, words)? {
        Some(job) => Ok(job),
        None => Err(JobError::Words),
    }
}

/// What words of the command's form ask, or None where one of their values isn't lawful.
fn command_job(
    alloc: Global,
    command: Command,
    words: &[String],
) -> Result<Option<Job>, OutOfMemory>
    ensures value { IfOk result (λ job. job ≡ command_job_of command (map string_bytes words.now)) }
    ensures kept { IfOk result (λ job. IfSome job IsJob) }
{
    Ok(match command {
        Command::Solve => solve_job(alloc, words)?.map(Job::Solve),
        Command::Alone => solve_job(alloc, words)?.map(Job::Alone),
        Command::Check => check_job(alloc, words)?.map(Job::Check),
        Command::Show => file_name(alloc, 0, words)?.map(Job::Show),
        Command::Gen => model_number(words).map(Job::Gen),
        Command::Sample => sample_job(words).map(Job::Sample),
    })
}

fn solve_job(alloc: Global, words: &[String]) -> Result<Option<SolveJob>, OutOfMemory>
    ensures value { IfOk result (λ job. job ≡ solve_job_of (map string_bytes words.now)) }
    ensures kept { IfOk result (λ job. IfSome job IsSolveJob) }
{
    let Some(model) = file_name(alloc, 0, words)? else {
        return Ok(None);
    };
    let Some(cert) = output_name(alloc, model.as_slice(), value(Key::Cert, words))? else {
        return Ok(None);
    };
    let Some(log) = output_name(alloc, model.as_slice(), value(Key::Log, words))? else {
        return Ok(None);
    };
    let Some(tune) = tune_in(words) else {
        return Ok(None);
    };
    let Some(threads) = threads_in(words) else {
        return Ok(None);
    };
    let Some(default_upper) = optional_number(0, MAX_UPPER, value(Key::DefaultUpper, words)) else {
        return Ok(None);
    };
    if !names_differ(&cert, &log) {
        return Ok(None);
    }
    Ok(Some(SolveJob {
        model,
        cert,
        log,
        tune,
        threads,
        default_upper,
    }))
}

fn check_job(alloc: Global, words: &[String]) -> Result<Option<CheckJob>, OutOfMemory>
    ensures value { IfOk result (λ job. job ≡ check_job_of (map string_bytes words.now)) }
    ensures kept { IfOk result (λ job. IfSome job IsCheckJob) }
{
    let Some(model) = file_name(alloc, 0, words)? else {
        return Ok(None);
    };
    let Some(cert) = file_name(alloc, 1, words)? else {
        return Ok(None);
    };
    let Some(default_upper) = optional_number(0, MAX_UPPER, value(Key::DefaultUpper, words)) else {
        return Ok(None);
    };
    Ok(Some(CheckJob {
        model,
        cert,
        default_upper,
    }))
}

/// A copy of the name at a place among the words, counted from 0.
fn file_name(alloc: Global, place: usize, words: &[String]) -> Result<Option<Text>, OutOfMemory>
    ensures value { IfOk result (λ name. name ≡ name_at_of place (map string_bytes words.now)) }
    ensures name { IfOk result (λ name. IfSome name (λ bytes. IsTrue (is_name bytes))) }
{
    let Some(name) = name_at(place, words) else {
        return Ok(None);
    };
    Ok(Some(Text::of(Vec::from_slice(alloc, name)?)))
}

/// A copy of the name of a file to be written, if one is given, or None where it isn't a name or is
/// the model's.
fn output_name(
    alloc: Global,
    model: &[u8],
    given: Option<&[u8]>,
) -> Result<Option<Option<Text>>, OutOfMemory>
    ensures value { IfOk result (λ name. name ≡ other_name_of model.now (option_copied given.entry)) }
    ensures name { IfOk result (λ name. IfSome name (λ name. IfSome name (IsOtherName model.now))) }
{
    let Some(name) = given else {
        return Ok(Some(None));
    };
    if !is_name(name) || name == model {
        return Ok(None);
    }
    Ok(Some(Some(Text::of(Vec::from_slice(alloc, name)?))))
}

/// Whether two names, where both are given, differ.
fn names_differ(first: &Option<Text>, second: &Option<Text>) -> bool
    ensures { result ≡ names_differ_of first.now second.now }
{
    let Some(first) = first else {
        return true;
    };
    let Some(second) = second else {
        return true;
    };
    first.as_slice() != second.as_slice()
}

fn sample_job(words: &[String]) -> Option<SampleJob>
    ensures value { result ≡ sample_job_of (map string_bytes words.now) }
    ensures kept { IfSome result IsSampleJob }
{
    let number = model_number(words)?;
    let tune = tune_in(words)?;
    let threads = threads_in(words)?;
    Some(SampleJob {
        number,
        tune,
        threads,
    })
}

/// How many threads search, or None where the value isn't lawful.
fn threads_in(words: &[String]) -> Option<u32>
    ensures value { result ≡ threads_in_words (map string_bytes words.now) }
    ensures kept { IfSome result IsThreadCount }
{
    let threads = number_or(DEFAULT_THREADS, 1, MAX_THREADS, value(Key::Threads, words))?;
    Some(threads as u32)
}

fn model_number(words: &[String]) -> Option<u64>
    ensures { result ≡ model_number_of (map string_bytes words.now) }
{
    number_between(name_at(0, words)?, 0, u64::MAX)
}
