//! Does one propagation or one ascent on a model that is made of a sample model, and prints its counted work. The script
//! bench/bounds counts the instructions.
#![tactic(auto)]

mod model;
mod words;
mod work;

use std::process::ExitCode;
use std::rt::Env;
use std::{env, io};
use work::work_of;

/// Prints the counted work that the words ask for, or ends with status 1.
fn main(rt: HostRuntime) -> io::Result<ExitCode> {
    let words = command_words(&rt)?;
    let Some(job) = words::job_of(words.as_slice()) else {
        return Ok(ExitCode::from(1));
    };
    let Ok(Some(work)) = work_of(rt.alloc(), &job) else {
        return Ok(ExitCode::from(1));
    };
    println!(rt; "{work}")?;
    Ok(ExitCode::from(0))
}

/// The words after the program's name.
fn command_words(rt: &(impl Env + AllocGlobal)) -> io::Result<Vec<String>> {
    let mut words = Vec::new(rt.alloc());
    for word in env::args(rt)?.skip(1) {
        words.push(word)?;
    }
    Ok(words)
}
