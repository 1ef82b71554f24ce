//! The program `xsearch`: branch-and-bound over bounded pure integer models.
#![tactic(auto)]

mod answer;
mod certificate_file;
mod check;
mod file_bytes;
mod files;
mod generate;
mod laws;
mod model_file;
mod output;
mod refusal;
mod report;
mod run;
mod sample;
mod search;
mod show;
mod solve;
mod status;
mod summary;

pub use answer::answer_text;
pub use check::check_command;
pub use generate::gen_command;
pub use laws::accepted_files_are_told;
pub use run::run;
pub use sample::sample_command;
pub use show::show_command;
pub use solve::{solve_alone, solve_command};
use std::process::ExitCode;
use std::rt::Env;
use std::{env, io};
use task_crew::OpenGate;
use xsearch_words::{FileShelf, StdoutSink};

/// Runs the command line's words, after the program's name, over the system's files and the
/// standard output.
fn main(rt: HostRuntime) -> ExitCode {
    let alloc = rt.alloc();
    let words = match command_words(&rt) {
        Ok(words) => words,
        Err(error) if error.kind() == io::ErrorKind::OutOfMemory => return ExitCode::from(8),
        Err(_) => Vec::new(alloc),
    };
    let mut shelf = FileShelf::new(rt);
    let mut out = StdoutSink::new(rt);
    let words = words.as_slice();
    ExitCode::from(run(&rt, alloc, words, &mut shelf, &mut out, &OpenGate))
}

/// The words after the program's name. A word that isn't text is an error.
fn command_words(rt: &(impl Env + AllocGlobal)) -> io::Result<Vec<String>> {
    let mut words = Vec::new(rt.alloc());
    for word in env::args(rt)?.skip(1) {
        words.push(word)?;
    }
    Ok(words)
}

#[cfg(test)]
mod certificate_tests;
#[cfg(test)]
mod log_tests;
#[cfg(test)]
mod sample_tests;
#[cfg(test)]
mod tests;
#[cfg(test)]
mod thread_tests;
