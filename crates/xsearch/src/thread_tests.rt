use crate::run;
use crate::tests::{HALVES, Host, THREE, text, words};
use ip_core::{List, OutOfMemory};
use std::test::Fail;
use task_crew::{Gate, MeetGate, OpenGate};
use xsearch_words::{SureShelf, SureSink};

/// Runs over the file `m`, and answers the exit status.
fn run_over<R: Host, G: Gate + Sync>(
    rt: &R,
    line: &str,
    gate: &G,
    shelf: &mut SureShelf,
    out: &mut SureSink,
) -> Result<u8, OutOfMemory> {
    let alloc = rt.alloc();
    let words = words(alloc, line)?;
    Ok(run(rt, alloc, words.as_slice(), shelf, out, gate))
}

/// A shelf whose file `m` holds this model.
fn shelf_of<R: Host>(rt: &R, model: &[u8]) -> Result<SureShelf, OutOfMemory> {
    let alloc = rt.alloc();
    let mut shelf = SureShelf::new(alloc);
    shelf.set(text(alloc, b"m")?, List::of(Vec::from_slice(alloc, model)?))?;
    Ok(shelf)
}

const ALONE: &str = "alone m --tasks=4 --cert=c --log=l";

const ON_THREADS: [&str; 5] = [
    "solve m --tasks=4 --cert=c --log=l --threads=1",
    "solve m --tasks=4 --cert=c --log=l --threads=2",
    "solve m --tasks=4 --cert=c --log=l --threads=3",
    "solve m --tasks=4 --cert=c --log=l --threads=8",
    "solve m --tasks=4 --cert=c --log=l --threads=64",
];

const BEST: &[u8] = b"status optimal\nobjective -13\nx = 2\ny = 0\nz = 1\n";

/// Whether two shelves hold the same certificate and the same log, and hold them at all.
fn are_same_files<R: Host>(
    rt: &R,
    one: &SureShelf,
    other: &SureShelf,
) -> Result<bool, OutOfMemory> {
    for name in [b"c", b"l"] {
        let name = text(rt.alloc(), name)?;
        let file = one.file(&name);
        if file.is_none() || file != other.file(&name) {
            return Ok(false);
        }
    }
    Ok(true)
}

/// Whether these words leave the best point and the files that are left without threads.
fn is_as_alone<R: Host>(rt: &R, line: &str, alone: &SureShelf) -> Result<bool, OutOfMemory> {
    let mut shelf = shelf_of(rt, THREE)?;
    let mut out = SureSink::new(rt.alloc());
    let code = run_over(rt, line, &OpenGate, &mut shelf, &mut out)?;
    Ok((code, out.bytes()) == (0, BEST) && are_same_files(rt, &shelf, alone)?)
}

/// The number of the first words that leave something else.
fn first_apart<R: Host>(rt: &R, lines: &[&str]) -> Result<Option<usize>, OutOfMemory> {
    let mut alone = shelf_of(rt, THREE)?;
    let mut out = SureSink::new(rt.alloc());
    run_over(rt, ALONE, &OpenGate, &mut alone, &mut out)?;
    for i in 0..lines.len() {
        if !is_as_alone(rt, lines[i], &alone)? {
            return Ok(Some(i));
        }
    }
    Ok(None)
}

#[test]
fn one_answer_with_all_numbers_of_threads(rt: HostRuntime) -> Result<(), Fail> {
    assert_eq!(rt; first_apart(&rt, &[ALONE])?, None);
    assert_eq!(rt; first_apart(&rt, &ON_THREADS)?, None);
    Ok(())
}

/// Whether two slots met at a gate, where each waits for so many turns of a loop, in a run that puts
/// this. None where it puts something else.
fn meets<R: Host>(
    rt: &R,
    turns: u64,
    line: &str,
    output: &[u8],
) -> Result<Option<bool>, OutOfMemory> {
    let gate = MeetGate::new(turns, 0, 1);
    let mut shelf = shelf_of(rt, HALVES)?;
    let mut out = SureSink::new(rt.alloc());
    run_over(rt, line, &gate, &mut shelf, &mut out)?;
    if out.bytes() != output {
        return Ok(None);
    }
    Ok(Some(gate.met()))
}

const NONE: &[u8] = b"status infeasible\n";

const SUMMARY: &[u8] = b"sample 1 status worklimit objective none entries 2\n";

#[test]
fn two_slots_meet(rt: HostRuntime) -> Result<(), Fail> {
    let line = "solve m --tasks=2 --threads=2";
    assert_eq!(rt; meets(&rt, 10_000_000, line, NONE)?, Some(true));
    let line = "sample 1 --tasks=2 --threads=2 --work=1";
    assert_eq!(rt; meets(&rt, 10_000_000, line, SUMMARY)?, Some(true));
    Ok(())
}

/// `alone` plays the slots one after the other, whatever the number of threads.
#[test]
fn no_slots_meet_on_one_thread(rt: HostRuntime) -> Result<(), Fail> {
    let line = "alone m --tasks=2 --threads=2";
    assert_eq!(rt; meets(&rt, 1_000, line, NONE)?, Some(false));
    let line = "solve m --tasks=2 --threads=1";
    assert_eq!(rt; meets(&rt, 1_000, line, NONE)?, Some(false));
    let line = "sample 1 --tasks=2 --threads=1 --work=1";
    assert_eq!(rt; meets(&rt, 1_000, line, SUMMARY)?, Some(false));
    Ok(())
}
