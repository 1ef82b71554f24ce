use crate::run;
use crate::tests::{Host, numbers, text, words};
use ip_core::{List, OutOfMemory};
use std::test::Fail;
use task_crew::OpenGate;
use xsearch_words::{MemoryShelf, MemorySink, SureShelf, SureSink};

/// Words, the exit status, and what is output.
struct Summed {
    words: &'static str,
    status: u8,
    output: &'static [u8],
}

const SUMMED: [Summed; 6] = [
    Summed {
        words: "sample 1 --work=0",
        status: 3,
        output: b"sample 1 status worklimit objective none entries 0\n",
    },
    // one slot looks for cuts, one takes node 0, and two find nothing open
    Summed {
        words: "sample 1 --work=1",
        status: 3,
        output: b"sample 1 status worklimit objective none entries 2\n",
    },
    Summed {
        words: "sample --tasks=1 --work=1 01",
        status: 3,
        output: b"sample 1 status worklimit objective none entries 1\n",
    },
    Summed {
        words: "sample 1 --cuts=no --heuristics=no --tasks=1 --work=1",
        status: 3,
        output: b"sample 1 status worklimit objective none entries 1\n",
    },
    Summed {
        words: "sample 1 --default-upper=1",
        status: 2,
        output: b"refused words\n",
    },
    Summed {
        words: "sample 1 --heuristics=maybe",
        status: 2,
        output: b"refused words\n",
    },
];

/// The exit status of a run over an empty shelf, with what it puts out.
fn run_alone<R: Host>(rt: &R, line: &str, out: &mut SureSink) -> Result<u8, OutOfMemory> {
    let alloc = rt.alloc();
    let mut shelf = SureShelf::new(alloc);
    let words = words(alloc, line)?;
    Ok(run(rt, alloc, words.as_slice(), &mut shelf, out, &OpenGate))
}

/// The number of the first case that comes out otherwise.
fn first_other_summary<R: Host>(rt: &R, cases: &[Summed]) -> Result<Option<usize>, OutOfMemory> {
    let alloc = rt.alloc();
    for i in 0..cases.len() {
        let case = &cases[i];
        let mut out = SureSink::new(alloc);
        let code = run_alone(rt, case.words, &mut out)?;
        if code != case.status || out.bytes() != case.output {
            return Ok(Some(i));
        }
    }
    Ok(None)
}

#[test]
fn samples_are_summed_up(rt: HostRuntime) -> Result<(), Fail> {
    assert_eq!(rt; first_other_summary(&rt, &SUMMED)?, None);
    Ok(())
}

/// Whether two runs put the same bytes, which begin so, and end with this status.
fn puts_twice<R: Host>(rt: &R, line: &str, status: u8, begins: &[u8]) -> Result<bool, OutOfMemory> {
    let alloc = rt.alloc();
    let mut first = SureSink::new(alloc);
    let mut second = SureSink::new(alloc);
    let code = run_alone(rt, line, &mut first)?;
    let again = run_alone(rt, line, &mut second)?;
    Ok(
        code == status
            && again == status
            && first.bytes() == second.bytes()
            && first.bytes().starts_with(begins),
    )
}

#[test]
fn one_sample_gives_one_summary(rt: HostRuntime) -> Result<(), Fail> {
    let begins = b"sample 1 status worklimit objective ";
    let line = "sample 1 --tasks=2 --work=1000000";
    assert!(rt; puts_twice(&rt, line, 3, begins)?);
    Ok(())
}

/// No point is told, since one has 404 words. Each chunk tells 4 words at least, so that fifteen of
/// them fill the store, and counts less than a twentieth of the limit on work.
#[test]
fn a_sample_that_fills_the_store(rt: HostRuntime) -> Result<(), Fail> {
    let begins = b"sample 1 status storelimit objective none entries ";
    let line = "sample 1 --tasks=1 --cuts=no --heuristics=no --store=64";
    assert!(rt; puts_twice(&rt, line, 4, begins)?);
    Ok(())
}

/// Whether over a shelf and a sink whose first call fails a sample is searched without a fault of
/// the shelf, and its put fails after ten bytes.
fn fails_at_its_put<R: Host>(rt: &R) -> Result<bool, OutOfMemory> {
    let alloc = rt.alloc();
    let mut shelf = MemoryShelf::new(alloc, numbers(alloc, &[1])?, 10);
    let mut out = MemorySink::new(alloc, numbers(alloc, &[1])?, 10);
    let words = words(alloc, "sample 1 --work=0")?;
    let code = run(rt, alloc, words.as_slice(), &mut shelf, &mut out, &OpenGate);
    Ok(
        code == 7
            && out.bytes() == b"sample 1 s".as_slice()
            && (shelf.faults(), out.faults()) == (0, 1),
    )
}

#[test]
fn a_sample_calls_no_shelf(rt: HostRuntime) -> Result<(), Fail> {
    assert!(rt; fails_at_its_put(&rt)?);
    Ok(())
}
