use super::*;
use crate::streams::{read_opened, read_to_end, write_opened, write_out};
use ip_core::{List, OutOfMemory, Text};
use std::alloc::Global;
use std::io::{Error, ErrorKind, Read, Write};
use std::test::Fail;
use std::{fs, io};

fn text(alloc: Global, bytes: &[u8]) -> Result<Text, OutOfMemory> {
    Ok(Text::of(Vec::from_slice(alloc, bytes)?))
}

// A shelf whose file m holds abc, and whose third call is to fail.
fn memory_shelf(alloc: Global) -> Result<MemoryShelf, OutOfMemory> {
    let fails = List::of(Vec::from_slice(alloc, &[3])?);
    let mut shelf = MemoryShelf::new(alloc, fails, 0);
    let bytes = List::of(Vec::from_slice(alloc, b"abc")?);
    shelf.set(text(alloc, b"m")?, bytes)?;
    Ok(shelf)
}

fn sure_shelf(alloc: Global) -> Result<SureShelf, OutOfMemory> {
    let mut shelf = SureShelf::new(alloc);
    let bytes = List::of(Vec::from_slice(alloc, b"abc")?);
    shelf.set(text(alloc, b"m")?, bytes)?;
    Ok(shelf)
}

fn memory_sink(alloc: Global) -> Result<MemorySink, OutOfMemory> {
    let fails = List::of(Vec::from_slice(alloc, &[2, 4])?);
    Ok(MemorySink::new(alloc, fails, 2))
}

// Whether a read through the trait gives these bytes or this error.
fn reads<S: Shelf>(
    shelf: &mut S,
    alloc: Global,
    name: &[u8],
    most: u64,
    want: Result<&[u8], ShelfError>,
) -> Result<bool, OutOfMemory> {
    let name = text(alloc, name)?;
    Ok(match (shelf.read(alloc, &name, most), want) {
        (Ok(bytes), Ok(want)) => bytes.as_slice() == want,
        (Err(error), Err(want)) => error == want,
        _ => false,
    })
}

fn put<O: Sink>(sink: &mut O, alloc: Global, bytes: &[u8]) -> Result<(), WriteError> {
    sink.put(alloc, bytes)
}

fn last_is_read_of(shelf: &MemoryShelf, name: &[u8]) -> bool {
    match shelf.last_fault() {
        Some(fault) => !fault.write && fault.name.as_slice() == name,
        None => false,
    }
}

#[test]
fn a_memory_shelf_reads_and_fails(rt: HostRuntime) -> Result<(), Fail> {
    let alloc = rt.alloc();
    let mut shelf = memory_shelf(alloc)?;
    for (name, most, want, faults) in [
        (b"m".as_slice(), 3, Ok(b"abc".as_slice()), 0),
        (b"m".as_slice(), 2, Err(ShelfError::TooLong), 0),
        (b"m".as_slice(), 3, Err(ShelfError::Failed), 1),
        (b"n".as_slice(), 3, Err(ShelfError::Failed), 2),
        (b"m".as_slice(), 9, Ok(b"abc".as_slice()), 2),
    ] {
        assert!(rt; reads(&mut shelf, alloc, name, most, want)?);
        assert_eq!(rt; shelf.faults(), faults);
    }
    assert!(rt; last_is_read_of(&shelf, b"n"));
    Ok(())
}

#[test]
fn a_sure_shelf_reads_a_missing_file_as_empty(rt: HostRuntime) -> Result<(), Fail> {
    let alloc = rt.alloc();
    let mut shelf = sure_shelf(alloc)?;
    for (name, most, want) in [
        (b"m".as_slice(), 3, Ok(b"abc".as_slice())),
        (b"m".as_slice(), 2, Err(ShelfError::TooLong)),
        (b"n".as_slice(), 0, Ok(b"".as_slice())),
    ] {
        assert!(rt; reads(&mut shelf, alloc, name, most, want)?);
    }
    Ok(())
}

// The files that are written below, in their order, with their texts.
const TEXTS: [(&[u8], &[u8]); 3] = [(b"a", b"one"), (b"b", b"two"), (b"c", b"three")];

fn outputs(alloc: Global) -> Result<Vec<OutputFile>, OutOfMemory> {
    let mut outputs = Vec::new(alloc);
    for (name, bytes) in TEXTS {
        outputs.push(OutputFile {
            name: text(alloc, name)?,
            text: text(alloc, bytes)?,
        })?;
    }
    Ok(outputs)
}

// Which call fails, where one does, how writing these files ends then, and what they hold.
type Writes = (
    &'static [u64],
    Result<(), OutputError>,
    [Option<&'static [u8]>; 3],
);

const WRITES: [Writes; 4] = [
    (&[], Ok(()), [Some(b"one"), Some(b"two"), Some(b"three")]),
    (
        &[1],
        Err(OutputError::Failed { place: 0 }),
        [Some(b"on"), None, Some(b"old")],
    ),
    (
        &[2],
        Err(OutputError::Failed { place: 1 }),
        [Some(b"one"), Some(b"tw"), Some(b"old")],
    ),
    (
        &[3],
        Err(OutputError::Failed { place: 2 }),
        [Some(b"one"), Some(b"two"), Some(b"th")],
    ),
];

// Whether the files are written so over a shelf of which these calls fail after two bytes, and
// whose file c holds old.
fn are_written(alloc: Global, writes: &Writes) -> Result<bool, OutOfMemory> {
    let fails = List::of(Vec::from_slice(alloc, writes.0)?);
    let mut shelf = MemoryShelf::new(alloc, fails, 2);
    shelf.set(
        text(alloc, b"c")?,
        List::of(Vec::from_slice(alloc, b"old")?),
    )?;
    let end = write_all(alloc, outputs(alloc)?.as_slice(), &mut shelf);
    for (place, (name, _text)) in TEXTS.iter().enumerate() {
        if shelf.file(&text(alloc, name)?) != writes.2[place] {
            return Ok(false);
        }
    }
    Ok(end == writes.1 && shelf.faults() == writes.0.len() as u64)
}

#[test]
fn files_are_written_up_to_the_one_that_fails(rt: HostRuntime) -> Result<(), Fail> {
    for (place, writes) in WRITES.iter().enumerate() {
        assert!(rt; are_written(rt.alloc(), writes)?, "at row {place}");
    }
    Ok(())
}

#[test]
fn a_failed_write_is_the_last_fault(rt: HostRuntime) -> Result<(), Fail> {
    let alloc = rt.alloc();
    let mut shelf = memory_shelf(alloc)?;
    let name = text(alloc, b"n")?;
    assert!(rt; reads(&mut shelf, alloc, b"n", 3, Err(ShelfError::Failed))?);
    shelf.write(alloc, &name, b"ab")?;
    assert_eq!(rt; shelf.write(alloc, &name, b"cd"), Err(WriteError::Failed));
    assert_eq!(rt; shelf.faults(), 2);
    let fault = shelf
        .last_fault()
        .map(|fault| (fault.write, fault.name.as_slice()));
    assert_eq!(rt; fault, Some((true, b"n".as_slice())));
    Ok(())
}

#[test]
fn a_sure_shelf_keeps_what_is_written(rt: HostRuntime) -> Result<(), Fail> {
    let alloc = rt.alloc();
    let mut shelf = sure_shelf(alloc)?;
    write_all(alloc, outputs(alloc)?.as_slice(), &mut shelf)?;
    for (name, bytes) in [TEXTS[0], TEXTS[2], (b"m".as_slice(), b"abc".as_slice())] {
        assert!(rt; reads(&mut shelf, alloc, name, 9, Ok(bytes))?);
    }
    Ok(())
}

// A name that is no other file's where tests run.
const FILE: &str = "xsearch_words_test";

#[test]
fn a_file_shelf_reads_what_it_wrote(rt: HostRuntime) -> Result<(), Fail> {
    let alloc = rt.alloc();
    let name = FILE.as_bytes();
    let mut shelf = FileShelf::new(rt);
    for bytes in [b"longer".as_slice(), b"abc".as_slice()] {
        shelf.write(alloc, &text(alloc, name)?, bytes)?;
        assert!(rt; reads(&mut shelf, alloc, name, 9, Ok(bytes))?);
    }
    fs::remove_file(&rt, FILE)?;
    let unopened = shelf.write(alloc, &text(alloc, b"xsearch_words_test/a")?, b"ab");
    assert_eq!(rt; unopened, Err(WriteError::Failed));
    Ok(())
}

#[test]
fn shelves_show_their_files(rt: HostRuntime) -> Result<(), Fail> {
    let alloc = rt.alloc();
    let name = text(alloc, b"m")?;
    assert_eq!(rt; memory_shelf(alloc)?.file(&name), Some(b"abc".as_slice()));
    assert_eq!(rt; sure_shelf(alloc)?.file(&name), Some(b"abc".as_slice()));
    Ok(())
}

#[test]
fn a_memory_sink_takes_bytes_and_fails(rt: HostRuntime) -> Result<(), Fail> {
    let alloc = rt.alloc();
    let mut sink = memory_sink(alloc)?;
    for (bytes, want, out, faults) in [
        (b"ab".as_slice(), Ok(()), b"ab".as_slice(), 0),
        (
            b"cde".as_slice(),
            Err(WriteError::Failed),
            b"abcd".as_slice(),
            1,
        ),
        (b"f".as_slice(), Ok(()), b"abcdf".as_slice(), 1),
        (
            b"g".as_slice(),
            Err(WriteError::Failed),
            b"abcdfg".as_slice(),
            2,
        ),
    ] {
        assert_eq!(rt; put(&mut sink, alloc, bytes), want);
        assert_eq!(rt; sink.bytes(), out);
        assert_eq!(rt; sink.faults(), faults);
    }
    Ok(())
}

#[test]
fn a_sure_sink_takes_bytes(rt: HostRuntime) -> Result<(), Fail> {
    let mut sink = SureSink::new(rt.alloc());
    put(&mut sink, rt.alloc(), b"ab")?;
    assert_eq!(rt; sink.bytes(), b"ab".as_slice());
    Ok(())
}

/// A reader of a few bytes at a time, which errs after them where it is told to.
#[derive(Drop)]
struct Trickle {
    bytes: &'static [u8],
    step: usize,
    errs: bool,
}

impl Read for Trickle {
    fn read(&mut self, buf: &mut [u8]) -> io::Result<usize> {
        let count = self.step.min(buf.len()).min(self.bytes.len());
        if count == 0 && self.errs {
            return Err(Error::from(ErrorKind::Other));
        }
        for place in 0..count {
            buf[place] = self.bytes[place];
        }
        self.bytes = &self.bytes[count..];
        Ok(count)
    }
}

/// A writer of one byte at a time, which errs once it has no room left.
#[derive(Drop)]
struct ByteWriter {
    out: Text,
    room: usize,
}

impl Write for ByteWriter {
    fn write(&mut self, buf: &[u8]) -> io::Result<usize> {
        if self.room == 0 || buf.is_empty() {
            return Err(Error::from(ErrorKind::Other));
        }
        match self.out.extend(&buf[..1]) {
            Ok(()) => {
                self.room -= 1;
                Ok(1)
            }
            Err(OutOfMemory) => Err(Error::from(ErrorKind::OutOfMemory)),
        }
    }

    fn flush(&mut self) -> io::Result<()> {
        Ok(())
    }
}

// How many bytes a reader gives at a time, whether it errs after them, the most bytes that may
// come, and what is read.
const READS: [(usize, bool, u64, Result<&[u8], ShelfError>); 7] = [
    (1, false, 9, Ok(b"abc")),
    (2, false, 3, Ok(b"abc")),
    (9, false, 3, Ok(b"abc")),
    (1, false, 2, Err(ShelfError::TooLong)),
    (9, false, 0, Err(ShelfError::TooLong)),
    (1, true, 9, Err(ShelfError::Failed)),
    (9, true, 3, Err(ShelfError::Failed)),
];

// The first row whose reader isn't read as it should be.
fn first_misread(alloc: Global) -> Option<usize> {
    for (place, &(step, errs, most, want)) in READS.iter().enumerate() {
        let reader = Trickle {
            bytes: b"abc",
            step,
            errs,
        };
        let is_read = match (read_to_end(reader, alloc, most), want) {
            (Ok(bytes), Ok(want)) => bytes.as_slice() == want,
            (Err(error), Err(want)) => error == want,
            _ => false,
        };
        if !is_read {
            return Some(place);
        }
    }
    None
}

#[test]
fn readers_are_read_to_their_end(rt: HostRuntime) -> Result<(), Fail> {
    assert_eq!(rt; first_misread(rt.alloc()), None);
    let unopened: io::Result<Trickle> = Err(Error::from(ErrorKind::NotFound));
    let failed = read_opened(unopened, rt.alloc(), 9);
    assert!(rt; matches!(&failed, Err(ShelfError::Failed)));
    Ok(())
}

#[test]
fn writers_take_all_bytes_or_a_front(rt: HostRuntime) -> Result<(), Fail> {
    for (room, want, out) in [
        (9, Ok(()), b"abc".as_slice()),
        (3, Ok(()), b"abc".as_slice()),
        (2, Err(WriteError::Failed), b"ab".as_slice()),
        (0, Err(WriteError::Failed), b"".as_slice()),
    ] {
        let mut writer = ByteWriter {
            out: Text::new(rt.alloc()),
            room,
        };
        assert_eq!(rt; write_out(&mut writer, b"abc"), want);
        assert_eq!(rt; writer.out.as_slice(), out);
    }
    Ok(())
}

#[test]
fn a_writer_that_is_not_open_takes_nothing(rt: HostRuntime) -> Result<(), Fail> {
    let writer = ByteWriter {
        out: Text::new(rt.alloc()),
        room: 9,
    };
    let written = write_opened(Ok(writer), b"abc")?;
    assert_eq!(rt; written.out.as_slice(), b"abc".as_slice());
    let unopened: io::Result<ByteWriter> = Err(Error::from(ErrorKind::NotFound));
    assert!(rt; matches!(&write_opened(unopened, b"abc"), Err(WriteError::Failed)));
    Ok(())
}

// What words are to ask.
#[derive(Clone, Copy)]
enum Want {
    Nothing,
    Solve(&'static str, Tune, Option<u32>),
    Alone(&'static str, Tune, Option<u32>),
    // To solve a model as it is set without options, with a log of this name.
    Logged(&'static str, &'static str),
    // To solve a model as it is set without options, with a certificate and a log of these names.
    Certified(&'static str, &'static str, &'static str),
    // To check the certificate of a model, in files of these names.
    Check(&'static str, &'static str, Option<u32>),
    Show(&'static str),
    Gen(u64),
    Sample(u64, Tune),
}

type Case = (&'static [&'static str], Want);

const PLAIN: Tune = Tune {
    tasks: 4,
    work: 200_000_000,
    store: 1_048_576,
    cuts: true,
    heuristics: true,
};

const LITTLE_WORK: Tune = Tune {
    tasks: 4,
    work: 7,
    store: 1_048_576,
    cuts: true,
    heuristics: true,
};

const MOST_WORK: Tune = Tune {
    tasks: 4,
    work: 1_000_000_000_000,
    store: 1_048_576,
    cuts: true,
    heuristics: true,
};

const THREE_TASKS: Tune = Tune {
    tasks: 3,
    work: 200_000_000,
    store: 1_398_101,
    cuts: true,
    heuristics: true,
};

const ONE_TASK: Tune = Tune {
    tasks: 1,
    work: 200_000_000,
    store: 4_194_304,
    cuts: true,
    heuristics: true,
};

const MOST_TASKS: Tune = Tune {
    tasks: 64,
    work: 200_000_000,
    store: 65_536,
    cuts: true,
    heuristics: true,
};

const LEAST_STORE: Tune = Tune {
    tasks: 64,
    work: 0,
    store: 64,
    cuts: true,
    heuristics: true,
};

const WITHOUT_CUTS: Tune = Tune {
    tasks: 1,
    work: 200_000_000,
    store: 4_194_304,
    cuts: false,
    heuristics: true,
};

const WITHOUT_DIVES: Tune = Tune {
    tasks: 1,
    work: 200_000_000,
    store: 4_194_304,
    cuts: true,
    heuristics: false,
};

const CASES: [Case; 76] = [
    (&["solve", "m3"], Want::Solve("m3", PLAIN, None)),
    (
        &["solve", "--work=007", "m3"],
        Want::Solve("m3", LITTLE_WORK, None),
    ),
    (
        &[
            "solve",
            "--default-upper=2147483648",
            "m",
            "--work=1000000000000",
        ],
        Want::Solve("m", MOST_WORK, Some(2_147_483_648)),
    ),
    (
        &["solve", "m3", "--tasks=3"],
        Want::Solve("m3", THREE_TASKS, None),
    ),
    (
        &["solve", "m3", "--tasks=1"],
        Want::Solve("m3", ONE_TASK, None),
    ),
    (
        &["solve", "m3", "--tasks=64", "--store=65536"],
        Want::Solve("m3", MOST_TASKS, None),
    ),
    (
        &["alone", "--store=64", "m3", "--work=0", "--tasks=64"],
        Want::Alone("m3", LEAST_STORE, None),
    ),
    (
        &["solve", "--cuts=no", "m3", "--tasks=1"],
        Want::Solve("m3", WITHOUT_CUTS, None),
    ),
    (
        &["alone", "m3", "--cuts=yes"],
        Want::Alone("m3", PLAIN, None),
    ),
    (&["solve", "m3", "--cuts"], Want::Nothing),
    (&["solve", "m3", "--cuts="], Want::Nothing),
    (&["solve", "m3", "--cuts=Yes"], Want::Nothing),
    (&["solve", "m3", "--cuts=no "], Want::Nothing),
    (&["solve", "m3", "--cuts=no", "--cuts=no"], Want::Nothing),
    (&["show", "m3", "--cuts=no"], Want::Nothing),
    (
        &["solve", "--heuristics=no", "m3", "--tasks=1"],
        Want::Solve("m3", WITHOUT_DIVES, None),
    ),
    (
        &["alone", "m3", "--heuristics=yes", "--cuts=yes"],
        Want::Alone("m3", PLAIN, None),
    ),
    (&["solve", "m3", "--heuristics"], Want::Nothing),
    (&["solve", "m3", "--heuristics=1"], Want::Nothing),
    (
        &["solve", "m3", "--heuristics=no", "--heuristics=yes"],
        Want::Nothing,
    ),
    (&["check", "m3", "c", "--heuristics=no"], Want::Nothing),
    (
        &["alone", "m1", "--default-upper=7"],
        Want::Alone("m1", PLAIN, Some(7)),
    ),
    (&["solve", "m3", "--log=l"], Want::Logged("m3", "l")),
    (&["solve", "--log=a=b", "./m3"], Want::Logged("./m3", "a=b")),
    (&["solve", "m3", "--log=./m3"], Want::Logged("m3", "./m3")),
    (&["solve", "m3", "--log=m3"], Want::Nothing),
    (&["alone", "m3", "--log="], Want::Nothing),
    (&["alone", "m3", "--log=-l"], Want::Nothing),
    (&["solve", "m3", "--log"], Want::Nothing),
    (&["solve", "m3", "--log=a", "--log=b"], Want::Nothing),
    (&["show", "m", "--log=l"], Want::Nothing),
    (
        &["solve", "--cert=c", "m3", "--log=l"],
        Want::Certified("m3", "c", "l"),
    ),
    (&["solve", "m3", "--cert=m3"], Want::Nothing),
    (&["alone", "m3", "--cert=a", "--log=a"], Want::Nothing),
    (&["alone", "m3", "--cert=-"], Want::Nothing),
    (&["check", "m3", "c"], Want::Check("m3", "c", None)),
    (&["check", "c", "c"], Want::Check("c", "c", None)),
    (
        &["check", "m3", "--default-upper=3", "c"],
        Want::Check("m3", "c", Some(3)),
    ),
    (&["check", "m3"], Want::Nothing),
    (&["check", "m3", "c", "--cert=d"], Want::Nothing),
    (&["check", "m3", "c", "--tasks=1"], Want::Nothing),
    (&["show", "m"], Want::Show("m")),
    (&["gen", "01"], Want::Gen(1)),
    (&["gen", "18446744073709551615"], Want::Gen(u64::MAX)),
    (&[], Want::Nothing),
    (&["solve"], Want::Nothing),
    (&["alone"], Want::Nothing),
    (&["solve", ""], Want::Nothing),
    (&["solve", "a", "b"], Want::Nothing),
    (&["solve", "m3", "-x"], Want::Nothing),
    (&["solve", "--", "m3"], Want::Nothing),
    (&["--work=3"], Want::Nothing),
    (&["--help"], Want::Nothing),
    (&["solve", "m3", "--work=5", "--work=5"], Want::Nothing),
    (&["solve", "m3", "--work"], Want::Nothing),
    (&["solve", "m3", "--work="], Want::Nothing),
    (&["solve", "m3", "--work=1000000000001"], Want::Nothing),
    (&["solve", "m3", "--tasks=0"], Want::Nothing),
    (&["solve", "m3", "--tasks=65"], Want::Nothing),
    (&["alone", "m3", "--tasks=2", "--tasks=2"], Want::Nothing),
    (
        &["solve", "m3", "--tasks=64", "--store=65537"],
        Want::Nothing,
    ),
    (&["solve", "m3", "--store=63"], Want::Nothing),
    (
        &["solve", "m3", "--tasks=1", "--store=4194305"],
        Want::Nothing,
    ),
    (&["solve", "m", "--default-upper=2147483649"], Want::Nothing),
    (&["show", "--default-upper=1", "m"], Want::Nothing),
    (&["gen", "--tasks=1", "1"], Want::Nothing),
    (&["gen", "18446744073709551616"], Want::Nothing),
    (&["gen", "000000000000000000007"], Want::Nothing),
    (&["sample", "01"], Want::Sample(1, PLAIN)),
    (
        &["sample", "--cuts=no", "7", "--tasks=1"],
        Want::Sample(7, WITHOUT_CUTS),
    ),
    (
        &["sample", "7", "--tasks=1", "--heuristics=no"],
        Want::Sample(7, WITHOUT_DIVES),
    ),
    (&["sample", "7", "--heuristics=maybe"], Want::Nothing),
    (
        &["sample", "7", "--work=0", "--store=64", "--tasks=64"],
        Want::Sample(7, LEAST_STORE),
    ),
    (&["sample"], Want::Nothing),
    (&["sample", "1", "2"], Want::Nothing),
    (&["sample", "1", "--default-upper=9"], Want::Nothing),
];

/// Words, and how many threads they ask for. None where they ask nothing.
const THREADS: [(&[&str], Option<u32>); 14] = [
    (&["solve", "m3"], Some(4)),
    (&["alone", "m3", "--log=l"], Some(4)),
    (&["sample", "7"], Some(4)),
    (&["solve", "m3", "--threads=1"], Some(1)),
    (&["solve", "--tasks=9", "--threads=064", "m3"], Some(64)),
    (&["alone", "m3", "--threads=2"], Some(2)),
    (&["sample", "--threads=3", "7", "--tasks=1"], Some(3)),
    (&["solve", "m3", "--threads=0"], None),
    (&["alone", "m3", "--threads=65"], None),
    (&["sample", "7", "--threads="], None),
    (&["solve", "m3", "--threads=2", "--threads=2"], None),
    (&["check", "m3", "c", "--threads=1"], None),
    (&["show", "m", "--threads=1"], None),
    (&["gen", "7", "--threads=1"], None),
];

fn is_search(job: &SolveJob, model: &str, tune: Tune, default_upper: Option<u32>) -> bool {
    job.model.as_slice() == model.as_bytes()
        && job.tune == tune
        && job.default_upper == default_upper
}

fn is_name(name: &Option<Text>, want: &str) -> bool {
    match name {
        Some(name) => name.as_slice() == want.as_bytes(),
        None => false,
    }
}

fn has_no_files(job: &SolveJob) -> bool {
    job.cert.is_none() && job.log.is_none()
}

fn is_check(job: &CheckJob, model: &str, cert: &str, default_upper: Option<u32>) -> bool {
    job.model.as_slice() == model.as_bytes()
        && job.cert.as_slice() == cert.as_bytes()
        && job.default_upper == default_upper
}

// What the words ask.
fn asked(alloc: Global, words: &[&str]) -> Result<Job, JobError> {
    let mut strings = Vec::new(alloc);
    for word in words {
        let Ok(string) = String::from_str(alloc, word) else {
            return Err(JobError::Memory);
        };
        if strings.push(string).is_err() {
            return Err(JobError::Memory);
        }
    }
    settings(alloc, strings.as_slice())
}

// Whether the words ask what is wanted.
fn asks(alloc: Global, case: Case) -> Result<bool, OutOfMemory> {
    Ok(match (asked(alloc, case.0), case.1) {
        (Ok(Job::Solve(job)), Want::Solve(model, tune, upper)) => {
            is_search(&job, model, tune, upper) && has_no_files(&job)
        }
        (Ok(Job::Alone(job)), Want::Alone(model, tune, upper)) => {
            is_search(&job, model, tune, upper) && has_no_files(&job)
        }
        (Ok(Job::Solve(job)), Want::Logged(model, log)) => {
            is_search(&job, model, PLAIN, None) && job.cert.is_none() && is_name(&job.log, log)
        }
        (Ok(Job::Solve(job)), Want::Certified(model, cert, log)) => {
            is_search(&job, model, PLAIN, None)
                && is_name(&job.cert, cert)
                && is_name(&job.log, log)
        }
        (Ok(Job::Check(job)), Want::Check(model, cert, upper)) => {
            is_check(&job, model, cert, upper)
        }
        (Ok(Job::Show(model)), Want::Show(want)) => model.as_slice() == want.as_bytes(),
        (Ok(Job::Gen(number)), Want::Gen(want)) => number == want,
        (Ok(Job::Sample(job)), Want::Sample(number, tune)) => {
            job.number == number && job.tune == tune
        }
        (Err(JobError::Words), Want::Nothing) => true,
        (Err(JobError::Memory), _) => return Err(OutOfMemory),
        _ => false,
    })
}

#[test]
fn words_ask_jobs(rt: HostRuntime) -> Result<(), Fail> {
    for (place, case) in CASES.iter().enumerate() {
        assert!(rt; asks(rt.alloc(), *case)?, "at row {place}");
    }
    Ok(())
}

// Whether the words ask for so many threads.
fn asks_for(alloc: Global, words: &[&str], want: Option<u32>) -> Result<bool, OutOfMemory> {
    match asked(alloc, words) {
        Ok(job) => Ok(want.is_some() && threads_of(&job) == want),
        Err(JobError::Words) => Ok(want.is_none()),
        Err(JobError::Memory) => Err(OutOfMemory),
    }
}

/// The number of threads of a job that searches.
fn threads_of(job: &Job) -> Option<u32> {
    match job {
        Job::Solve(job) | Job::Alone(job) => Some(job.threads),
        Job::Sample(job) => Some(job.threads),
        Job::Check(_) | Job::Show(_) | Job::Gen(_) => None,
    }
}

#[test]
fn words_ask_for_threads(rt: HostRuntime) -> Result<(), Fail> {
    for (place, (words, want)) in THREADS.iter().enumerate() {
        assert!(rt; asks_for(rt.alloc(), words, *want)?, "at row {place}");
    }
    Ok(())
}
