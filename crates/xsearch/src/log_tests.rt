use crate::run;
use crate::tests::{HALVES, Host, ONE, has, numbers, prints, text, words};
use ip_core::{List, OutOfMemory, Text};
use std::alloc::Global;
use std::test::Fail;
use task_crew::OpenGate;
use xsearch_words::{MemoryShelf, MemorySink, SureShelf, SureSink};

/// Words over a file `m`, a shelf and a sink of which these calls fail, each after ten bytes, the
/// exit status, what is output, the file `l` afterwards, the last fault of the shelf (whether it is
/// a write, and of which name), and the counts of faults.
struct Broken {
    words: &'static str,
    shelf_calls: &'static [u64],
    puts: &'static [u64],
    status: u8,
    output: &'static [u8],
    log: Option<&'static [u8]>,
    fault: Option<(bool, &'static [u8])>,
    faults: (u64, u64),
}

pub(crate) const LOG_WITHOUT_WORK: &[u8] =
    b"xsearch log 1\ntasks 1 work 0 store 4194304 cuts yes heuristics yes\nend 0 0\nstatus worklimit\n";

const BROKEN: [Broken; 7] = [
    Broken {
        words: "solve m",
        shelf_calls: &[1],
        puts: &[],
        status: 6,
        output: b"",
        log: None,
        fault: Some((false, b"m")),
        faults: (1, 0),
    },
    Broken {
        words: "solve m",
        shelf_calls: &[2],
        puts: &[1],
        status: 7,
        output: b"status opt",
        log: None,
        fault: None,
        faults: (0, 1),
    },
    Broken {
        words: "solve m --log=l",
        shelf_calls: &[1],
        puts: &[],
        status: 6,
        output: b"",
        log: None,
        fault: Some((false, b"m")),
        faults: (1, 0),
    },
    Broken {
        words: "solve m --log=l",
        shelf_calls: &[2],
        puts: &[],
        status: 6,
        output: b"",
        log: Some(b"xsearch lo"),
        fault: Some((true, b"l")),
        faults: (1, 0),
    },
    Broken {
        words: "solve m --cert=c --log=l",
        shelf_calls: &[2],
        puts: &[],
        status: 6,
        output: b"",
        log: None,
        fault: Some((true, b"c")),
        faults: (1, 0),
    },
    Broken {
        words: "solve m --tasks=1 --work=0 --log=l",
        shelf_calls: &[3],
        puts: &[1],
        status: 7,
        output: b"status wor",
        log: Some(LOG_WITHOUT_WORK),
        fault: None,
        faults: (0, 1),
    },
    Broken {
        words: "alone m --tasks=1 --work=0 --log=l",
        shelf_calls: &[3],
        puts: &[2],
        status: 3,
        output: b"status worklimit\nobjective none\n",
        log: Some(LOG_WITHOUT_WORK),
        fault: None,
        faults: (0, 0),
    },
];

/// Whether a run over one column ends as is told.
fn ends_so<R: Host>(rt: &R, case: &Broken) -> Result<bool, OutOfMemory> {
    let alloc = rt.alloc();
    let mut shelf = MemoryShelf::new(alloc, numbers(alloc, case.shelf_calls)?, 10);
    shelf.set(text(alloc, b"m")?, List::of(Vec::from_slice(alloc, ONE)?))?;
    let mut out = MemorySink::new(alloc, numbers(alloc, case.puts)?, 10);
    let words = words(alloc, case.words)?;
    let code = run(rt, alloc, words.as_slice(), &mut shelf, &mut out, &OpenGate);
    let fault = shelf
        .last_fault()
        .map(|fault| (fault.write, fault.name.as_slice()));
    Ok(
        code == case.status
            && out.bytes() == case.output
            && shelf.file(&text(alloc, b"l")?) == case.log
            && fault == case.fault
            && (shelf.faults(), out.faults()) == case.faults,
    )
}

/// The number of the first case that ends otherwise.
fn first_other_end<R: Host>(rt: &R, cases: &[Broken]) -> Result<Option<usize>, OutOfMemory> {
    for i in 0..cases.len() {
        if !ends_so(rt, &cases[i])? {
            return Ok(Some(i));
        }
    }
    Ok(None)
}

#[test]
fn failing_calls(rt: HostRuntime) -> Result<(), Fail> {
    assert_eq!(rt; first_other_end(&rt, &BROKEN)?, None);
    Ok(())
}

/// Words over a file `m`, the exit status, and the log that is written to the file `l`.
struct Logged {
    words: &'static str,
    model: &'static [u8],
    status: u8,
    log: &'static [u8],
}

const LOGGED: [Logged; 6] = [
    Logged {
        words: "solve m --tasks=2 --log=l",
        model: ONE,
        status: 0,
        log: b"xsearch log 1
tasks 2 work 200000000 store 2097152 cuts yes heuristics yes
0 0 start 0
14 0 found 0 0
14 0 closed 0
14 0 done
end 0 14
end 1 1000
status optimal
",
    },
    Logged {
        words: "solve m --tasks=1 --work=0 --log=l",
        model: ONE,
        status: 3,
        log: LOG_WITHOUT_WORK,
    },
    Logged {
        words: "solve m --tasks=1 --work=14 --log=l",
        model: ONE,
        status: 3,
        log: b"xsearch log 1
tasks 1 work 14 store 4194304 cuts yes heuristics yes
0 0 start 0
end 0 14
status worklimit
",
    },
    Logged {
        words: "solve m --tasks=1 --cuts=no --log=l",
        model: HALVES,
        status: 0,
        log: LOG_OF_HALVES,
    },
    Logged {
        words: "alone m --tasks=1 --cuts=no --log=l",
        model: HALVES,
        status: 0,
        log: LOG_OF_HALVES,
    },
    // without dives the second node is taken at once
    Logged {
        words: "solve m --tasks=1 --cuts=no --heuristics=no --log=l",
        model: HALVES,
        status: 0,
        log: b"xsearch log 1
tasks 1 work 200000000 store 4194304 cuts no heuristics no
0 0 start 0
217 0 split 0 0 0 4 0 0
225 0 closed 4
225 0 done
225 0 start 5
240 0 closed 5
240 0 done
end 0 240
status infeasible
",
    },
];

/// The root counts 1, a pass of 7 and eleven rounds of 19. The dive from node 5 ends at its passes.
pub(crate) const LOG_OF_HALVES: &[u8] = b"xsearch log 1
tasks 1 work 200000000 store 4194304 cuts no heuristics yes
0 0 start 0
217 0 split 0 0 0 4 0 0
225 0 closed 4
225 0 done
225 0 dive 5
240 0 done
240 0 start 5
255 0 closed 5
255 0 done
end 0 255
status infeasible
";

/// The exit status of a run over the file `m`, and the file `l` afterwards.
fn log_after<R: Host>(rt: &R, line: &str, model: &[u8]) -> Result<(u8, Text), OutOfMemory> {
    let alloc = rt.alloc();
    let mut shelf = SureShelf::new(alloc);
    shelf.set(text(alloc, b"m")?, List::of(Vec::from_slice(alloc, model)?))?;
    let mut out = SureSink::new(alloc);
    let words = words(alloc, line)?;
    let code = run(rt, alloc, words.as_slice(), &mut shelf, &mut out, &OpenGate);
    let log = shelf.file(&text(alloc, b"l")?).unwrap_or(b"");
    Ok((code, text(alloc, log)?))
}

/// The number of the first case whose log is another.
fn first_other_log<R: Host>(rt: &R, cases: &[Logged]) -> Result<Option<usize>, OutOfMemory> {
    for i in 0..cases.len() {
        let case = &cases[i];
        let (status, log) = log_after(rt, case.words, case.model)?;
        if status != case.status || log.as_slice() != case.log {
            return Ok(Some(i));
        }
    }
    Ok(None)
}

#[test]
fn searches_are_logged(rt: HostRuntime) -> Result<(), Fail> {
    assert_eq!(rt; first_other_log(&rt, &LOGGED)?, None);
    Ok(())
}

/// A name without a file is a failed read of a shelf that has faults, and it is the last fault.
#[test]
fn a_missing_file(rt: HostRuntime) -> Result<(), Fail> {
    let alloc = rt.alloc();
    let words = words(alloc, "show m")?;
    let mut shelf = MemoryShelf::new(alloc, List::new(alloc), 0);
    let mut out = MemorySink::new(alloc, List::new(alloc), 0);
    assert_eq!(rt;
        run(
            &rt,
            alloc,
            words.as_slice(),
            &mut shelf,
            &mut out,
            &OpenGate
        ),
        6
    );
    assert_eq!(rt; out.bytes().len(), 0);
    let fault = shelf
        .last_fault()
        .map(|fault| (fault.write, fault.name.as_slice()));
    assert_eq!(rt; fault, Some((false, b"m".as_slice())));
    Ok(())
}

/// Columns of cost 1 in 0 to 1, so many, and no row.
fn free_columns(alloc: Global, count: u32) -> Result<String, OutOfMemory> {
    let mut file = String::new(alloc);
    file.push_str("ROWS\n N c\nCOLUMNS\n M 'MARKER' 'INTORG'\n")?;
    for j in 0..count {
        let line = format!(in alloc; " x{j} c 1\n")?;
        file.push_str(line.as_str())?;
    }
    file.push_str("BOUNDS\n")?;
    for j in 0..count {
        let line = format!(in alloc; " UP b x{j} 1\n")?;
        file.push_str(line.as_str())?;
    }
    file.push_str("ENDATA\n")?;
    Ok(file)
}

/// The answer in which so many columns are 0.
fn all_zero(alloc: Global, count: u32) -> Result<String, OutOfMemory> {
    let mut answer = String::new(alloc);
    answer.push_str("status optimal\nobjective 0\n")?;
    for j in 0..count {
        let line = format!(in alloc; "x{j} = 0\n")?;
        answer.push_str(line.as_str())?;
    }
    Ok(answer)
}

/// Whether the model of so many columns is answered so with a store of 64 words.
fn is_stored_answer<R: Host>(
    rt: &R,
    count: u32,
    status: u8,
    output: &[u8],
) -> Result<bool, OutOfMemory> {
    let alloc = rt.alloc();
    let file = free_columns(alloc, count)?;
    let line = "solve m --tasks=1 --store=64";
    prints(rt, line, file.as_bytes(), status, output)
}

#[test]
fn a_point_that_fits_the_store(rt: HostRuntime) -> Result<(), Fail> {
    let alloc = rt.alloc();
    let answer = all_zero(alloc, 45)?;
    assert!(rt; is_stored_answer(&rt, 45, 0, answer.as_bytes())?);
    Ok(())
}

#[test]
fn a_point_too_long_for_the_store(rt: HostRuntime) -> Result<(), Fail> {
    let alloc = rt.alloc();
    let answer = b"status storelimit\nobjective none\n";
    assert!(rt; is_stored_answer(&rt, 46, 4, answer)?);
    let file = free_columns(alloc, 46)?;
    let line = "solve m --tasks=1 --store=64 --log=l";
    let (_, log) = log_after(&rt, line, file.as_bytes())?;
    assert!(rt; has(log.as_slice(), b"\n0 0 start 0\n14 0 halt\nend 0 "));
    Ok(())
}
