use crate::log_tests::{LOG_OF_HALVES, LOG_WITHOUT_WORK};
use crate::run;
use crate::tests::{COVER, HALVES, Host, ODD, ONE, ONE_UNENDED, UNBOUNDED, numbers, text, words};
use ip_core::{List, OutOfMemory};
use std::alloc::Global;
use std::test::Fail;
use task_crew::OpenGate;
use xsearch_words::{MemoryShelf, MemorySink, SureShelf, SureSink};

/// That 2x = 3 has no whole number from 0 to 5: the first row gives 2, and the second conflicts.
const CERT_OF_ODD: &[u8] = b"xsearch certificate 1
size 1 2
value 6
none
cuts 0
tree 1
leaf 1 r0 0 L conflict r1
end
";

const CERT_OF_HALVES: &[u8] = b"xsearch certificate 1
size 3 2
value 1
none
cuts 0
tree 3
split 0 0 1
leaf 2 r0 1 L r0 2 L conflict r1
leaf 2 r1 1 H r1 2 H conflict r0
end
";

/// The same, but for a gap between the children.
const CERT_WITH_GAP: &[u8] = b"xsearch certificate 1
size 3 2
value 1
none
cuts 0
tree 3
split 0 0 2
leaf 2 r0 1 L r0 2 L conflict r1
leaf 2 r1 1 H r1 2 H conflict r0
end
";

/// That 2 is the least x with 2x >= 3: 3 times 342 is 1026, and a thousand-twenty-fourth of it is above 1.
const CERT_OF_COVER: &[u8] = b"xsearch certificate 1
size 1 1
value 2
point 2
cuts 0
tree 1
leaf 0 bound 1 r0 342
end
";

/// The same, but 3 times 341 is 1023.
const CERT_BELOW: &[u8] = b"xsearch certificate 1
size 1 1
value 2
point 2
cuts 0
tree 1
leaf 0 bound 1 r0 341
end
";

/// That 2 is the least x with 2x >= 3, by x >= 2, which follows by half of it.
const CERT_WITH_CUTS: &[u8] = b"xsearch certificate 1
size 1 1
value 2
point 2
cuts 2
gomory 2 1 r0 1
gomory 2048 1 r0 512
tree 1
leaf 1 r0 0 L bound 0
end
";

/// The first chunk for cuts counts 1, thirteen rounds of 4 and 16, the second 1, thirteen rounds of
/// 10 and 48. The node's counts 1, two passes of 4 and twelve rounds of 10.
const LOG_WITH_CUTS: &[u8] = b"xsearch log 1
tasks 1 work 200000000 store 4194304 cuts yes heuristics yes
0 0 cutloop
69 0 gomory 2 1 r0 1
69 0 gomory 2048 1 r0 512
248 0 done
248 0 start 0
377 0 found 2 2
377 0 closed 0
377 0 done
end 0 377
status optimal
";

const CERT_OF_TWO_NODES: &[u8] = b"xsearch certificate 1
size 1 1
value 2
point 2
cuts 0
tree 2
leaf 0 bound 1 r0 342
end
";

const CERT_WITH_BLANK_LINE: &[u8] = b"xsearch certificate 1
size 1 1
value 2
point 2
cuts 0
tree 1
leaf 0 bound 1 r0 342
end

";

/// Words over a model in the file `m` and a certificate in the file `c`, the exit status, and what is output.
struct Checked {
    words: &'static str,
    model: &'static [u8],
    cert: &'static [u8],
    status: u8,
    output: &'static [u8],
}

const CHECKED: [Checked; 14] = [
    Checked {
        words: "check m c",
        model: COVER,
        cert: CERT_OF_COVER,
        status: 0,
        output: b"accepted\n",
    },
    Checked {
        words: "check m c",
        model: COVER,
        cert: CERT_WITH_CUTS,
        status: 0,
        output: b"accepted\n",
    },
    Checked {
        words: "check m c",
        model: COVER,
        cert: CERT_BELOW,
        status: 9,
        output: b"rejected line 7 reason 9\n",
    },
    Checked {
        words: "check m c",
        model: HALVES,
        cert: CERT_OF_HALVES,
        status: 0,
        output: b"accepted\n",
    },
    Checked {
        words: "check m c",
        model: HALVES,
        cert: CERT_WITH_GAP,
        status: 9,
        output: b"rejected line 7 reason 6\n",
    },
    Checked {
        words: "check --default-upper=9 m c",
        model: ODD,
        cert: CERT_OF_ODD,
        status: 0,
        output: b"accepted\n",
    },
    Checked {
        words: "check m c",
        model: HALVES,
        cert: CERT_OF_COVER,
        status: 9,
        output: b"rejected line 2 reason 10\n",
    },
    Checked {
        words: "check m c",
        model: COVER,
        cert: CERT_OF_TWO_NODES,
        status: 5,
        output: b"refused certificate line 7 kind 3\n",
    },
    Checked {
        words: "check m c",
        model: COVER,
        cert: CERT_WITH_BLANK_LINE,
        status: 5,
        output: b"refused certificate line 9 kind 5\n",
    },
    // a certificate is no model, and a model no certificate
    Checked {
        words: "check m m",
        model: COVER,
        cert: CERT_OF_COVER,
        status: 5,
        output: b"refused certificate line 1 kind 1\n",
    },
    Checked {
        words: "check c m",
        model: COVER,
        cert: CERT_OF_COVER,
        status: 5,
        output: b"refused mps line 1 kind 3\n",
    },
    // the model is read and admitted first
    Checked {
        words: "check m c",
        model: ONE_UNENDED,
        cert: CERT_WITH_BLANK_LINE,
        status: 5,
        output: b"refused mps line 9 kind 14\n",
    },
    Checked {
        words: "check m c",
        model: UNBOUNDED,
        cert: CERT_WITH_BLANK_LINE,
        status: 5,
        output: b"refused model kind 3 index 0\n",
    },
    Checked {
        words: "check m",
        model: COVER,
        cert: CERT_OF_COVER,
        status: 2,
        output: b"refused words\n",
    },
];

fn set(alloc: Global, shelf: &mut SureShelf, name: &[u8], bytes: &[u8]) -> Result<(), OutOfMemory> {
    shelf.set(text(alloc, name)?, List::of(Vec::from_slice(alloc, bytes)?))
}

/// Whether a check ends with this status and puts this.
fn is_checked<R: Host>(
    rt: &R,
    line: &str,
    model: &[u8],
    cert: &[u8],
    want: (u8, &[u8]),
) -> Result<bool, OutOfMemory> {
    let alloc = rt.alloc();
    let mut shelf = SureShelf::new(alloc);
    set(alloc, &mut shelf, b"m", model)?;
    set(alloc, &mut shelf, b"c", cert)?;
    let mut out = SureSink::new(alloc);
    let words = words(alloc, line)?;
    let code = run(rt, alloc, words.as_slice(), &mut shelf, &mut out, &OpenGate);
    Ok((code, out.bytes()) == want)
}

/// The number of the first check that ends otherwise.
fn first_other_check<R: Host>(rt: &R, cases: &[Checked]) -> Result<Option<usize>, OutOfMemory> {
    for i in 0..cases.len() {
        let case = &cases[i];
        let want = (case.status, case.output);
        if !is_checked(rt, case.words, case.model, case.cert, want)? {
            return Ok(Some(i));
        }
    }
    Ok(None)
}

#[test]
fn certificates_are_checked(rt: HostRuntime) -> Result<(), Fail> {
    assert_eq!(rt; first_other_check(&rt, &CHECKED)?, None);
    Ok(())
}

/// The first lines of a text, so many.
fn front(text: &[u8], lines: usize) -> &[u8] {
    let mut left = lines;
    for (place, byte) in text.iter().enumerate() {
        if left == 0 {
            return &text[..place];
        }
        if *byte == b'\n' {
            left -= 1;
        }
    }
    text
}

/// What is put where the first of these lines alone are there.
const CUT_SHORT: [&[u8]; 8] = [
    b"refused certificate line 1 kind 4\n",
    b"refused certificate line 2 kind 4\n",
    b"refused certificate line 3 kind 4\n",
    b"refused certificate line 4 kind 4\n",
    b"refused certificate line 5 kind 4\n",
    b"refused certificate line 6 kind 4\n",
    b"refused certificate line 7 kind 4\n",
    b"refused certificate line 8 kind 4\n",
];

/// The number of lines that are kept of a certificate that isn't refused as told.
fn first_other_front<R: Host>(rt: &R) -> Result<Option<usize>, OutOfMemory> {
    for lines in 0..CUT_SHORT.len() {
        let cert = front(CERT_OF_COVER, lines);
        if !is_checked(rt, "check m c", COVER, cert, (5, CUT_SHORT[lines]))? {
            return Ok(Some(lines));
        }
    }
    Ok(None)
}

#[test]
fn fronts_of_a_certificate_are_refused(rt: HostRuntime) -> Result<(), Fail> {
    assert_eq!(rt; first_other_front(&rt)?, None);
    Ok(())
}

/// Words over a model in the file `m`, a shelf and a sink of which these calls fail, each after ten bytes, the exit
/// status, and the files `c` and `l` afterwards.
struct Written {
    words: &'static str,
    model: &'static [u8],
    shelf_calls: &'static [u64],
    puts: &'static [u64],
    status: u8,
    cert: Option<&'static [u8]>,
    log: Option<&'static [u8]>,
}

const WRITTEN: [Written; 11] = [
    Written {
        words: "solve m --tasks=1 --cuts=no --cert=c",
        model: ODD,
        shelf_calls: &[],
        puts: &[],
        status: 0,
        cert: Some(CERT_OF_ODD),
        log: None,
    },
    // a dive closes no node, so that the certificate is the same without dives
    Written {
        words: "solve m --tasks=1 --cuts=no --cert=c --log=l",
        model: HALVES,
        shelf_calls: &[],
        puts: &[],
        status: 0,
        cert: Some(CERT_OF_HALVES),
        log: Some(LOG_OF_HALVES),
    },
    Written {
        words: "alone m --tasks=1 --cuts=no --heuristics=no --cert=c",
        model: HALVES,
        shelf_calls: &[],
        puts: &[],
        status: 0,
        cert: Some(CERT_OF_HALVES),
        log: None,
    },
    // two cuts are found before the first node
    Written {
        words: "solve m --tasks=1 --cert=c --log=l",
        model: COVER,
        shelf_calls: &[],
        puts: &[],
        status: 0,
        cert: Some(CERT_WITH_CUTS),
        log: Some(LOG_WITH_CUTS),
    },
    // a search that a limit ends has no certificate
    Written {
        words: "solve m --tasks=1 --work=0 --cert=c --log=l",
        model: ODD,
        shelf_calls: &[],
        puts: &[],
        status: 3,
        cert: None,
        log: Some(LOG_WITHOUT_WORK),
    },
    Written {
        words: "solve m --cert=c --log=l",
        model: ODD,
        shelf_calls: &[1],
        puts: &[],
        status: 6,
        cert: None,
        log: None,
    },
    Written {
        words: "solve m --cert=c --log=l",
        model: ODD,
        shelf_calls: &[2],
        puts: &[],
        status: 6,
        cert: Some(b"xsearch ce"),
        log: None,
    },
    Written {
        words: "solve m --cuts=no --cert=c --log=l",
        model: ODD,
        shelf_calls: &[3],
        puts: &[],
        status: 6,
        cert: Some(CERT_OF_ODD),
        log: Some(b"xsearch lo"),
    },
    Written {
        words: "solve m --tasks=1 --cuts=no --cert=c --log=l",
        model: HALVES,
        shelf_calls: &[4],
        puts: &[1],
        status: 7,
        cert: Some(CERT_OF_HALVES),
        log: Some(LOG_OF_HALVES),
    },
    Written {
        words: "check m c",
        model: ONE,
        shelf_calls: &[2],
        puts: &[],
        status: 6,
        cert: None,
        log: None,
    },
    Written {
        words: "solve m --cert=c --log=c",
        model: ODD,
        shelf_calls: &[],
        puts: &[],
        status: 2,
        cert: None,
        log: None,
    },
];

/// Whether a run ends as is told.
fn is_written<R: Host>(rt: &R, case: &Written) -> Result<bool, OutOfMemory> {
    let alloc = rt.alloc();
    let mut shelf = MemoryShelf::new(alloc, numbers(alloc, case.shelf_calls)?, 10);
    shelf.set(
        text(alloc, b"m")?,
        List::of(Vec::from_slice(alloc, case.model)?),
    )?;
    let mut out = MemorySink::new(alloc, numbers(alloc, case.puts)?, 10);
    let words = words(alloc, case.words)?;
    let code = run(rt, alloc, words.as_slice(), &mut shelf, &mut out, &OpenGate);
    Ok(
        code == case.status
            && shelf.file(&text(alloc, b"c")?) == case.cert
            && shelf.file(&text(alloc, b"l")?) == case.log,
    )
}

/// The number of the first run that ends otherwise.
fn first_other_files<R: Host>(rt: &R, cases: &[Written]) -> Result<Option<usize>, OutOfMemory> {
    for i in 0..cases.len() {
        if !is_written(rt, &cases[i])? {
            return Ok(Some(i));
        }
    }
    Ok(None)
}

#[test]
fn certificates_are_written(rt: HostRuntime) -> Result<(), Fail> {
    assert_eq!(rt; first_other_files(&rt, &WRITTEN)?, None);
    Ok(())
}
