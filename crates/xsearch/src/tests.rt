use crate::run;
use ip_core::{List, OutOfMemory, Text};
use std::alloc::Global;
use std::sync::Wait;
use std::test::Fail;
use std::thread::Threads;
use task_crew::OpenGate;
use xsearch_words::{SureShelf, SureSink};

/// One column, one cost.
pub(crate) const ONE: &[u8] =
    b"NAME one\nROWS\n N c\nCOLUMNS\n M 'MARKER' 'INTORG'\n x c 1\nBOUNDS\n UP b x 1\nENDATA\n";

const ONE_SHOWN: &[u8] =
    b"NAME one\nROWS\n N c\nCOLUMNS\n M 'MARKER' 'INTORG'\n x c 1\n M 'MARKER' 'INTEND'\nBOUNDS\n UP BND x 1\nENDATA\n";

pub(crate) const ONE_UNENDED: &[u8] =
    b"NAME one\nROWS\n N c\nCOLUMNS\n M 'MARKER' 'INTORG'\n x c 1\nBOUNDS\n UP b x 1\n";

const ONE_REPEATED: &[u8] =
    b"NAME one\nROWS\n N c\nCOLUMNS\n M 'MARKER' 'INTORG'\n x c 1 c 2\nBOUNDS\n UP b x 1\nENDATA\n";

/// The objective has the right-hand side 10.
const ONE_SHIFTED: &[u8] =
    b"NAME one\nROWS\n N c\nCOLUMNS\n M 'MARKER' 'INTORG'\n x c 1\nRHS\n r c 10\nBOUNDS\n UP b x 1\nENDATA\n";

pub(crate) const THREE: &[u8] =
    b"NAME three\nROWS\n N c\n L a\n L b\n L d\nCOLUMNS\n M 'MARKER' 'INTORG'\n x c -5 a 2\n x b 4 d 3\n y c -4 a 3\n y b 1 d 4\n z c -3 a 1\n z b 2 d 2\n M 'MARKER' 'INTEND'\nRHS\n r a 5 b 11\n r d 8\nBOUNDS\n UP k x 3\n UP k y 3\n UP k z 3\nENDATA\n";

/// 2x = 3 in whole numbers.
pub(crate) const ODD: &[u8] =
    b"NAME odd\nROWS\n N c\n E a\nCOLUMNS\n M 'MARKER' 'INTORG'\n x c 1 a 2\n M 'MARKER' 'INTEND'\nRHS\n r a 3\nBOUNDS\n UP k x 5\nENDATA\n";

/// 2x >= 3.
pub(crate) const COVER: &[u8] =
    b"NAME cover\nROWS\n N c\n G a\nCOLUMNS\n M 'MARKER' 'INTORG'\n x c 1 a 2\n M 'MARKER' 'INTEND'\nRHS\n r a 3\nBOUNDS\n UP k x 5\nENDATA\n";

/// 7x + 7y + 7z >= 8.
const SEVENS: &[u8] =
    b"NAME sevens\nROWS\n N c\n G a\nCOLUMNS\n M 'MARKER' 'INTORG'\n x c 3 a 7\n y c 3 a 7\n z c 3 a 7\n M 'MARKER' 'INTEND'\nRHS\n r a 8\nBOUNDS\n UP k x 1\n UP k y 1\n UP k z 1\nENDATA\n";

/// x + y = 2 without costs.
const PAIR: &[u8] =
    b"NAME pair\nROWS\n N c\n E a\nCOLUMNS\n M 'MARKER' 'INTORG'\n x a 1\n y a 1\n M 'MARKER' 'INTEND'\nRHS\n r a 2\nBOUNDS\n UP k x 1\n UP k y 1\nENDATA\n";

/// 2x + 2y + 2z = 3 in 0 to 1 without costs.
pub(crate) const HALVES: &[u8] =
    b"NAME halves\nROWS\n N c\n E a\nCOLUMNS\n M 'MARKER' 'INTORG'\n x a 2\n y a 2\n z a 2\n M 'MARKER' 'INTEND'\nRHS\n r a 3\nBOUNDS\n UP k x 1\n UP k y 1\n UP k z 1\nENDATA\n";

/// An equality row of 5 with the range -2: from 3 to 5.
const RANGE: &[u8] =
    b"NAME range\nROWS\n N c\n E a\nCOLUMNS\n M 'MARKER' 'INTORG'\n x c 1 a 1\n M 'MARKER' 'INTEND'\nRHS\n r a 5\nRANGES\n g a -2\nBOUNDS\n UP k x 9\nENDATA\n";

const RANGE_MAX: &[u8] =
    b"NAME range\nOBJSENSE\n MAX\nROWS\n N c\n E a\nCOLUMNS\n M 'MARKER' 'INTORG'\n x c 1 a 1\n M 'MARKER' 'INTEND'\nRHS\n r a 5\nRANGES\n g a -2\nBOUNDS\n UP k x 9\nENDATA\n";

/// The column has no bound.
pub(crate) const UNBOUNDED: &[u8] =
    b"NAME open\nROWS\n N c\n L a\nCOLUMNS\n M 'MARKER' 'INTORG'\n x c -1 a 1\n M 'MARKER' 'INTEND'\nRHS\n r a 20\nENDATA\n";

const UNBOUNDED_SHOWN: &[u8] =
    b"NAME open\nROWS\n N c\n L a\nCOLUMNS\n M 'MARKER' 'INTORG'\n x c -1\n x a 1\n M 'MARKER' 'INTEND'\nRHS\n RHS a 2e1\nENDATA\n";

/// A file in aligned columns, with a comment and carriage returns.
const PACKING: &[u8] =
    b"* small packing model\r\nNAME          PACK\r\nROWS\r\n N  PROFIT\r\n L  WEIGHT\r\nCOLUMNS\r\n    M1        'MARKER'                 'INTORG'\r\n    BOX       PROFIT         -2.25     WEIGHT             3\r\n    CAN       PROFIT         -1.50     WEIGHT             2\r\n    M2        'MARKER'                 'INTEND'\r\n    LID       PROFIT         -0.40     WEIGHT             1\r\nRHS\r\n    WEIGHT             7\r\nBOUNDS\r\n UP BND       BOX                4\r\n UP BND       CAN                4\r\n BV BND       LID\r\nENDATA\r\n";

/// A van of three goods, with decimals.
const TRADER: &[u8] =
    b"NAME TRADER\nOBJSENSE\n MAX\nROWS\n N PROFIT\n L WEIGHT\n L VOLUME\nCOLUMNS\n M1 'MARKER' 'INTORG'\n TEA PROFIT 41.50 WEIGHT 62.5\n TEA VOLUME 0.48\n OIL PROFIT 55.25 WEIGHT 118\n OIL VOLUME 0.31\n WOOL PROFIT 29.75 WEIGHT 21.25\n WOOL VOLUME 0.66\n M2 'MARKER' 'INTEND'\nRHS\n VAN PROFIT 85 WEIGHT 750\n VAN VOLUME 6.5\nBOUNDS\n UP STOCK TEA 9\n UP STOCK OIL 5\n UP STOCK WOOL 8\nENDATA\n";

/// Three lectures in three slots.
const TIMETABLE: &[u8] =
    b"NAME TIMETABLE\nROWS\n N DISLIKE\n E A\n E B\n E C\n L SLOT1\n L SLOT2\n L SLOT3\n L AB1\n L AB2\n L AB3\nCOLUMNS\n A1 DISLIKE 1 A 1\n A1 SLOT1 1 AB1 1\n A2 DISLIKE 4 A 1\n A2 SLOT2 1 AB2 1\n A3 DISLIKE 6 A 1\n A3 SLOT3 1 AB3 1\n B1 DISLIKE 2 B 1\n B1 SLOT1 1 AB1 1\n B2 DISLIKE 3 B 1\n B2 SLOT2 1 AB2 1\n B3 DISLIKE 7 B 1\n B3 SLOT3 1 AB3 1\n C1 DISLIKE 2 C 1\n C1 SLOT1 1\n C2 DISLIKE 3 C 1\n C2 SLOT2 1\n C3 DISLIKE 5 C 1\n C3 SLOT3 1\nRHS\n R A 1 B 1\n R C 1 SLOT1 2\n R SLOT2 2 SLOT3 2\n R AB1 1 AB2 1\n R AB3 1\nBOUNDS\n BV X A1\n BV X A2\n BV X A3\n BV X B1\n BV X B2\n BV X B3\n BV X C1\n BV X C2\n BV X C3\nENDATA\n";

/// Four shifts that cover a day.
const SHIFTS: &[u8] =
    b"NAME SHIFTS\nROWS\n N PAY\n G NIGHT\n G MORNING\n G NOON\n G EVENING\nCOLUMNS\n EARLY PAY 31.5 NIGHT 1\n EARLY MORNING 1\n DAY PAY 27 MORNING 1\n DAY NOON 1\n LATE PAY 30 NOON 1\n LATE EVENING 1\n OWL PAY 38.5 EVENING 1\n OWL NIGHT 1\nRHS\n NEED NIGHT 3 MORNING 5\n NEED NOON 6 EVENING 4\nRANGES\n SPARE EVENING 2\nBOUNDS\n UI STAFF EARLY 8\n UI STAFF DAY 8\n UI STAFF LATE 8\n UI STAFF OWL 8\nENDATA\n";

/// Four columns and two rows. Every point was tried for its best objective, and so for the next three models.
const FOUR: &[u8] =
    b"NAME four\nROWS\n N c\n L a0\n G a1\nCOLUMNS\n p c -6\n p a0 6\n q c -9\n q a0 6\n q a1 5\n r c -1\n r a0 -4\n r a1 3\n s c -2\n s a0 2\n s a1 2\nRHS\n R a0 4\n R a1 11\nBOUNDS\n LI B p 0\n UI B p 5\n LI B q 0\n UI B q 5\n LI B r 0\n UI B r 5\n LI B s 0\n UI B s 5\nENDATA\n";

const FOUR_MAX: &[u8] =
    b"NAME fourmax\nOBJSENSE\n MAX\nROWS\n N c\n L a0\n G a1\n L a2\nCOLUMNS\n p c -8\n p a0 -5\n q c 7\n q a0 -5\n q a1 5\n q a2 1\n r c -3\n r a0 6\n r a1 3\n r a2 5\n s c 4\n s a1 5\n s a2 5\nRHS\n R a0 12\n R a1 15\n R a2 8\nBOUNDS\n LI B p -3\n UI B p 3\n LI B q -3\n UI B q 3\n LI B r -3\n UI B r 3\n LI B s -3\n UI B s 3\nENDATA\n";

const FIVE: &[u8] =
    b"NAME five\nROWS\n N c\n G a0\n L a1\n L a2\nCOLUMNS\n p c -6\n p a1 3\n p a2 -4\n q c 5\n q a0 2\n q a2 -4\n r c 8\n r a0 4\n r a1 3\n r a2 1\n s c 1\n s a1 5\n s a2 1\n t c -9\n t a1 -3\n t a2 4\nRHS\n R a0 11\n R a1 3\n R a2 8\nBOUNDS\n LI B p -2\n UI B p 2\n LI B q -2\n UI B q 2\n LI B r -2\n UI B r 2\n LI B s -2\n UI B s 2\n LI B t -2\n UI B t 2\nENDATA\n";

const SIX_MAX: &[u8] =
    b"NAME sixmax\nOBJSENSE\n MAX\nROWS\n N c\n E a0\n G a1\nCOLUMNS\n p c 7\n p a0 6\n p a1 2\n q c 5\n q a0 4\n q a1 5\n r c -2\n r a0 7\n r a1 5\n s c 3\n s a0 -3\n t c 3\n t a0 1\n t a1 3\n u c 8\n u a0 2\nRHS\n R a0 12\n R a1 14\nBOUNDS\n LI B p 0\n UI B p 2\n LI B q 0\n UI B q 2\n LI B r 0\n UI B r 2\n LI B s 0\n UI B s 2\n LI B t 0\n UI B t 2\n LI B u 0\n UI B u 2\nENDATA\n";

/// What a run wants of the system: memory, threads, and to wait for them.
pub(crate) trait Host: AllocGlobal + Threads + Wait + Sync {}

impl<R: AllocGlobal + Threads + Wait + Sync> Host for R {}

/// Words over a file `m`, the exit status, and what is output.
struct Case {
    words: &'static str,
    model: &'static [u8],
    status: u8,
    output: &'static [u8],
}

pub(crate) fn text(alloc: Global, bytes: &[u8]) -> Result<Text, OutOfMemory> {
    Ok(Text::of(Vec::from_slice(alloc, bytes)?))
}

pub(crate) fn numbers(alloc: Global, values: &[u64]) -> Result<List<u64>, OutOfMemory> {
    Ok(List::of(Vec::from_slice(alloc, values)?))
}

pub(crate) fn words(alloc: Global, line: &str) -> Result<Vec<String>, OutOfMemory> {
    let mut words = Vec::new(alloc);
    for word in line.split_whitespace() {
        words.push(String::from_str(alloc, word)?)?;
    }
    Ok(words)
}

/// The exit status of a run over the file `m`, with what it puts out.
fn run_over<R: Host>(
    rt: &R,
    line: &str,
    model: &[u8],
    out: &mut SureSink,
) -> Result<u8, OutOfMemory> {
    let alloc = rt.alloc();
    let mut shelf = SureShelf::new(alloc);
    shelf.set(text(alloc, b"m")?, List::of(Vec::from_slice(alloc, model)?))?;
    let words = words(alloc, line)?;
    Ok(run(rt, alloc, words.as_slice(), &mut shelf, out, &OpenGate))
}

/// Whether a run over the file `m` ends with this status and prints this.
pub(crate) fn prints<R: Host>(
    rt: &R,
    line: &str,
    model: &[u8],
    status: u8,
    output: &[u8],
) -> Result<bool, OutOfMemory> {
    let alloc = rt.alloc();
    let mut out = SureSink::new(alloc);
    let code = run_over(rt, line, model, &mut out)?;
    Ok(code == status && out.bytes() == output)
}

/// The number of the first case that comes out otherwise.
fn first_failure<R: Host>(rt: &R, cases: &[Case]) -> Result<Option<usize>, OutOfMemory> {
    for i in 0..cases.len() {
        let case = &cases[i];
        if !prints(rt, case.words, case.model, case.status, case.output)? {
            return Ok(Some(i));
        }
    }
    Ok(None)
}

const CASES: [Case; 26] = [
    Case {
        words: "solve m",
        model: ONE,
        status: 0,
        output: b"status optimal\nobjective 0\nx = 0\n",
    },
    Case {
        words: "solve m",
        model: THREE,
        status: 0,
        output: b"status optimal\nobjective -13\nx = 2\ny = 0\nz = 1\n",
    },
    Case {
        words: "solve m",
        model: ODD,
        status: 0,
        output: b"status infeasible\n",
    },
    Case {
        words: "solve m",
        model: PAIR,
        status: 0,
        output: b"status optimal\nobjective 0\nx = 1\ny = 1\n",
    },
    Case {
        words: "solve m",
        model: ONE_SHIFTED,
        status: 0,
        output: b"status optimal\nobjective -10\nx = 0\n",
    },
    Case {
        words: "solve m",
        model: RANGE,
        status: 0,
        output: b"status optimal\nobjective 3\nx = 3\n",
    },
    Case {
        words: "solve m",
        model: RANGE_MAX,
        status: 0,
        output: b"status optimal\nobjective 5\nx = 5\n",
    },
    Case {
        words: "solve m",
        model: PACKING,
        status: 0,
        output: b"status optimal\nobjective -5.25\nBOX = 1\nCAN = 2\nLID = 0\n",
    },
    Case {
        words: "solve m",
        model: UNBOUNDED,
        status: 5,
        output: b"refused model kind 3 index 0\n",
    },
    Case {
        words: "solve --default-upper=9 m",
        model: UNBOUNDED,
        status: 0,
        output: b"status optimal\nobjective -9\nx = 9\n",
    },
    // The root counts 1, a pass of 4 and 20 rounds of 10. The multiplier is 439, the bound 4.
    Case {
        words: "solve m --tasks=1 --cuts=no --work=205",
        model: SEVENS,
        status: 3,
        output: b"status worklimit\nobjective none\n",
    },
    Case {
        words: "solve m --tasks=1 --cuts=no --work=206",
        model: SEVENS,
        status: 3,
        output: b"status worklimit\nobjective 9\nx = 1\ny = 1\nz = 1\n",
    },
    // One column counts 1, a pass of 1 and twelve rounds of 1.
    Case {
        words: "solve m --tasks=1 --work=14",
        model: ONE,
        status: 3,
        output: b"status worklimit\nobjective none\n",
    },
    Case {
        words: "solve m --tasks=1 --work=15",
        model: ONE,
        status: 0,
        output: b"status optimal\nobjective 0\nx = 0\n",
    },
    Case {
        words: "solve m",
        model: ONE_UNENDED,
        status: 5,
        output: b"refused mps line 9 kind 14\n",
    },
    Case {
        words: "show m",
        model: ONE_REPEATED,
        status: 5,
        output: b"refused mps line 6 kind 10\n",
    },
    Case {
        words: "show m",
        model: ONE,
        status: 0,
        output: ONE_SHOWN,
    },
    Case {
        words: "show m",
        model: UNBOUNDED,
        status: 0,
        output: UNBOUNDED_SHOWN,
    },
    Case {
        words: "solve",
        model: ONE,
        status: 2,
        output: b"refused words\n",
    },
    Case {
        words: "show m --work=1",
        model: ONE,
        status: 2,
        output: b"refused words\n",
    },
    Case {
        words: "gen m",
        model: ONE,
        status: 2,
        output: b"refused words\n",
    },
    Case {
        words: "alone m --default-upper=7",
        model: THREE,
        status: 0,
        output: b"status optimal\nobjective -13\nx = 2\ny = 0\nz = 1\n",
    },
    Case {
        words: "solve m --tasks=65",
        model: ONE,
        status: 2,
        output: b"refused words\n",
    },
    Case {
        words: "solve m --tasks=64 --store=65537",
        model: ONE,
        status: 2,
        output: b"refused words\n",
    },
    Case {
        words: "check m",
        model: ONE,
        status: 2,
        output: b"refused words\n",
    },
    Case {
        words: "solve m --log=m",
        model: ONE,
        status: 2,
        output: b"refused words\n",
    },
];

#[test]
fn answers_and_refusals(rt: HostRuntime) -> Result<(), Fail> {
    assert_eq!(rt; first_failure(&rt, &CASES)?, None);
    Ok(())
}

/// The canonical text of a model without a name, which packs 7 with one count at least.
const DRESSED_SHOWN: &[u8] =
    b"ROWS\n N cost\n L weight\n G count\nCOLUMNS\n M 'MARKER' 'INTORG'\n x cost -2.25\n x weight 3\n x count 1\n y cost -1.5\n y weight 2\n y count 1\n z cost -0.4\n z weight 1\n M 'MARKER' 'INTEND'\nRHS\n RHS weight 7\n RHS count 1\nRANGES\n RNG weight 7\nBOUNDS\n UP BND x 4\n UP BND y 4\n LO BND z 0\n UP BND z 1\nENDATA\n";

const DRESSED_ANSWER: &[u8] = b"status optimal\nobjective -5.25\nx = 1\ny = 2\nz = 0\n";

/// That model in other dressings.
const DRESSINGS: [&[u8]; 10] = [
    DRESSED_SHOWN,
    // in aligned columns
    b"NAME\nROWS\n N  cost\n L  weight\n G  count\nCOLUMNS\n    M1        'MARKER'                 'INTORG'\n    x         cost           -2.25   weight             3\n    x         count              1\n    y         cost           -1.50   weight             2\n    y         count              1\n    z         cost           -0.40   weight             1\n    M2        'MARKER'                 'INTEND'\nRHS\n    S         weight             7   count              1\nRANGES\n    R         weight             7\nBOUNDS\n UP B         x                  4\n UP B         y                  4\n BV B         z\nENDATA\n",
    // one blank between fields, set names left out
    b"ROWS\n N cost\n L weight\n G count\nCOLUMNS\n M 'MARKER' 'INTORG'\n x cost -2.25 weight 3\n x count 1\n y cost -1.5 weight 2\n y count 1\n z cost -.4 weight 1\nRHS\n weight 7 count 1\nRANGES\n weight 7\nBOUNDS\n UP x 4\n UP y 4\n BV z\nENDATA\n",
    // carriage returns, blank lines and comments
    b"* packing\r\nNAME\r\n\r\nROWS\r\n N cost\r\n L weight\r\n*\xff\r\n G count\r\nCOLUMNS\r\n M 'MARKER' 'INTORG'\r\n x cost -2.25 weight 3\r\n x count 1\r\n y cost -1.5 weight 2\r\n y count 1\r\n z cost -0.4 weight 1\r\n M 'MARKER' 'INTEND'\r\n \r\nRHS\r\n S weight 7 count 1\r\nRANGES\r\n R weight 7\r\nBOUNDS\r\n UP B x 4\r\n UP B y 4\r\n BV B z\r\nENDATA\r\n",
    // tabs
    b"NAME\nROWS\n\tN\tcost\n\tL\tweight\n\tG\tcount\nCOLUMNS\n\tM\t'MARKER'\t'INTORG'\n\tx\tcost\t-2.25\tweight\t3\n\tx\tcount\t1\n\ty\tcost\t-1.5\tweight\t2\n\ty\tcount\t1\n\tz\tcost\t-0.4\tweight\t1\nRHS\n\tS\tweight\t7\tcount\t1\nRANGES\n\tR\tweight\t7\nBOUNDS\n\tUP\tB\tx\t4\n\tUP\tB\ty\t4\n\tBV\tB\tz\nENDATA\n",
    // sections in another order
    b"ROWS\n N cost\n L weight\n G count\nCOLUMNS\n M 'MARKER' 'INTORG'\n x cost -2.25 weight 3\n x count 1\n y cost -1.5 weight 2\n y count 1\n z cost -0.4 weight 1\nBOUNDS\n UP B x 4\n UP B y 4\n BV B z\nRANGES\n R weight 7\nRHS\n S count 1 weight 7\nENDATA\n",
    // exponents
    b"ROWS\n N cost\n L weight\n G count\nCOLUMNS\n M 'MARKER' 'INTORG'\n x cost -225D-2 weight .3E+1\n x count 1d0\n y cost -.15e1 weight 2.\n y count 0.1D1\n z cost -4.00e-1 weight +1\nRHS\n S weight 70e-1 count 01\nRANGES\n R weight 7e0\nBOUNDS\n UP B x 4.0\n UP B y +4\n BV B z\nENDATA\n",
    // integer columns by their bounds, without markers
    b"ROWS\n N cost\n L weight\n G count\nCOLUMNS\n x cost -2.25 weight 3\n x count 1\n y cost -1.5 weight 2\n y count 1\n z cost -0.4 weight 1\nRHS\n S weight 7 count 1\nRANGES\n R weight 7\nBOUNDS\n UI B x 4\n UI B y 4\n BV B z\nENDATA\n",
    // the sense, rows without right-hand side that are dropped, other sets, and bounds that are replaced
    b"OBJSENSE MIN\nROWS\n N cost\n L weight\n N free\n G count\nCOLUMNS\n M 'MARKER' 'INTORG'\n x free 5 cost -2.25\n x weight 3 count 1\n y cost -1.5 weight 2\n y count 1 free 0\n z cost -0.4 weight 1\nRHS\n S weight 7 count 1\n T weight 3\nRANGES\n R weight 7\n Q count 2\nBOUNDS\n UP B x 9\n UP B y 4\n LI B z 0\n UP B z 1\n UP C y 1\n UP B x 4\nENDATA\n",
    // an entry of zero, and no line feed at the end of the last line
    b"NAME\nOBJSENSE\n MINIMIZE\nROWS\n N cost\n L weight\n G count\nCOLUMNS\n M 'MARKER' 'INTORG'\n x cost -2.25 weight 3\n x count 1\n y cost -1.5 weight 2\n y count 1\n z cost -0.4 weight 1\n z count 0\nRHS\n S weight 7 count 1\nRANGES\n R weight 7\nBOUNDS\n UP B x 4\n UP B y 4\n BV B z\nENDATA",
];

/// The number of the first dressing that isn't shown or answered as the others.
fn first_other<R: Host>(rt: &R, models: &[&[u8]]) -> Result<Option<usize>, OutOfMemory> {
    for i in 0..models.len() {
        if !prints(rt, "show m", models[i], 0, DRESSED_SHOWN)? {
            return Ok(Some(i));
        }
        if !prints(rt, "solve m", models[i], 0, DRESSED_ANSWER)? {
            return Ok(Some(i));
        }
    }
    Ok(None)
}

#[test]
fn one_model_in_many_dressings(rt: HostRuntime) -> Result<(), Fail> {
    assert_eq!(rt; first_other(&rt, &DRESSINGS)?, None);
    Ok(())
}

/// Whether a file of so many bytes is answered so.
fn is_length_answer<R: Host>(rt: &R, len: usize, output: &[u8]) -> Result<bool, OutOfMemory> {
    let alloc = rt.alloc();
    let model = vec![in alloc; b'x'; len]?;
    prints(rt, "solve m", model.as_slice(), 5, output)
}

#[test]
fn a_file_too_long(rt: HostRuntime) -> Result<(), Fail> {
    let alloc = rt.alloc();
    assert!(rt; is_length_answer(&rt, 16_777_216, b"refused mps line 1 kind 3\n")?);
    assert!(rt; is_length_answer(&rt, 16_777_217, b"refused length\n")?);
    Ok(())
}

/// Whether one piece follows another in a text.
pub(crate) fn has(text: &[u8], piece: &[u8]) -> bool {
    for at in 0..text.len() {
        if text[at..].starts_with(piece) {
            return true;
        }
    }
    false
}

/// Whether `gen 1` ends with status 0 and puts this piece.
fn generates<R: Host>(rt: &R, piece: &[u8]) -> Result<bool, OutOfMemory> {
    let alloc = rt.alloc();
    let mut shelf = SureShelf::new(alloc);
    let mut out = SureSink::new(alloc);
    let words = words(alloc, "gen 1")?;
    let code = run(rt, alloc, words.as_slice(), &mut shelf, &mut out, &OpenGate);
    Ok(code == 0 && has(out.bytes(), piece))
}

#[test]
fn a_sample_model(rt: HostRuntime) -> Result<(), Fail> {
    assert!(rt; generates(&rt, b"\nBOUNDS\n UP BND C0 3\n")?);
    Ok(())
}

/// A model, and how its answer begins with an upper bound of 9 where the file gives none.
struct Solved {
    model: &'static [u8],
    begins: &'static [u8],
}

const SOLVED: [Solved; 16] = [
    Solved {
        model: ONE,
        begins: b"status optimal\nobjective 0\n",
    },
    Solved {
        model: THREE,
        begins: b"status optimal\nobjective -13\n",
    },
    Solved {
        model: ODD,
        begins: b"status infeasible\n",
    },
    Solved {
        model: COVER,
        begins: b"status optimal\nobjective 2\n",
    },
    Solved {
        model: PAIR,
        begins: b"status optimal\nobjective 0\n",
    },
    Solved {
        model: RANGE,
        begins: b"status optimal\nobjective 3\n",
    },
    Solved {
        model: RANGE_MAX,
        begins: b"status optimal\nobjective 5\n",
    },
    Solved {
        model: PACKING,
        begins: b"status optimal\nobjective -5.25\n",
    },
    Solved {
        model: UNBOUNDED,
        begins: b"status optimal\nobjective -9\n",
    },
    Solved {
        model: TRADER,
        begins: b"status optimal\nobjective 405.25\n",
    },
    Solved {
        model: TIMETABLE,
        begins: b"status optimal\nobjective 6\n",
    },
    Solved {
        model: SHIFTS,
        begins: b"status optimal\nobjective 268.5\n",
    },
    Solved {
        model: FOUR,
        begins: b"status optimal\nobjective -41\n",
    },
    Solved {
        model: FOUR_MAX,
        begins: b"status optimal\nobjective 66\n",
    },
    Solved {
        model: FIVE,
        begins: b"status optimal\nobjective -6\n",
    },
    Solved {
        model: SIX_MAX,
        begins: b"status optimal\nobjective 37\n",
    },
];

/// The number of the first model that these words don't solve.
fn first_unsolved<R: Host>(
    rt: &R,
    line: &str,
    models: &[Solved],
) -> Result<Option<usize>, OutOfMemory> {
    let alloc = rt.alloc();
    for i in 0..models.len() {
        let solved = &models[i];
        let mut out = SureSink::new(alloc);
        let code = run_over(rt, line, solved.model, &mut out)?;
        if code != 0 || !out.bytes().starts_with(solved.begins) {
            return Ok(Some(i));
        }
    }
    Ok(None)
}

/// Words by which each of these models is solved.
const SOLVING: [&str; 12] = [
    "solve m --default-upper=9 --store=16384 --tasks=1",
    "solve m --default-upper=9 --store=16384 --tasks=1 --cuts=no",
    "solve m --default-upper=9 --store=16384 --tasks=2 --cuts=no",
    "solve m --default-upper=9 --store=16384 --tasks=3 --cuts=yes",
    "solve m --default-upper=9 --store=16384 --tasks=5",
    "alone m --default-upper=9 --tasks=9 --cuts=no",
    "alone m --default-upper=9 --tasks=64",
    "alone m --default-upper=9 --tasks=64 --cuts=no",
    "solve m --default-upper=9 --store=16384 --tasks=1 --heuristics=no",
    "solve m --default-upper=9 --store=16384 --tasks=1 --cuts=no --heuristics=no",
    "alone m --default-upper=9 --tasks=4 --heuristics=yes",
    "solve m --default-upper=9 --store=16384 --tasks=7 --cuts=no --heuristics=no",
];

#[test]
fn one_objective_with_all_numbers_of_tasks(rt: HostRuntime) -> Result<(), Fail> {
    for line in SOLVING {
        assert_eq!(rt; first_unsolved(&rt, line, &SOLVED)?, None);
    }
    Ok(())
}
