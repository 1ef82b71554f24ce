ghost use Rattle.std.specs.Prelude.{◌≤◌, ◌^◌, length, IfOk};
ghost use Rattle.width_admit.specs.Gathered.{AreColumns};

use ip_core::{Model, Name, OutOfMemory, Row, Text, decimal};
use mps_model::MpsModel;
use mps_read::read;
use std::alloc::Global;
use std::test::Fail;
use width_admit::{AdmitError, admit};

/// What a case is: the lines of its rows below the objective `c`, its lines from its integer columns on, and the number and
/// the index of its refusal, or None where it is admitted. Columns after a `@` are continuous.
type Case = (&'static str, &'static str, Option<(u8, u32)>);

/// Each reason with its bounds, at the limit and one past it, where no high is given.
const ALONE: [Case; 57] = [
    ("", "@ x c 1\nBOUNDS\n UP b x 1\n", Some((1, 0))),
    ("", " x c 1\nBOUNDS\n UP b x -1\n", Some((2, 0))),
    ("", " x c 1\nBOUNDS\n UP b x -0.5\n", Some((2, 0))),
    ("", " x c 1\nBOUNDS\n UP b x -0\n", None),
    ("", " x c 1\nBOUNDS\n UP b x 0\n", None),
    ("", " x c 1\nBOUNDS\n FX b x -1\n", None),
    ("", " x c 1\nBOUNDS\n LO b x -3\n UP b x -1\n", None),
    ("", " x c 1\n", Some((3, 0))),
    ("", " x c 1\nBOUNDS\n PL b x\n", Some((3, 0))),
    ("", " x c 1\nBOUNDS\n UP b x 1e20\n", Some((3, 0))),
    ("", " x c 1\nBOUNDS\n MI b x\n UP b x 3\n", Some((3, 0))),
    ("", " x c 1\nBOUNDS\n UP b x 2147483648\n", None),
    ("", " x c 1\nBOUNDS\n UP b x 2147483649\n", Some((4, 0))),
    ("", " x c 1\nBOUNDS\n UP b x 2147483648.5\n", None),
    ("", " x c 1\nBOUNDS\n UP b x 99e18\n", Some((4, 0))),
    ("", " x c 1\nBOUNDS\n LO b x -2147483648\n UP b x 0\n", None),
    (
        "",
        " x c 1\nBOUNDS\n LO b x -2147483648.5\n UP b x 0\n",
        None,
    ),
    (
        "",
        " x c 1\nBOUNDS\n LO b x -2147483649\n UP b x 0\n",
        Some((4, 0)),
    ),
    ("", " x c 1\nBOUNDS\n FX b x 1e400\n", Some((3, 0))),
    ("", " x c 1\nBOUNDS\n LO b x 0.5\n UP b x 0.7\n", None),
    (" L a\n", "RHS\n r a 1e-9\n", None),
    (" L a\n", "RHS\n r a 1e-10\n", Some((8, 0))),
    (" L a\n", "RHS\n r a 1\nRANGES\n r a 1e-9\n", None),
    (" L a\n", "RHS\n r a 1\nRANGES\n r a 1e-10\n", Some((8, 0))),
    (" G a\n", "RHS\n r a 1\nRANGES\n r a 1e-10\n", Some((8, 0))),
    (" E a\n", "RHS\n r a 1\nRANGES\n r a -1e-10\n", Some((8, 0))),
    (" L a\n", " x a 1e-9\nBOUNDS\n UP b x 1\n", None),
    (" L a\n", " x a 1e-10\nBOUNDS\n UP b x 1\n", Some((8, 0))),
    (" L a\n", " x a 1e-18\nBOUNDS\n UP b x 1\n", Some((8, 0))),
    (" G a\n", " x a 33554432\nBOUNDS\n UP b x 33554432\n", None),
    (
        " G a\n",
        " x a 33554432\nRHS\n r a 1\nBOUNDS\n UP b x 33554432\n",
        Some((9, 0)),
    ),
    (
        " G a\n",
        " x a 33554432\nRHS\n r a -1\nBOUNDS\n UP b x 33554432\n",
        Some((9, 0)),
    ),
    (" G a\n", " x a 1125899906842624\nBOUNDS\n UP b x 0\n", None),
    (
        " G a\n",
        " x a 1125899906842625\nBOUNDS\n UP b x 0\n",
        Some((9, 0)),
    ),
    (
        " G a\n",
        " x a 375299968947541\nBOUNDS\n LO b x -3\n UP b x 1\n",
        None,
    ),
    (
        " G a\n",
        " x a 375299968947542\nBOUNDS\n LO b x -3\n UP b x 1\n",
        Some((9, 0)),
    ),
    (
        " L a\n",
        "RHS\n r a 1125899906842624\nRANGES\n r a 1125899906842625\n",
        None,
    ),
    (" L a\n", "RANGES\n r a 1125899906842624\n", None),
    (" L a\n", "RANGES\n r a 1125899906842625\n", Some((9, 0))),
    (" G a\n", "RANGES\n r a 1125899906842625\n", Some((9, 0))),
    (
        " E a\n",
        "RHS\n r a 1\nRANGES\n r a 1125899906842623\n",
        None,
    ),
    (
        " E a\n",
        "RHS\n r a 1\nRANGES\n r a 1125899906842624\n",
        Some((9, 0)),
    ),
    (" E a\n", "RANGES\n r a -1125899906842625\n", Some((9, 0))),
    (" E a\n", "RHS\n r a 112589990684262.4\n", None),
    (" E a\n", "RHS\n r a 112589990684262.5\n", Some((9, 0))),
    (
        " L a\n",
        "RHS\n r a 1e400\nRANGES\n r a -1e400\n",
        Some((9, 0)),
    ),
    (" L a\n", " x a 1e400\nBOUNDS\n UP b x 0\n", Some((9, 0))),
    ("", "RHS\n r c 1e-9\n", None),
    ("", "RHS\n r c 1e-10\n", Some((10, 0))),
    ("", "RHS\n r c 1125899906842624\n", None),
    ("", "RHS\n r c 1125899906842625\n", Some((10, 0))),
    ("", " x c 1e-9\nBOUNDS\n UP b x 1\n", None),
    ("", " x c 1e-10\nBOUNDS\n UP b x 1\n", Some((10, 0))),
    ("", " x c 33554432\nBOUNDS\n UP b x 33554432\n", None),
    (
        "",
        " x c 33554432\nRHS\n r c 1\nBOUNDS\n UP b x 33554432\n",
        Some((10, 0)),
    ),
    (
        "",
        " x c 1125899906842624\nRHS\n r c 1\nBOUNDS\n UP b x 0\n",
        Some((10, 0)),
    ),
    ("", " x c 1e400\nBOUNDS\n UP b x 0\n", Some((10, 0))),
];

/// Two reasons at once, of which the least counts, and two offenders for one reason, of which the first counts.
const TOGETHER: [Case; 28] = [
    (
        "",
        " x c 1\n@ y c 1\n z c 1\nBOUNDS\n UP b x 1\n",
        Some((1, 1)),
    ),
    ("", " x c 1\n@ y c 1\nBOUNDS\n UP b x -1\n", Some((1, 1))),
    ("", " x c 1\n@ y c 1\nBOUNDS\n UP b y 1\n", Some((1, 1))),
    (
        "",
        " x c 1\n@ y c 1\nBOUNDS\n UP b x 3e9\n UP b y 1\n",
        Some((1, 1)),
    ),
    (
        " L a\n",
        "@ y c 1\nRHS\n r a 1e-10\nBOUNDS\n UP b y 1\n",
        Some((1, 0)),
    ),
    (
        " L a\n",
        "@ y c 1\nRHS\n r a 1e30\nBOUNDS\n UP b y 1\n",
        Some((1, 0)),
    ),
    (
        "",
        "@ y c 1\nRHS\n r c 1e30\nBOUNDS\n UP b y 1\n",
        Some((1, 0)),
    ),
    (
        "",
        " x c 1\n y c 1\nBOUNDS\n UP b y -2\n UP b x 0\n",
        Some((2, 1)),
    ),
    (
        "",
        " x c 1\n y c 1\nBOUNDS\n UP b y -2\n UP b x -1\n",
        Some((2, 0)),
    ),
    ("", " x c 1\n y c 1\nBOUNDS\n UP b y -2\n", Some((2, 1))),
    (
        "",
        " x c 1\n y c 1\nBOUNDS\n UP b y -2\n UP b x 3e9\n",
        Some((2, 1)),
    ),
    ("", " x c 1\nBOUNDS\n UP b x -3e9\n", Some((2, 0))),
    (
        " L a\n",
        " x c 1\nRHS\n r a 1e-10\nBOUNDS\n UP b x -1\n",
        Some((2, 0)),
    ),
    (
        " L a\n",
        " x c 1\nRHS\n r a 1e30\nBOUNDS\n UP b x -1\n",
        Some((2, 0)),
    ),
    (
        "",
        " x c 1\nRHS\n r c 1e30\nBOUNDS\n UP b x -1\n",
        Some((2, 0)),
    ),
    (
        "",
        " x c 1\n y c 1\n z c 1\nBOUNDS\n UP b x 3e9\n",
        Some((3, 1)),
    ),
    ("", " x c 1\nBOUNDS\n MI b x\n UP b x 3e9\n", Some((3, 0))),
    (" L a\n", " x c 1\nRHS\n r a 1e-10\n", Some((3, 0))),
    (" L a\n", " x c 1\nRHS\n r a 1e30\n", Some((3, 0))),
    ("", " x c 1\nRHS\n r c 1e30\n", Some((3, 0))),
    (
        "",
        " x c 1\n y c 1\nBOUNDS\n UP b x 1\n UP b y 3e9\n",
        Some((4, 1)),
    ),
    (
        " L a\n",
        " x c 1\nRHS\n r a 1e-10\nBOUNDS\n UP b x 3e9\n",
        Some((4, 0)),
    ),
    (
        " L a\n",
        " x c 1\nRHS\n r a 1e30\nBOUNDS\n UP b x 3e9\n",
        Some((4, 0)),
    ),
    (
        "",
        " x c 1\nRHS\n r c 1e30\nBOUNDS\n UP b x 3e9\n",
        Some((4, 0)),
    ),
    (" L a\n L b\n", "RHS\n r a 1e30\n r b 1e-10\n", Some((8, 1))),
    (
        " L a\n L b\n L d\n",
        "RHS\n r b 1e-10\n r d 1e-11\n r c 1e30\n",
        Some((8, 1)),
    ),
    (
        " L a\n L b\n L d\n",
        "RHS\n r b 1e30\n r d 1e30\n r a 1\n",
        Some((9, 1)),
    ),
    (" L a\n L b\n", "RHS\n r b 1e30\n r c 1e30\n", Some((9, 1))),
];

/// A given high, and a case with it.
type Given = (u32, Case);

const GIVEN: [Given; 9] = [
    (9, ("", " x c 1\n", None)),
    (9, ("", " x c 1\nBOUNDS\n PL b x\n", None)),
    (3, ("", " x c 1\nBOUNDS\n LO b x 5\n", None)),
    (9, ("", " x c 1\nBOUNDS\n MI b x\n", Some((3, 0)))),
    (9, ("", " x c 1\nBOUNDS\n FR b x\n", Some((3, 0)))),
    (
        9,
        ("", " x c 1\nBOUNDS\n MI b x\n UP b x 3\n", Some((3, 0))),
    ),
    (2147483648, ("", " x c 1\n", None)),
    (2147483649, ("", " x c 1\n", Some((4, 0)))),
    (2147483649, ("", " x c 1\nBOUNDS\n UP b x 3\n", None)),
];

fn append(text: &mut Text, part: &str) -> Result<(), OutOfMemory> {
    for byte in part.as_bytes() {
        if *byte == b'@' {
            text.extend(b" M 'MARKER' 'INTEND'\n")?;
        } else {
            text.push(*byte)?;
        }
    }
    Ok(())
}

/// The file of these lines of rows and these lines from the integer columns on.
fn file(alloc: Global, rows: &str, rest: &str) -> Result<Text, OutOfMemory> {
    let mut text = Text::new(alloc);
    append(&mut text, "NAME T\nROWS\n N c\n")?;
    append(&mut text, rows)?;
    append(&mut text, "COLUMNS\n M 'MARKER' 'INTORG'\n")?;
    append(&mut text, rest)?;
    append(&mut text, "ENDATA\n")?;
    Ok(text)
}

/// The model of a file. A file that is refused, or longer than a megabyte, gives the same error as want of memory.
fn model_of(alloc: Global, file: &Text) -> Result<MpsModel, OutOfMemory>
    ensures columns { IfOk result (λ m. AreColumns (length m.rows) m.cols) }
    ensures rows { IfOk result (λ m. length m.rows ≤ 2 ^ 30) }
    ensures cols { IfOk result (λ m. length m.cols ≤ 2 ^ 30) }
{
    if file.len() > 1_000_000 {
        return Err(OutOfMemory);
    }
    match read(alloc, file.as_slice()) {
        Ok(model) => Ok(model),
        Err(_) => Err(OutOfMemory),
    }
}

/// The number and the index of what an error tells.
fn refusal_of(error: AdmitError) -> Result<(u8, u32), OutOfMemory> {
    match error.refusal() {
        Some(refusal) => Ok((refusal.kind(), refusal.index())),
        None => Err(OutOfMemory),
    }
}

/// The number and the index of the refusal, or None where the model is admitted.
fn refusal(
    alloc: Global,
    file: &Text,
    upper: Option<u32>,
) -> Result<Option<(u8, u32)>, OutOfMemory> {
    let mps = model_of(alloc, file)?;
    match admit(alloc, &mps, upper) {
        Ok(_) => Ok(None),
        Err(error) => Ok(Some(refusal_of(error)?)),
    }
}

/// Whether a case is refused as it says, under a given high.
fn is_refused_so(alloc: Global, case: Case, upper: Option<u32>) -> Result<bool, OutOfMemory> {
    let (rows, rest, want) = case;
    let file = file(alloc, rows, rest)?;
    Ok(refusal(alloc, &file, upper)? == want)
}

/// The first case that isn't refused as it says, where no high is given.
fn first_wrong(alloc: Global, cases: &[Case]) -> Result<Option<usize>, OutOfMemory> {
    for at in 0..cases.len() {
        if !is_refused_so(alloc, cases[at], None)? {
            return Ok(Some(at));
        }
    }
    Ok(None)
}

#[test]
fn refuses_each_reason_past_its_limit(rt: HostRuntime) -> Result<(), Fail> {
    let alloc = rt.alloc();
    assert_eq!(rt; first_wrong(alloc, ALONE.as_slice())?, None);
    Ok(())
}

#[test]
fn refuses_the_least_kind_and_then_the_first(rt: HostRuntime) -> Result<(), Fail> {
    let alloc = rt.alloc();
    assert_eq!(rt; first_wrong(alloc, TOGETHER.as_slice())?, None);
    Ok(())
}

/// The same under given highs.
fn first_given_wrong(alloc: Global, cases: &[Given]) -> Result<Option<usize>, OutOfMemory> {
    for at in 0..cases.len() {
        let (upper, case) = cases[at];
        if !is_refused_so(alloc, case, Some(upper))? {
            return Ok(Some(at));
        }
    }
    Ok(None)
}

#[test]
fn gives_a_high_where_there_is_none(rt: HostRuntime) -> Result<(), Fail> {
    let alloc = rt.alloc();
    assert_eq!(rt; first_given_wrong(alloc, GIVEN.as_slice())?, None);
    Ok(())
}

/// A large file: the lines of its columns before the integer ones, the kind of its rows, how many rows and integer columns it
/// has, how many entries each of these has, one a row from the first on, and the last of them, and the lines after them.
type Large = (&'static str, u8, [u32; 4], &'static str, Option<(u8, u32)>);

/// Numbers of columns, rows and terms at their limits and one past them.
const LARGE: [Large; 12] = [
    ("", b'L', [4096, 4096, 0, 0], "", None),
    ("", b'L', [1, 4097, 0, 0], "", Some((5, 0))),
    ("", b'G', [4097, 1, 0, 0], "", Some((6, 0))),
    ("", b'E', [2048, 1, 0, 0], "", None),
    ("", b'E', [2049, 1, 0, 0], "", Some((6, 0))),
    ("", b'L', [17, 4096, 16, 16], "", None),
    ("", b'L', [17, 4096, 16, 17], "", Some((7, 0))),
    ("", b'E', [9, 4096, 8, 8], "", None),
    ("", b'E', [9, 4096, 8, 9], "", Some((7, 0))),
    ("", b'L', [4097, 4097, 0, 0], "", Some((5, 0))),
    ("", b'L', [17, 4097, 17, 17], "", Some((5, 0))),
    ("", b'L', [4097, 4096, 17, 17], "", Some((6, 0))),
];

/// A cause of each other kind: lines before the integer columns, lines after them, and the number of the kind.
const BESIDES: [(&str, &str, u8); 7] = [
    (" y c 1\n", "", 1),
    ("", "BOUNDS\n UP b x0 -1\n", 2),
    ("", "BOUNDS\n MI b x0\n", 3),
    ("", "BOUNDS\n UP b x0 3e9\n", 4),
    ("", "RHS\n r a0 1e-10\n", 8),
    ("", "RHS\n r a0 1e30\n", 9),
    ("", "RHS\n r c 1e30\n", 10),
];

/// A letter and a number.
fn append_name(text: &mut Text, alloc: Global, letter: u8, number: u32) -> Result<(), OutOfMemory> {
    let digits = decimal::text(alloc, i128::from(number), 0)?;
    text.push(b' ')?;
    text.push(letter)?;
    text.extend(digits.as_slice())
}

fn append_column(
    text: &mut Text,
    alloc: Global,
    col: u32,
    entries: u32,
) -> Result<(), OutOfMemory> {
    append_name(text, alloc, b'x', col)?;
    append(text, " c 0\n")?;
    for row in 0..entries {
        append_name(text, alloc, b'x', col)?;
        append_name(text, alloc, b'a', row)?;
        append(text, " 1\n")?;
    }
    Ok(())
}

fn large_file(
    alloc: Global,
    front: &str,
    kind: u8,
    size: [u32; 4],
    rest: &str,
) -> Result<Text, OutOfMemory> {
    let [rows, cols, entries, last] = size;
    let mut text = Text::new(alloc);
    append(&mut text, "ROWS\n N c\n")?;
    for row in 0..rows {
        text.push(b' ')?;
        text.push(kind)?;
        append_name(&mut text, alloc, b'a', row)?;
        text.push(b'\n')?;
    }
    append(&mut text, "COLUMNS\n")?;
    append(&mut text, front)?;
    append(&mut text, " M 'MARKER' 'INTORG'\n")?;
    for col in 0..cols {
        let count = if col < cols - 1 { entries } else { last };
        append_column(&mut text, alloc, col, count)?;
    }
    append(&mut text, rest)?;
    append(&mut text, "ENDATA\n")?;
    Ok(text)
}

/// The first large file that isn't refused as it says.
fn first_large_wrong(alloc: Global, cases: &[Large]) -> Result<Option<usize>, OutOfMemory> {
    for at in 0..cases.len() {
        let (front, kind, size, rest, want) = cases[at];
        let file = large_file(alloc, front, kind, size, rest)?;
        if refusal(alloc, &file, Some(1))? != want {
            return Ok(Some(at));
        }
    }
    Ok(None)
}

#[test]
fn limits_columns_and_rows_and_terms(rt: HostRuntime) -> Result<(), Fail> {
    let alloc = rt.alloc();
    assert_eq!(rt; first_large_wrong(alloc, LARGE.as_slice())?, None);
    Ok(())
}

/// The first cause with which a file of this size isn't refused for the lesser of two kinds: the cause's, and `many`, that
/// of its size.
fn first_undecided(alloc: Global, size: [u32; 4], many: u8) -> Result<Option<usize>, OutOfMemory> {
    for at in 0..BESIDES.len() {
        let (front, rest, kind) = BESIDES[at];
        let file = large_file(alloc, front, b'L', size, rest)?;
        if refusal(alloc, &file, Some(1))? != Some((many.min(kind), 0)) {
            return Ok(Some(at));
        }
    }
    Ok(None)
}

#[test]
fn counts_come_after_columns_and_before_rows(rt: HostRuntime) -> Result<(), Fail> {
    let alloc = rt.alloc();
    assert_eq!(rt; first_undecided(alloc, [1, 4097, 0, 0], 5)?, None);
    assert_eq!(rt; first_undecided(alloc, [4097, 1, 0, 0], 6)?, None);
    assert_eq!(rt; first_undecided(alloc, [17, 4096, 17, 17], 7)?, None);
    Ok(())
}

/// Appends numbers, each after a blank.
fn append_numbers(text: &mut Text, alloc: Global, numbers: &[i64]) -> Result<(), OutOfMemory> {
    for number in numbers {
        let digits = decimal::text(alloc, i128::from(*number), 0)?;
        text.push(b' ')?;
        text.extend(digits.as_slice())?;
    }
    Ok(())
}

/// Appends a line for each row: the coefficients, each with its column, and what the row is at least.
fn append_rows(text: &mut Text, alloc: Global, rows: &[Row]) -> Result<(), OutOfMemory> {
    for row in rows {
        for term in row.terms.as_slice() {
            append_numbers(text, alloc, &[term.coef])?;
            append_name(text, alloc, b'x', term.col)?;
        }
        append(text, " >=")?;
        append_numbers(text, alloc, &[row.least])?;
        append(text, "\n")?;
    }
    Ok(())
}

/// Appends names, each after a blank.
fn append_names(text: &mut Text, names: &[Name]) -> Result<(), OutOfMemory> {
    for name in names {
        text.push(b' ')?;
        text.extend(name.text().as_slice())?;
    }
    Ok(())
}

/// What a model says, line by line: its name, sense, constant and decimals, its columns, their costs, lows and highs, and its
/// rows.
fn text_of(alloc: Global, model: &Model) -> Result<Text, OutOfMemory> {
    let mut text = Text::new(alloc);
    text.extend(model.name().text().as_slice())?;
    append(&mut text, if model.maximise() { " max" } else { " min" })?;
    append_numbers(
        &mut text,
        alloc,
        &[model.constant(), i64::from(model.decimals())],
    )?;
    append(&mut text, "\n")?;
    append_names(&mut text, model.cols())?;
    append(&mut text, "\n")?;
    append_numbers(&mut text, alloc, model.costs())?;
    append(&mut text, "\n")?;
    append_numbers(&mut text, alloc, model.root().lows())?;
    append(&mut text, "\n")?;
    append_numbers(&mut text, alloc, model.root().highs())?;
    append(&mut text, "\n")?;
    append_rows(&mut text, alloc, model.rows())?;
    Ok(text)
}

/// What the model says that a file is admitted as.
fn said(alloc: Global, file: &Text) -> Result<Text, OutOfMemory> {
    let mps = model_of(alloc, file)?;
    match admit(alloc, &mps, None) {
        Ok(model) => text_of(alloc, &model),
        Err(_) => Err(OutOfMemory),
    }
}

/// The lines of rows of a file, those from the integer columns on, and what the model says that it is admitted as.
type Whole = (&'static str, &'static str, &'static str);

const RANGED: &str = " x c 1\n x a 1\nRHS\n r a 5\nRANGES\n r a -2\nBOUNDS\n UP b x 9\n";

const PACKING: &str =
    " x c -2.25 a 3\n y c -1.50 a 2\n z c -0.40 a 1\nRHS\n r a 7.5\nBOUNDS\n UP b x 4\n LO b y 0.5\n UP b y 4.5\n BV b z\n";

const WHOLE: [Whole; 5] = [
    (
        " E a\n",
        RANGED,
        "T min 0 0\n x\n 1\n 0\n 9\n 1 x0 >= 3\n -1 x0 >= -5\n",
    ),
    (
        " G a\n",
        RANGED,
        "T min 0 0\n x\n 1\n 0\n 9\n 1 x0 >= 5\n -1 x0 >= -7\n",
    ),
    (
        " L a\n",
        RANGED,
        "T min 0 0\n x\n 1\n 0\n 9\n 1 x0 >= 3\n -1 x0 >= -5\n",
    ),
    (
        " L a\n",
        PACKING,
        "T min 0 2\n x y z\n -225 -150 -40\n 0 1 0\n 4 4 1\n -30 x0 -20 x1 -10 x2 >= -75\n",
    ),
    (
        "",
        " x c 1\nRHS\n r c -0.5\nBOUNDS\n BV b x\n",
        "T min 5 1\n x\n 10\n 0\n 1\n",
    ),
];

/// The first file whose model says something else.
fn first_unlike(alloc: Global, cases: &[Whole]) -> Result<Option<usize>, OutOfMemory> {
    for at in 0..cases.len() {
        let (rows, rest, want) = cases[at];
        let file = file(alloc, rows, rest)?;
        if said(alloc, &file)?.as_slice() != want.as_bytes() {
            return Ok(Some(at));
        }
    }
    Ok(None)
}

#[test]
fn admits_in_whole_numbers(rt: HostRuntime) -> Result<(), Fail> {
    let alloc = rt.alloc();
    assert_eq!(rt; first_unlike(alloc, WHOLE.as_slice())?, None);
    Ok(())
}

#[test]
fn negates_what_is_maximised(rt: HostRuntime) -> Result<(), Fail> {
    let alloc = rt.alloc();
    let mut text = Text::new(alloc);
    append(
        &mut text,
        "OBJSENSE MAX\nROWS\n N c\nCOLUMNS\n x c 1.5\nRHS\n r c 2\nBOUNDS\n BV b x\nENDATA\n",
    )?;
    let said = said(alloc, &text)?;
    assert!(rt; said.as_slice() == b" max 20 1\n x\n -15\n 0\n 1\n".as_slice());
    Ok(())
}
