use crate::{MpsError, MpsKind, print, read};
use ip_core::OutOfMemory;
use std::alloc::Global;
use std::test::Fail;

/// Files refused in their header or by the order of sections. Here and below `@` stands for a name of 256 bytes.
const HEADERS: [(&[u8], u32, MpsKind); 39] = [
    (b"", 1, MpsKind::NoEndata),
    (b"\n\n", 3, MpsKind::NoEndata),
    (b"NAME T", 2, MpsKind::NoEndata),
    (b"OBJSENSE\n", 2, MpsKind::NoEndata),
    (b"ROWS\n N c\x0b\n", 2, MpsKind::BadByte),
    (b"\x7f", 1, MpsKind::BadByte),
    (b"\x00\n", 1, MpsKind::BadByte),
    (b"NAME T\x0c\n", 1, MpsKind::BadByte),
    (b" *\x01\n", 1, MpsKind::BadByte),
    (b"* \x00\xff\x0b\nROWS\n N \xc3\xa9\n", 3, MpsKind::BadByte),
    (b" x\n", 1, MpsKind::SectionOrder),
    (b"\rROWS\n", 1, MpsKind::SectionOrder),
    (b"NAME T\n\n* note\n x\n", 4, MpsKind::SectionOrder),
    (b"OBJSENSE\n MAX\n MAX\n", 3, MpsKind::SectionOrder),
    (b"NAME T\nNAME T\n", 2, MpsKind::SectionOrder),
    (b"OBJSENSE MAX\nNAME T\n", 2, MpsKind::SectionOrder),
    (b"OBJSENSE MAX\nOBJSENSE MAX\n", 2, MpsKind::SectionOrder),
    (b"ROWS\n N c\nOBJSENSE MAX\n", 3, MpsKind::SectionOrder),
    (b"ROWS\nROWS\n", 2, MpsKind::SectionOrder),
    (b"COLUMNS\n", 1, MpsKind::SectionOrder),
    (b"NAME T\nRHS\n", 2, MpsKind::SectionOrder),
    (b"ROWS\n N c\nRANGES\n", 3, MpsKind::SectionOrder),
    (b"ROWS\n N c\nBOUNDS\n", 3, MpsKind::SectionOrder),
    (b"ROWS\n N c\nENDATA\n", 3, MpsKind::SectionOrder),
    (
        b"ROWS\n N c\n L a\n G b\nCOLUMNS\nCOLUMNS\n",
        6,
        MpsKind::SectionOrder,
    ),
    (
        b"ROWS\n N c\n L a\n G b\nCOLUMNS\nROWS\n",
        6,
        MpsKind::SectionOrder,
    ),
    (
        b"ROWS\n N c\n L a\n G b\nCOLUMNS\nRHS\nRANGES\nRHS\n",
        8,
        MpsKind::SectionOrder,
    ),
    (
        b"ROWS\n N c\n L a\n G b\nCOLUMNS\nRANGES\nRANGES\n",
        7,
        MpsKind::SectionOrder,
    ),
    (
        b"ROWS\n N c\n L a\n G b\nCOLUMNS\nBOUNDS\nRHS\nBOUNDS\n",
        8,
        MpsKind::SectionOrder,
    ),
    (b"rows\n", 1, MpsKind::UnknownSection),
    (b"NAME T\nOBJSENSE: MAX\n", 2, MpsKind::UnknownSection),
    (b"'MARKER'\n", 1, MpsKind::UnknownSection),
    (b"NAME @\n", 1, MpsKind::LongName),
    (b"OBJSENSE max\n", 1, MpsKind::Sense),
    (b"OBJSENSE\n BIG\n", 2, MpsKind::Sense),
    (b"OBJSENSE MAX\n MAX\n", 2, MpsKind::Sense),
    (b"OBJSENSE\nROWS\n", 2, MpsKind::Sense),
    (b"ROWS\n L a\nCOLUMNS\n", 3, MpsKind::NoObjective),
    (b"ROWS\nCOLUMNS\n", 2, MpsKind::NoObjective),
];

/// Files refused among the rows, and two of a model with one column.
const ROWS: [(&[u8], u32, MpsKind); 12] = [
    (b"ROWS\n N\n", 2, MpsKind::FieldCount),
    (b"ROWS\n N c 1\n", 2, MpsKind::FieldCount),
    (b"OBJSENSE\n MAX MIN\n", 2, MpsKind::FieldCount),
    (b"ROWS\n n c\n", 2, MpsKind::RowType),
    (b"ROWS\n EQ c\n", 2, MpsKind::RowType),
    (b"ROWS\n N c\n L c\n", 3, MpsKind::RepeatedName),
    (b"ROWS\n N c\n N d\n N d\n", 4, MpsKind::RepeatedName),
    (b"ROWS\n N 'MARKER'\n", 2, MpsKind::Marker),
    (b"ROWS\n N @\n", 2, MpsKind::LongName),
    (b"ROWS\n N c\n N @\n", 3, MpsKind::LongName),
    (
        b"NAME one\nROWS\n N c\nCOLUMNS\n M 'MARKER' 'INTORG'\n x c 1\nBOUNDS\n UP b x 1\n",
        9,
        MpsKind::NoEndata,
    ),
    (
        b"NAME one\nROWS\n N c\nCOLUMNS\n M 'MARKER' 'INTORG'\n x c 1 c 2\nBOUNDS\n UP b x 1\nENDATA\n",
        6,
        MpsKind::RepeatedEntry,
    ),
];

/// Rows c, a of at most and b of at least, and then the columns: five lines.
const HEAD: &[u8] = b"ROWS\n N c\n L a\n G b\nCOLUMNS\n";

/// What follows these lines in files refused among the columns.
const COLUMNS: [(&[u8], u32, MpsKind); 23] = [
    (b" x\n", 6, MpsKind::FieldCount),
    (b" x c\n", 6, MpsKind::FieldCount),
    (b" x c 1 a\n", 6, MpsKind::FieldCount),
    (b" x c 1 a 2 b\n", 6, MpsKind::FieldCount),
    (b" M 'MARKER'\n", 6, MpsKind::FieldCount),
    (b" M 'MARKER' 'INTORG' x\n", 6, MpsKind::FieldCount),
    (b" M 'MARKER' 'INTORG' a 1\n", 6, MpsKind::FieldCount),
    (b" x c one\n", 6, MpsKind::Numeral),
    (b" x c 1 a 1e401\n", 6, MpsKind::Numeral),
    (b" x c 1 a 1.2.3\n", 6, MpsKind::Numeral),
    (b" x d 1\n", 6, MpsKind::UnknownName),
    (b" x c 1 'MARKER' 1\n", 6, MpsKind::UnknownName),
    (b" x c 1 d 1\n", 6, MpsKind::UnknownName),
    (b" x c 1 c 2\n", 6, MpsKind::RepeatedEntry),
    (b" x a 0\n x b 1 a 1\n", 7, MpsKind::RepeatedEntry),
    (b" x c 0\n x c 0\n", 7, MpsKind::RepeatedEntry),
    (b" x a 1\n x b 1\n x a 1\n", 8, MpsKind::RepeatedEntry),
    (
        b" x a 1\n M 'MARKER' 'INTEND'\n x a 1\n",
        8,
        MpsKind::RepeatedEntry,
    ),
    (b" x a 1\n y a 1\n x b 1\n", 8, MpsKind::SplitColumn),
    (b" x a 1\n y a 1\n y b 1\n x c 0\n", 9, MpsKind::SplitColumn),
    (b" M 'MARKER' 'INTEGER'\n", 6, MpsKind::Marker),
    (b" M 'MARKER' 'intorg'\n", 6, MpsKind::Marker),
    (b" @ c 1\n", 6, MpsKind::LongName),
];

/// A sixth line, with a column x.
const COLUMN: &[u8] = b" x c 1\n";

/// What follows that line in files refused among right-hand sides, ranges and bounds.
const VALUES: [(&[u8], u32, MpsKind); 36] = [
    (b"RHS\n a\n", 8, MpsKind::FieldCount),
    (b"RHS\n r a 1 b 2 c\n", 8, MpsKind::FieldCount),
    (b"RANGES\n r a 1 b 2 c 3\n", 8, MpsKind::FieldCount),
    (b"RHS\n r a x\n", 8, MpsKind::Numeral),
    (b"RANGES\n a 1 b +\n", 8, MpsKind::Numeral),
    (b"RHS\n d 1\n", 8, MpsKind::UnknownName),
    (b"RHS\n r x 1\n", 8, MpsKind::UnknownName),
    (b"RHS\n r @ 1\n", 8, MpsKind::UnknownName),
    (b"RHS\n r a 1\n r b 0 a 1\n", 9, MpsKind::RepeatedEntry),
    (b"RHS\n c 1 c 1\n", 8, MpsKind::RepeatedEntry),
    (b"RANGES\n r c 1\n r c 1\n", 9, MpsKind::RepeatedEntry),
    (b"RANGES\n r b 0 b 0\n", 8, MpsKind::RepeatedEntry),
    (b"RHS\n @ a 1\n", 8, MpsKind::LongName),
    (b"RHS\n r a 1\n @ a 1\n", 9, MpsKind::LongName),
    (b"RHS\n r a 1\n s b x @ y\n", 9, MpsKind::LongName),
    (b"RANGES\n r a 1\n s @ x b y\n", 9, MpsKind::LongName),
    (b"RHS\n r a 1\n s b 1 c 1 d\n", 9, MpsKind::FieldCount),
    (b"RHS\n r a 1\n s \x0b 1\n", 9, MpsKind::BadByte),
    (b"BOUNDS\n UP x\n", 8, MpsKind::FieldCount),
    (b"BOUNDS\n LO b x 1 2\n", 8, MpsKind::FieldCount),
    (b"BOUNDS\n BV\n", 8, MpsKind::FieldCount),
    (b"BOUNDS\n FR b x 1 2\n", 8, MpsKind::FieldCount),
    (b"BOUNDS\n UP b x y\n", 8, MpsKind::Numeral),
    (b"BOUNDS\n FX x 1e-19\n", 8, MpsKind::Numeral),
    (b"BOUNDS\n XX\n", 8, MpsKind::BoundType),
    (b"BOUNDS\n up b x 1\n", 8, MpsKind::BoundType),
    (
        b"BOUNDS\n UP b x 1\n XX s x 1 2 3 4\n",
        9,
        MpsKind::BoundType,
    ),
    (b"BOUNDS\n UP b a 1\n", 8, MpsKind::UnknownName),
    (b"BOUNDS\n FR y\n", 8, MpsKind::UnknownName),
    (b"BOUNDS\n FR x 0\n", 8, MpsKind::UnknownName),
    (b"BOUNDS\n UP @ x 1\n", 8, MpsKind::LongName),
    (b"BOUNDS\n UP b x 1\n MI @ x\n", 9, MpsKind::LongName),
    (b"BOUNDS\n UP b x 1\n UP s @ y\n", 9, MpsKind::LongName),
    (b"BOUNDS\n UP b x 1\n UP s x\n", 10, MpsKind::NoEndata),
    (b"BOUNDS\n FR b x\n FR s x 1 2\n", 9, MpsKind::FieldCount),
    (b"RHS\n ENDATA\n", 8, MpsKind::FieldCount),
];

/// Files whose last line is refused for two reasons, of which the first in the order of kinds decides.
const TWICE_HEADERS: [(&[u8], u32, MpsKind); 23] = [
    (b"ROWS\nNAME \x7f\n", 2, MpsKind::BadByte),
    (b"FOO\x7f\n", 1, MpsKind::BadByte),
    (b"ROWS\n N\x7f\n", 2, MpsKind::BadByte),
    (b"ROWS\n X\x7f c\n", 2, MpsKind::BadByte),
    (b"ROWS\nCOLUMNS \x7f\n", 2, MpsKind::BadByte),
    (b"NAME @\x7f\n", 1, MpsKind::BadByte),
    (b"OBJSENSE BIG\x7f\n", 1, MpsKind::BadByte),
    (b"COLUMNS\n", 1, MpsKind::SectionOrder),
    (b"ROWS\nNAME @\n", 2, MpsKind::SectionOrder),
    (b"ROWS\nOBJSENSE BIG\n", 2, MpsKind::SectionOrder),
    (b"OBJSENSE\nCOLUMNS\n", 2, MpsKind::SectionOrder),
    (b"OBJSENSE\nNAME @\n", 2, MpsKind::SectionOrder),
    (b"OBJSENSE\n MAX\n a b\n", 3, MpsKind::SectionOrder),
    (b"OBJSENSE\n MAX\n BIG\n", 3, MpsKind::SectionOrder),
    (b"OBJSENSE\nFOO\n", 2, MpsKind::UnknownSection),
    (b"OBJSENSE MAX\n MAX MIN\n", 2, MpsKind::FieldCount),
    (b"ROWS\n X c d\n", 2, MpsKind::FieldCount),
    (b"ROWS\n N c\n N c d\n", 3, MpsKind::FieldCount),
    (b"ROWS\n N 'MARKER' d\n", 2, MpsKind::FieldCount),
    (b"ROWS\n N @ d\n", 2, MpsKind::FieldCount),
    (b"ROWS\n N c\n X c\n", 3, MpsKind::RowType),
    (b"ROWS\n X 'MARKER'\n", 2, MpsKind::RowType),
    (b"ROWS\n X @\n", 2, MpsKind::RowType),
];

/// The same among the columns.
const TWICE_COLUMNS: [(&[u8], u32, MpsKind); 19] = [
    (b" x c \x7f\n", 6, MpsKind::BadByte),
    (b" x d\x7f 1\n", 6, MpsKind::BadByte),
    (b" x c 1 c 1\x7f\n", 6, MpsKind::BadByte),
    (b" M 'MARKER' \x7f\n", 6, MpsKind::BadByte),
    (b" x c 1.2.3 d\n", 6, MpsKind::FieldCount),
    (b" x c 1 c\n", 6, MpsKind::FieldCount),
    (b" x a 1\n y a 1\n x b\n", 8, MpsKind::FieldCount),
    (b" M 'MARKER' 'X' a 1\n", 6, MpsKind::FieldCount),
    (b" @ c\n", 6, MpsKind::FieldCount),
    (b" x d 1..2\n", 6, MpsKind::Numeral),
    (b" x c 1 c 1..2\n", 6, MpsKind::Numeral),
    (b" x a 1\n y a 1\n x b z\n", 8, MpsKind::Numeral),
    (b" @ c z\n", 6, MpsKind::Numeral),
    (b" x c 1\n x c 1 d 1\n", 7, MpsKind::UnknownName),
    (b" x a 1\n y a 1\n x d 1\n", 8, MpsKind::UnknownName),
    (b" @ d 1\n", 6, MpsKind::UnknownName),
    (b" x a 0\n y a 1\n x a 1\n", 8, MpsKind::RepeatedEntry),
    (b" x a 1\n y b 1\n x b 1 b 1\n", 8, MpsKind::RepeatedEntry),
    (b" @ c 1 c 1\n", 6, MpsKind::RepeatedEntry),
];

/// The same among right-hand sides, ranges and bounds.
const TWICE_VALUES: [(&[u8], u32, MpsKind); 20] = [
    (b"RHS\n r d 1 a 1 b\n", 8, MpsKind::FieldCount),
    (b"RHS\n r a 1..2 b 1 b\n", 8, MpsKind::FieldCount),
    (b"RHS\n r a 1 a 1 b\n", 8, MpsKind::FieldCount),
    (b"RHS\n @ a 1 b 1 b\n", 8, MpsKind::FieldCount),
    (b"RHS\n r d 1..2\n", 8, MpsKind::Numeral),
    (b"RHS\n r a 1 a 1..2\n", 8, MpsKind::Numeral),
    (b"RHS\n @ a 1..2\n", 8, MpsKind::Numeral),
    (b"RHS\n r a 1 d 1\n", 8, MpsKind::UnknownName),
    (b"RHS\n r a 1\n r a 1 d 1\n", 9, MpsKind::UnknownName),
    (b"RHS\n @ d 1\n", 8, MpsKind::UnknownName),
    (b"RANGES\n @ a 1 a 1\n", 8, MpsKind::RepeatedEntry),
    (b"BOUNDS\n UP b x 1..2 y\n", 8, MpsKind::FieldCount),
    (b"BOUNDS\n FR b y 1 2\n", 8, MpsKind::FieldCount),
    (b"BOUNDS\n UP @ x 1 2\n", 8, MpsKind::FieldCount),
    (b"BOUNDS\n UP b y 1..2\n", 8, MpsKind::Numeral),
    (b"BOUNDS\n UP @ x 1..2\n", 8, MpsKind::Numeral),
    (b"BOUNDS\n XX b y 1\n", 8, MpsKind::BoundType),
    (b"BOUNDS\n XX @ x 1\n", 8, MpsKind::BoundType),
    (b"BOUNDS\n XX\x7f b x\n", 8, MpsKind::BadByte),
    (b"BOUNDS\n UP @ y 1\n", 8, MpsKind::UnknownName),
];

/// Files that are read.
const READ: [&[u8]; 8] = [
    b"ROWS\n N c\nCOLUMNS\nENDATA",
    b"NAME\nROWS more\n N c\nCOLUMNS more\nBOUNDS more\nRANGES\nRHS\nENDATA more\n @\n",
    b"\n\n* note\n \t\r\nOBJSENSE MIN more\nROWS\n N c\nCOLUMNS\nENDATA\nENDATA\n\x00",
    b"OBJSENSE\n MINIMIZE\nROWS\n N c\n N d\nCOLUMNS\n x d 1 d 2\n x d 3\nRHS\n d 1 d 1\nRANGES\n d 1\n d 1\nENDATA\n",
    b"ROWS\n N c\n L a\nCOLUMNS\n @' 'MARKER' 'INTEND'\n a a 1\n 'MARKER' c 1\nENDATA\n",
    b"ROWS\n N c\n L a\nCOLUMNS\n x a 1\nRHS\n a 1\n s zzz zzz\n s a 1 a 1\nBOUNDS\n UP s x 1\n UP x y\n FR x\n UP t y z\nENDATA\n",
    b"ROWS\n N c\nCOLUMNS\n x c 1\nBOUNDS\n FR b x @\n UP b x 3\n UP b x 4\nENDATA\n",
    b"ROWS\n N c\n L a\nCOLUMNS\n x a 1\n M 'MARKER' 'INTORG'\n x c 1\nRANGES\n r c 9\nENDATA\n",
];

/// Files with their canonical texts.
const CANONICAL: [(&[u8], &[u8]); 6] = [
    // numbers in other forms, and a right-hand side of zero
    (
        b"* note\nNAME one\nROWS\n N c\nCOLUMNS\n M 'MARKER' 'INTORG'\n x c 1.0\nRHS\n c -0\nBOUNDS\n UP b x 10e-1\nENDATA\n",
        b"NAME one\nROWS\n N c\nCOLUMNS\n M 'MARKER' 'INTORG'\n x c 1\n M 'MARKER' 'INTEND'\nBOUNDS\n UP BND x 1\nENDATA\n",
    ),
    // a name of 255 bytes, the sense, a constant, and a free column that has neither cost nor entries
    (
        b"NAME nnnnnnnnnnnnnnnnnnnnnnnnnnnnnnnnnnnnnnnnnnnnnnnnnnnnnnnnnnnnnnnnnnnnnnnnnnnnnnnnnnnnnnnnnnnnnnnnnnnnnnnnnnnnnnnnnnnnnnnnnnnnnnnnnnnnnnnnnnnnnnnnnnnnnnnnnnnnnnnnnnnnnnnnnnnnnnnnnnnnnnnnnnnnnnnnnnnnnnnnnnnnnnnnnnnnnnnnnnnnnnnnnnnnnnnnnnnnnnnnnnnnnnnnnnnnnnn\nOBJSENSE MAX\nROWS\n N OBJ\nCOLUMNS\n M 'MARKER' 'INTORG'\n x OBJ 0\nRHS\n OBJ 1.5\nBOUNDS\n FR x\nENDATA\n",
        b"NAME nnnnnnnnnnnnnnnnnnnnnnnnnnnnnnnnnnnnnnnnnnnnnnnnnnnnnnnnnnnnnnnnnnnnnnnnnnnnnnnnnnnnnnnnnnnnnnnnnnnnnnnnnnnnnnnnnnnnnnnnnnnnnnnnnnnnnnnnnnnnnnnnnnnnnnnnnnnnnnnnnnnnnnnnnnnnnnnnnnnnnnnnnnnnnnnnnnnnnnnnnnnnnnnnnnnnnnnnnnnnnnnnnnnnnnnnnnnnnnnnnnnnnnnnnnnnnnn\nOBJSENSE\n MAX\nROWS\n N OBJ\nCOLUMNS\n M 'MARKER' 'INTORG'\n x OBJ 0\n M 'MARKER' 'INTEND'\nRHS\n RHS OBJ 1.5\nBOUNDS\n MI BND x\n PL BND x\nENDATA\n",
    ),
    // no columns, and a range of zero
    (
        b"ROWS\n N OBJ\n L a\nCOLUMNS\nRHS\n a -30000\nRANGES\n a 0\nENDATA\n",
        b"ROWS\n N OBJ\n L a\nCOLUMNS\nRHS\n RHS a -3e4\nRANGES\n RNG a 0\nENDATA\n",
    ),
    // aligned fields, carriage returns, a comment, markers and right-hand sides without the name of a set
    (
        b"* small packing model\r\nNAME          PACK\r\nROWS\r\n N  PROFIT\r\n L  WEIGHT\r\nCOLUMNS\r\n    M1        'MARKER'                 'INTORG'\r\n    BOX       PROFIT         -2.25     WEIGHT             3\r\n    CAN       PROFIT         -1.50     WEIGHT             2\r\n    M2        'MARKER'                 'INTEND'\r\n    LID       PROFIT         -0.40     WEIGHT             1\r\nRHS\r\n    WEIGHT             7\r\nBOUNDS\r\n UP BND       BOX                4\r\n UP BND       CAN                4\r\n BV BND       LID\r\nENDATA\r\n",
        b"NAME PACK\nROWS\n N PROFIT\n L WEIGHT\nCOLUMNS\n M 'MARKER' 'INTORG'\n BOX PROFIT -2.25\n BOX WEIGHT 3\n CAN PROFIT -1.5\n CAN WEIGHT 2\n LID PROFIT -0.4\n LID WEIGHT 1\n M 'MARKER' 'INTEND'\nRHS\n RHS WEIGHT 7\nBOUNDS\n UP BND BOX 4\n UP BND CAN 4\n LO BND LID 0\n UP BND LID 1\nENDATA\n",
    ),
    // dropped rows, zeros, several sets, numbers that stand for no bound, and what follows the end
    (
        b"NAME T more\nOBJSENSE\n\tMAXIMIZE\nROWS\n N cost\n N spare\n L a\n G b\n E d\nCOLUMNS\n x cost 1.50D+2 a 2\n x spare 7 spare 8\n m 'MARKER' 'INTORG'\n y d -3 b 0\n y cost 0 a 1\n m 'MARKER' 'INTEND'\n z a 1e-3\nRANGES\n S a -4 cost 9\n T nowhere x\nRHS\n a 5 b 1\n cost 12\n other zzz q\nBOUNDS\n LO x -1e20\n UP x 1e20\n LI S y 2\n FX z 3.5\n PL x\nENDATA\n junk \xff",
        b"NAME T\nOBJSENSE\n MAX\nROWS\n N cost\n L a\n G b\n E d\nCOLUMNS\n x cost 15e1\n x a 2\n M 'MARKER' 'INTORG'\n y d -3\n y a 1\n M 'MARKER' 'INTEND'\n z a 0.001\nRHS\n RHS cost 12\n RHS a 5\n RHS b 1\nRANGES\n RNG a -4\nBOUNDS\n MI BND x\n PL BND x\n LO BND z 3.5\n UP BND z 3.5\nENDATA\n",
    ),
    // each type of bound; a later line replaces the sides that it sets
    (
        b"ROWS\n N c\nCOLUMNS\n p c 1\n q c 1\n r c 1\n s c 1\n t c 1\n u c 1\nBOUNDS\n LI p 2\n UI q -0.1\n BV r\n FR r\n UP s 8\n MI s\n FX t 1e20\n FX u -1e20\n UP r 3\n PL r\nENDATA",
        b"ROWS\n N c\nCOLUMNS\n M 'MARKER' 'INTORG'\n p c 1\n q c 1\n r c 1\n M 'MARKER' 'INTEND'\n s c 1\n t c 1\n u c 1\nBOUNDS\n LO BND p 2\n UP BND q -0.1\n MI BND r\n PL BND r\n MI BND s\n UP BND s 8\n LO BND t 1e20\n PL BND t\n MI BND u\n UP BND u -1e20\nENDATA\n",
    ),
];

/// The bytes of a text in parts, with 256 bytes in place of each `@`.
fn bytes_of(alloc: Global, parts: [&[u8]; 3]) -> Result<Vec<u8>, OutOfMemory> {
    let mut bytes = Vec::new(alloc);
    for part in parts {
        for byte in part {
            if *byte == b'@' {
                for _ in 0..256u32 {
                    bytes.push(b'n')?;
                }
            } else {
                bytes.push(*byte)?;
            }
        }
    }
    Ok(bytes)
}

/// Where and why a text is refused, or None where it is read.
fn refusal(alloc: Global, bytes: &[u8]) -> Result<Option<(u32, MpsKind)>, OutOfMemory> {
    if bytes.len() > 1_000_000 {
        return Ok(None);
    }
    match read(alloc, bytes) {
        Ok(_) => Ok(None),
        Err(MpsError::Refused { line, kind }) => Ok(Some((line, kind))),
        Err(MpsError::Memory) => Err(OutOfMemory),
    }
}

/// The place of the first file of a table that isn't refused as the table says, after these parts of each.
fn first_wrong(
    alloc: Global,
    before: [&[u8]; 2],
    table: &[(&[u8], u32, MpsKind)],
) -> Result<Option<usize>, OutOfMemory> {
    for place in 0..table.len() {
        let (text, line, kind) = table[place];
        let bytes = bytes_of(alloc, [before[0], before[1], text])?;
        if refusal(alloc, bytes.as_slice())? != Some((line, kind)) {
            return Ok(Some(place));
        }
    }
    Ok(None)
}

/// The place of the first file of a table that is refused.
fn first_refused(alloc: Global, table: &[&[u8]]) -> Result<Option<usize>, OutOfMemory> {
    for place in 0..table.len() {
        let bytes = bytes_of(alloc, [table[place], b"", b""])?;
        if refusal(alloc, bytes.as_slice())?.is_some() {
            return Ok(Some(place));
        }
    }
    Ok(None)
}

/// Whether a text is read, and its model has this canonical text.
fn has_canonical_text(alloc: Global, bytes: &[u8], canonical: &[u8]) -> Result<bool, OutOfMemory> {
    if bytes.len() > 1_000_000 {
        return Ok(false);
    }
    match read(alloc, bytes) {
        Ok(model) => Ok(print(alloc, &model)?.as_slice() == canonical),
        Err(MpsError::Refused { .. }) => Ok(false),
        Err(MpsError::Memory) => Err(OutOfMemory),
    }
}

/// The place of the first file of a table that has another canonical text.
fn first_other(alloc: Global, table: &[(&[u8], &[u8])]) -> Result<Option<usize>, OutOfMemory> {
    for place in 0..table.len() {
        let (text, canonical) = table[place];
        if !has_canonical_text(alloc, text, canonical)? {
            return Ok(Some(place));
        }
    }
    Ok(None)
}

#[test]
fn refuses_lines(rt: HostRuntime) -> Result<(), Fail> {
    let alloc = rt.alloc();
    assert_eq!(rt; first_wrong(alloc, [b"", b""], HEADERS.as_slice())?, None);
    assert_eq!(rt; first_wrong(alloc, [b"", b""], ROWS.as_slice())?, None);
    assert_eq!(rt; first_wrong(alloc, [HEAD, b""], COLUMNS.as_slice())?, None);
    assert_eq!(rt;
        first_wrong(alloc, [HEAD, COLUMN], VALUES.as_slice())?,
        None
    );
    Ok(())
}

#[test]
fn first_kind_decides(rt: HostRuntime) -> Result<(), Fail> {
    let alloc = rt.alloc();
    assert_eq!(rt;
        first_wrong(alloc, [b"", b""], TWICE_HEADERS.as_slice())?,
        None
    );
    assert_eq!(rt;
        first_wrong(alloc, [HEAD, b""], TWICE_COLUMNS.as_slice())?,
        None
    );
    assert_eq!(rt;
        first_wrong(alloc, [HEAD, COLUMN], TWICE_VALUES.as_slice())?,
        None
    );
    Ok(())
}

#[test]
fn reads_files(rt: HostRuntime) -> Result<(), Fail> {
    let alloc = rt.alloc();
    assert_eq!(rt; first_refused(alloc, READ.as_slice())?, None);
    assert_eq!(rt; first_other(alloc, CANONICAL.as_slice())?, None);
    assert_eq!(rt;
        (MpsKind::RepeatedEntry.number(), MpsKind::NoEndata.number()),
        (10, 14)
    );
    Ok(())
}
