ghost use Rattle.std.specs.Prelude.{◌≡◌, []};
ghost use Rattle.std.specs.Str.{bytes_eq};
ghost use Rattle.mps_lines.specs.Forms.{section_named as section_of_name, bound_named as bound_of_name, row_kind_named as row_kind_of_name, has_numeral as is_with_numeral, sense_named as sense_of_name, is_end, Head};

use mps_model::RowKind;

/// A section of a file.
#[derive(Clone, Copy, Debug, PartialEq, Eq)]
pub enum Section {
    Name,
    Objsense,
    Rows,
    Columns,
    Rhs,
    Ranges,
    Bounds,
    Endata,
}

/// What the values of a section are: right-hand sides or ranges.
#[derive(Clone, Copy, Debug, PartialEq, Eq)]
pub enum ValueKind {
    Side,
    Range,
}

/// The type of a bound line.
#[derive(Clone, Copy, Debug, PartialEq, Eq)]
pub enum BoundKind {
    /// `LO`: the low.
    Lower,
    /// `UP`: the high.
    Upper,
    /// `FX`: both sides.
    Fixed,
    /// `LI`: the low of an integer column.
    IntegerLower,
    /// `UI`: the high of an integer column.
    IntegerUpper,
    /// `FR`: both sides are free.
    Free,
    /// `MI`: the low is free.
    NoLower,
    /// `PL`: the high is free.
    NoUpper,
    /// `BV`: an integer column from 0 to 1.
    Binary,
}

/// Whether a field is this word.
pub fn is_word(field: &[u8], word: &[u8]) -> bool
    ensures { result ≡ bytes_eq field.now word.now }
{
    field == word
}

/// The section of a name.
pub fn section_named(word: &[u8]) -> Option<Section>
    ensures { result ≡ section_of_name word.now }
{
    if is_word(word, b"NAME") {
        Some(Section::Name)
    } else if is_word(word, b"OBJSENSE") {
        Some(Section::Objsense)
    } else if is_word(word, b"ROWS") {
        Some(Section::Rows)
    } else if is_word(word, b"COLUMNS") {
        Some(Section::Columns)
    } else if is_word(word, b"RHS") {
        Some(Section::Rhs)
    } else if is_word(word, b"RANGES") {
        Some(Section::Ranges)
    } else if is_word(word, b"BOUNDS") {
        Some(Section::Bounds)
    } else if is_word(word, b"ENDATA") {
        Some(Section::Endata)
    } else {
        None
    }
}

/// Whether a section ends the file.
pub fn is_last(section: Section) -> bool
    ensures { result ≡ is_end (Head section []) }
{
    match section {
        Section::Endata => true,
        Section::Name
        | Section::Objsense
        | Section::Rows
        | Section::Columns
        | Section::Rhs
        | Section::Ranges
        | Section::Bounds => false,
    }
}

/// Whether a word says to maximise, if it is a sense.
pub fn sense_named(word: &[u8]) -> Option<bool>
    ensures { result ≡ sense_of_name word.now }
{
    if is_word(word, b"MAX") || is_word(word, b"MAXIMIZE") {
        Some(true)
    } else if is_word(word, b"MIN") || is_word(word, b"MINIMIZE") {
        Some(false)
    } else {
        None
    }
}

/// The kind of a row of the model.
pub fn row_kind_named(word: &[u8]) -> Option<RowKind>
    ensures { result ≡ row_kind_of_name word.now }
{
    if is_word(word, b"L") {
        Some(RowKind::Less)
    } else if is_word(word, b"G") {
        Some(RowKind::Greater)
    } else if is_word(word, b"E") {
        Some(RowKind::Equal)
    } else {
        None
    }
}

/// The bound of a type.
pub fn bound_named(word: &[u8]) -> Option<BoundKind>
    ensures { result ≡ bound_of_name word.now }
{
    if is_word(word, b"LO") {
        Some(BoundKind::Lower)
    } else if is_word(word, b"UP") {
        Some(BoundKind::Upper)
    } else if is_word(word, b"FX") {
        Some(BoundKind::Fixed)
    } else if is_word(word, b"LI") {
        Some(BoundKind::IntegerLower)
    } else if is_word(word, b"UI") {
        Some(BoundKind::IntegerUpper)
    } else if is_word(word, b"FR") {
        Some(BoundKind::Free)
    } else if is_word(word, b"MI") {
        Some(BoundKind::NoLower)
    } else if is_word(word, b"PL") {
        Some(BoundKind::NoUpper)
    } else if is_word(word, b"BV") {
        Some(BoundKind::Binary)
    } else {
        None
    }
}

/// Whether a bound has a numeral.
pub fn has_numeral(kind: BoundKind) -> bool
    ensures { result ≡ is_with_numeral kind }
{
    match kind {
        BoundKind::Lower
        | BoundKind::Upper
        | BoundKind::Fixed
        | BoundKind::IntegerLower
        | BoundKind::IntegerUpper => true,
        BoundKind::Free | BoundKind::NoLower | BoundKind::NoUpper | BoundKind::Binary => false,
    }
}
