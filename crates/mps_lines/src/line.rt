ghost use Rattle.std.specs.Prelude.{◌≡◌, ◌<◌, ◌≤◌, ◌^◌, ◌==◌, ◌++◌, ◌∷◌, [], true, false, length, MatchOption};
ghost use Rattle.std.specs.List.{list_all, list_any};
ghost use Rattle.mps_lines.specs.Lines.{lines_of, pieces, fields, words_of, has_none, is_comment as is_comment_line, is_data as is_data_line, is_separator as is_separator_byte, is_line_byte as is_byte_of_line, first_word as first_word_of};
ghost use Rattle.mps_lines.specs.Forms.{second_word as second_word_of};
ghost use Rattle.mps_lines.specs.FieldWords.{field_words, AreFields, IsField};

/// The fields of a line: up to five of them, and of six or more the first two.
#[derive(Clone, Copy)]
pub enum Fields<'a> {
    Empty,
    Single(&'a [u8]),
    Double(&'a [u8], &'a [u8]),
    Triple(&'a [u8], &'a [u8], &'a [u8]),
    Quadruple(&'a [u8], &'a [u8], &'a [u8], &'a [u8]),
    Quintuple(&'a [u8], &'a [u8], &'a [u8], &'a [u8], &'a [u8]),
    More(&'a [u8], &'a [u8]),
}

/// A row's name and a numeral.
#[derive(Clone, Copy)]
pub struct FieldPair<'a> {
    pub row: &'a [u8],
    pub numeral: &'a [u8],
}

/// The bytes before the first line feed and those after it, or None where there is none.
fn cut_line(bytes: &[u8]) -> Option<(&[u8], &[u8])>
    ensures { MatchOption result (list_any (λ b. b == 10) bytes.now ≡ false)
        (λ p. (bytes.now ≡ p.0.now ++ 10 ∷ p.1.now) × (list_any (λ b. b == 10) p.0.now ≡ false)) }
{
    for (place, byte) in bytes.iter().enumerate() {
        if *byte == b'\n' {
            return Some((&bytes[..place], &bytes[place + 1..]));
        }
    }
    None
}

/// The first line and what follows it, or None where no byte is left.
pub fn next_line(bytes: &[u8]) -> Option<(&[u8], &[u8])>
    ensures { MatchOption result (lines_of bytes.now ≡ [])
        (λ p. (lines_of bytes.now ≡ p.0.now ∷ lines_of p.1.now)
        × (length p.1.now < length bytes.now) × (length p.0.now ≤ length bytes.now)) }
{
    if bytes.is_empty() {
        return None;
    }
    match cut_line(bytes) {
        Some((line, rest)) => Some((line, rest)),
        None => Some((bytes, &[])),
    }
}

/// Whether a byte parts fields.
fn is_separator(byte: u8) -> bool
    ensures { result ≡ is_separator_byte byte }
{
    byte == b'\t' || byte == b'\r' || byte == b' '
}

/// The bytes before the first separator and those after it, or None where there is none.
fn cut_piece(line: &[u8]) -> Option<(&[u8], &[u8])>
    ensures { MatchOption result (pieces line.now ≡ line.now ∷ [])
        (λ p. (pieces line.now ≡ p.0.now ∷ pieces p.1.now) × (length p.1.now < length line.now)) }
{
    for (place, byte) in line.iter().enumerate() {
        if is_separator(*byte) {
            return Some((&line[..place], &line[place + 1..]));
        }
    }
    None
}

/// The first field of a line, and what stands after it.
fn next_field(line: &[u8]) -> Option<(&[u8], &[u8])>
    ensures { MatchOption result (fields line.now ≡ [])
        (λ p. fields line.now ≡ p.0.now ∷ fields p.1.now) }
{
    let mut rest = line;
    while let Some((piece, after)) = cut_piece(rest) {
        if !piece.is_empty() {
            return Some((piece, after));
        }
        rest = after;
    }
    if rest.is_empty() {
        return None;
    }
    Some((rest, &[]))
}

/// What separators part.
fn split_fields(line: &[u8]) -> Fields<'_>
    ensures { field_words result ≡ words_of (fields line.now) }
{
    let Some((first, rest)) = next_field(line) else {
        return Fields::Empty;
    };
    let Some((second, rest)) = next_field(rest) else {
        return Fields::Single(first);
    };
    let Some((third, rest)) = next_field(rest) else {
        return Fields::Double(first, second);
    };
    let Some((fourth, rest)) = next_field(rest) else {
        return Fields::Triple(first, second, third);
    };
    let Some((fifth, rest)) = next_field(rest) else {
        return Fields::Quadruple(first, second, third, fourth);
    };
    match next_field(rest) {
        None => Fields::Quintuple(first, second, third, fourth, fifth),
        Some(_) => Fields::More(first, second),
    }
}

/// The fields of a line that may hold its bytes.
pub fn fields_of(line: &[u8]) -> Fields<'_>
    requires bytes { list_all is_byte_of_line line.now ≡ true }
    requires short { length line.now ≤ 2 ^ 30 }
    ensures value { field_words result ≡ words_of (fields line.now) }
    ensures fields { AreFields (field_words result) }
{
    split_fields(line)
}

/// Whether a line is a comment, which begins with `*`.
pub fn is_comment(line: &[u8]) -> bool
    ensures { result ≡ is_comment_line line.now }
{
    match line {
        [] => false,
        [first, ..] => *first == b'*',
    }
}

/// Whether a line is a data line, which begins with a separator.
pub fn is_data(line: &[u8]) -> bool
    ensures { result ≡ is_data_line line.now }
{
    match line {
        [] => false,
        [first, ..] => is_separator(*first),
    }
}

/// Whether a line that is no comment may hold a byte.
fn is_line_byte(byte: u8) -> bool
    ensures { result ≡ is_byte_of_line byte }
{
    is_separator(byte) || (33 <= byte && byte <= 126)
}

/// Whether a line has only bytes that a line may hold.
pub fn is_text(line: &[u8]) -> bool
    ensures { result ≡ list_all is_byte_of_line line.now }
{
    line.iter().all(|&byte| is_line_byte(byte))
}

impl<'a> Fields<'a> {
    /// Whether there is no field.
    pub fn is_empty(self) -> bool
        ensures { result ≡ has_none (field_words self.entry) }
    {
        match self {
            Fields::Empty => true,
            _ => false,
        }
    }

    /// The first field, or the empty text.
    pub fn first(self) -> &'a [u8]
        ensures { result.now ≡ first_word_of (field_words self.entry) }
    {
        match self {
            Fields::Empty => &[],
            Fields::Single(first)
            | Fields::Double(first, _)
            | Fields::Triple(first, _, _)
            | Fields::Quadruple(first, _, _, _)
            | Fields::Quintuple(first, _, _, _, _)
            | Fields::More(first, _) => first,
        }
    }

    /// The second field, or the empty text.
    pub fn second(self) -> &'a [u8]
        requires { AreFields (field_words self) }
        ensures value { result.now ≡ second_word_of (field_words self.entry) }
        ensures field { IsField result.now }
    {
        match self {
            Fields::Empty | Fields::Single(_) => &[],
            Fields::Double(_, second)
            | Fields::Triple(_, second, _)
            | Fields::Quadruple(_, second, _, _)
            | Fields::Quintuple(_, second, _, _, _)
            | Fields::More(_, second) => second,
        }
    }
}
