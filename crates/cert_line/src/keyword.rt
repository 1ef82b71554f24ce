ghost use Rattle.std.specs.Prelude.{◌≡◌};
ghost use Rattle.cert_line.specs.Readings.{keyword_of};

use crate::words::is_word;

/// The first word of a line, which says what form the line is to have.
#[derive(Clone, Copy)]
pub(crate) enum Keyword {
    Xsearch,
    Size,
    Value,
    Point,
    Nothing,
    Cuts,
    Gomory,
    Cover,
    Tree,
    Split,
    Leaf,
    End,
}

/// The form of line that a first word names, if it names one.
pub(crate) fn keyword_of(word: &[u8]) -> Option<Keyword>
    ensures { result ≡ keyword_of word.now }
{
    if is_word(word, b"xsearch") {
        Some(Keyword::Xsearch)
    } else if is_word(word, b"size") {
        Some(Keyword::Size)
    } else if is_word(word, b"value") {
        Some(Keyword::Value)
    } else if is_word(word, b"point") {
        Some(Keyword::Point)
    } else if is_word(word, b"none") {
        Some(Keyword::Nothing)
    } else if is_word(word, b"cuts") {
        Some(Keyword::Cuts)
    } else if is_word(word, b"gomory") {
        Some(Keyword::Gomory)
    } else if is_word(word, b"cover") {
        Some(Keyword::Cover)
    } else if is_word(word, b"tree") {
        Some(Keyword::Tree)
    } else if is_word(word, b"split") {
        Some(Keyword::Split)
    } else if is_word(word, b"leaf") {
        Some(Keyword::Leaf)
    } else if is_word(word, b"end") {
        Some(Keyword::End)
    } else {
        None
    }
}
