ghost use Rattle.std.specs.Prelude.{◌≡◌, ◌≤◌, ◌^◌, length, IfOk, Some};
ghost use Rattle.cert_line.specs.Words.{left_words, left_size};
ghost use Rattle.cert_line.specs.Readings.{form_by, reading_of};

use crate::LineReading;
use crate::forms::{
    read_cover, read_cuts, read_end, read_gomory, read_header, read_leaf, read_none, read_point,
    read_size, read_split, read_tree, read_value,
};
use crate::keyword::{Keyword, keyword_of};
use crate::words::{Words, has_empty_word, next_word};
use ip_core::OutOfMemory;
use std::alloc::Global;

/// What the bytes of a line are read as, its line feed aside. Err comes only of want of memory.
pub fn read_line(alloc: Global, bytes: &[u8]) -> Result<LineReading, OutOfMemory>
    requires { length bytes.now ≤ 2 ^ 28 }
    ensures { IfOk result (λ r. r ≡ reading_of bytes.now) }
{
    let words = Words::More(bytes);
    if has_empty_word(words) {
        return Ok(LineReading::NoForm);
    }
    let Some((word, rest)) = next_word(words) else {
        return Ok(LineReading::NoForm);
    };
    match keyword_of(word) {
        Some(keyword) => read_form(alloc, keyword, rest),
        None => Ok(LineReading::NoForm),
    }
}

/// What the words after the first one are read as.
fn read_form(alloc: Global, keyword: Keyword, words: Words<'_>) -> Result<LineReading, OutOfMemory>
    requires { left_size words ≤ 2 ^ 30 }
    ensures { IfOk result (λ r. r ≡ form_by (Some keyword) (left_words words.entry)) }
{
    match keyword {
        Keyword::Xsearch => Ok(read_header(words)),
        Keyword::Size => Ok(read_size(words)),
        Keyword::Value => Ok(read_value(words)),
        Keyword::Point => read_point(alloc, words),
        Keyword::Nothing => Ok(read_none(words)),
        Keyword::Cuts => Ok(read_cuts(words)),
        Keyword::Gomory => read_gomory(alloc, words),
        Keyword::Cover => read_cover(alloc, words),
        Keyword::Tree => Ok(read_tree(words)),
        Keyword::Split => Ok(read_split(words)),
        Keyword::Leaf => read_leaf(alloc, words),
        Keyword::End => Ok(read_end(words)),
    }
}
