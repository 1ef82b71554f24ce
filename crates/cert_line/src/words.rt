ghost use Rattle.std.specs.Prelude.{◌≡◌, ◌<◌, ◌∷◌, [], length, MatchOption};
ghost use Rattle.std.specs.List.{list_any};
ghost use Rattle.std.specs.Str.{bytes_eq};
ghost use Rattle.cert_line.specs.Words.{pieces, has_none, left_words, left_size};
ghost use Rattle.cert_line.specs.Readings.{is_empty_word};

/// The words of a line that are still to be read.
#[derive(Clone, Copy)]
pub(crate) enum Words<'a> {
    /// No word is left.
    Done,
    /// At least one word: the words that blanks part in these bytes.
    More(&'a [u8]),
}

/// The bytes before the first blank and those after it, or None where there is none.
fn cut_word(bytes: &[u8]) -> Option<(&[u8], &[u8])>
    ensures { MatchOption result (pieces bytes.now ≡ bytes.now ∷ [])
        (λ p. (pieces bytes.now ≡ p.0.now ∷ pieces p.1.now) × (length p.1.now < length bytes.now)) }
{
    for (place, byte) in bytes.iter().enumerate() {
        if *byte == b' ' {
            return Some((&bytes[..place], &bytes[place + 1..]));
        }
    }
    None
}

/// The next word and the words after it, or None where no word is left.
pub(crate) fn next_word(words: Words<'_>) -> Option<(&[u8], Words<'_>)>
    ensures { MatchOption result (left_words words.entry ≡ [])
        (λ p. (left_words words.entry ≡ p.0.now ∷ left_words p.1)
        × (left_size p.1 < left_size words.entry)) }
{
    match words {
        Words::Done => None,
        Words::More(bytes) => match cut_word(bytes) {
            Some((word, rest)) => Some((word, Words::More(rest))),
            None => Some((bytes, Words::Done)),
        },
    }
}

/// Whether one of the words has no byte.
pub(crate) fn has_empty_word(words: Words<'_>) -> bool
    ensures { result ≡ list_any is_empty_word (left_words words.entry) }
{
    let mut left = words;
    while let Some((word, rest)) = next_word(left) {
        if word.is_empty() {
            return true;
        }
        left = rest;
    }
    false
}

/// Whether no word is left.
pub(crate) fn is_done(words: Words<'_>) -> bool
    ensures { result ≡ has_none (left_words words.entry) }
{
    match next_word(words) {
        Some(_) => false,
        None => true,
    }
}

/// Whether a word is this one.
pub(crate) fn is_word(word: &[u8], shown: &[u8]) -> bool
    ensures { result ≡ bytes_eq word.now shown.now }
{
    word == shown
}
