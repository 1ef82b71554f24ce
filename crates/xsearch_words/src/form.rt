ghost use Rattle.std.specs.Prelude.{◌≡◌, map, length, IfSome, IsTrue};
ghost use Rattle.std.specs.List.{list_all, list_any};
ghost use Rattle.std.specs.Option.{option_copied};
ghost use Rattle.std.specs.String.{string_bytes};
ghost use Rattle.xsearch_words.specs.Forms.{gives_value as gives_value_of, has_form as has_form_of, is_known as is_known_of, is_name as is_name_of, words_of, is_single as is_single_of, name_at as name_at_of, names, value as value_of, value_in as value_in_of};

use crate::command::{Command, Key};

/// Whether the words that follow a command have its form: each is a name or gives one of its keys
/// a value, there are as many names as it has, and each of its keys has at most one value.
pub(crate) fn has_form(command: Command, words: &[String]) -> bool
    ensures { result ≡ has_form_of command (map string_bytes words.now) }
{
    let keys = command.keys();
    are_known(words, keys) && count_names(words) == command.name_count() && are_single(words, keys)
}

fn are_known(words: &[String], keys: &[Key]) -> bool
    ensures { result ≡ list_all (is_known_of keys.now) (map string_bytes words.now) }
{
    for word in words {
        if !is_known(word.as_bytes(), keys) {
            return false;
        }
    }
    true
}

fn is_known(word: &[u8], keys: &[Key]) -> bool
    ensures { result ≡ is_known_of keys.now word.now }
{
    is_name(word) || gives_one(word, keys)
}

/// Whether the word gives one of the keys a value.
fn gives_one(word: &[u8], keys: &[Key]) -> bool
    ensures { result ≡ list_any (gives_value_of word.now) keys.now }
{
    keys.iter().any(|key| gives_value(word, *key))
}

fn gives_value(word: &[u8], key: Key) -> bool
    ensures { result ≡ gives_value_of word.now key }
{
    value_in(key, word).is_some()
}

/// Whether the word is a name: it isn't empty and doesn't begin with `-`.
pub(crate) fn is_name(word: &[u8]) -> bool
    ensures { result ≡ is_name_of word.now }
{
    match word {
        [] => false,
        [first, ..] => *first != b'-',
    }
}

fn count_names(words: &[String]) -> usize
    ensures { result ≡ length (names (map string_bytes words.now)) }
{
    let mut count = 0;
    for word in words {
        if is_name(word.as_bytes()) {
            count += 1;
        }
    }
    count
}

/// Whether each of the keys has at most one value.
fn are_single(words: &[String], keys: &[Key]) -> bool
    ensures { result ≡ list_all (is_single_of (map string_bytes words.now)) keys.now }
{
    keys.iter().all(|key| is_single(words, *key))
}

fn is_single(words: &[String], key: Key) -> bool
    ensures { result ≡ is_single_of (map string_bytes words.now) key }
{
    count_values(words, key) <= 1
}

fn count_values(words: &[String], key: Key) -> usize
    ensures { result ≡ length (words_of key (map string_bytes words.now)) }
{
    let mut count = 0;
    for word in words {
        if gives_value(word.as_bytes(), key) {
            count += 1;
        }
    }
    count
}

/// The name at a place among the words, counted from 0.
pub(crate) fn name_at(place: usize, words: &[String]) -> Option<&[u8]>
    ensures value { option_copied result ≡ name_at_of place (map string_bytes words.now) }
    ensures name { IfSome result (λ name. IsTrue (is_name_of name.now)) }
{
    let mut left = place;
    for word in words {
        if is_name(word.as_bytes()) {
            if left == 0 {
                return Some(word.as_bytes());
            }
            left -= 1;
        }
    }
    None
}

/// The first value that the words give the key.
pub(crate) fn value(key: Key, words: &[String]) -> Option<&[u8]>
    ensures { option_copied result ≡ value_of key (map string_bytes words.now) }
{
    for word in words {
        if let Some(value) = value_in(key, word.as_bytes()) {
            return Some(value);
        }
    }
    None
}

/// The value that a word gives the key: what follows `--key=` in it.
fn value_in(key: Key, word: &[u8]) -> Option<&[u8]>
    ensures { option_copied result ≡ value_in_of key word.now }
{
    let front = key.front();
    if word.starts_with(front) {
        Some(&word[front.len()..])
    } else {
        None
    }
}
