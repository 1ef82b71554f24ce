ghost use Rattle.std.specs.Prelude.{◌≡◌};
ghost use Rattle.std.specs.Option.{option_copied};
ghost use Rattle.xsearch_words.specs.Switches.{switch as switch_of, switch_or as switch_or_of};

/// How an option's value sets a switch, or else `without` where the option isn't given. None where
/// the value is neither `yes` nor `no`.
pub(crate) fn switch_or(without: bool, value: Option<&[u8]>) -> Option<bool>
    ensures { result ≡ switch_or_of without (option_copied value.entry) }
{
    match value {
        None => Some(without),
        Some(value) => switch(value),
    }
}

fn switch(value: &[u8]) -> Option<bool>
    ensures { result ≡ switch_of value.now }
{
    if value == b"yes".as_slice() {
        Some(true)
    } else if value == b"no".as_slice() {
        Some(false)
    } else {
        None
    }
}
