ghost use Rattle.std.specs.Prelude.{◌≡◌, ◌≤◌, ◌==◌, length};
ghost use Rattle.std.specs.List.{prefix_len};
ghost use Rattle.ip_core.specs.Decimals.{first_passes, is_digit as is_digit_of, is_sign, after_one, digits, after_digits, parts_of, parts, with_exponent as with_exponent_of, with_fraction as with_fraction_of, lacks_digits as lacks_digits_of};

/// What a numeral is made of: runs of digits that may be empty, and the bytes that continue it no more.
#[derive(Clone, Copy)]
pub struct Numeral<'a> {
    pub negative: bool,
    pub whole: &'a [u8],
    pub fraction: &'a [u8],
    pub has_exponent: bool,
    pub exponent_negative: bool,
    pub exponent: &'a [u8],
    pub left: &'a [u8],
}

/// Whether the bytes begin with this one.
fn begins_with(bytes: &[u8], first: u8) -> bool
    ensures { result ≡ first_passes (λ b. b == first) bytes.now }
{
    match bytes {
        [byte, ..] => *byte == first,
        [] => false,
    }
}

/// What follows a sign, if there is one.
fn after_sign(bytes: &[u8]) -> &[u8]
    ensures { result.now ≡ after_one is_sign bytes.now }
{
    match bytes {
        [b'+' | b'-', rest @ ..] => rest,
        _ => bytes,
    }
}

/// The number of digits at the front.
fn count_digits(bytes: &[u8]) -> usize
    ensures value { result ≡ prefix_len is_digit_of bytes.now }
    ensures within { result ≤ length bytes.now }
{
    let mut count = 0;
    while count < bytes.len() && is_digit(bytes[count]) {
        count += 1;
    }
    count
}

fn is_digit(byte: u8) -> bool
    ensures { result ≡ is_digit_of byte }
{
    48 <= byte && byte <= 57
}

/// The digits at the front, and what follows them.
fn split_digits(bytes: &[u8]) -> (&[u8], &[u8])
    ensures front { result.0.now ≡ digits bytes.now }
    ensures back { result.1.now ≡ after_digits bytes.now }
{
    bytes.split_at(count_digits(bytes))
}

/// The parts of a numeral whose exponent, if there is one, begins the tail.
fn with_exponent<'a>(
    negative: bool,
    whole: &'a [u8],
    fraction: &'a [u8],
    tail: &'a [u8],
) -> Numeral<'a>
    ensures { parts_of result ≡ with_exponent_of negative whole.now fraction.now tail.now }
{
    match tail {
        [b'D' | b'E' | b'd' | b'e', power @ ..] => {
            let exponent_negative = begins_with(power, b'-');
            let (exponent, left) = split_digits(after_sign(power));
            Numeral {
                negative,
                whole,
                fraction,
                has_exponent: true,
                exponent_negative,
                exponent,
                left,
            }
        }
        _ => Numeral {
            negative,
            whole,
            fraction,
            has_exponent: false,
            exponent_negative: false,
            exponent: &[],
            left: tail,
        },
    }
}

/// The parts of a numeral whose point, if there is one, begins the tail.
fn with_fraction<'a>(negative: bool, whole: &'a [u8], tail: &'a [u8]) -> Numeral<'a>
    ensures { parts_of result ≡ with_fraction_of negative whole.now tail.now }
{
    match tail {
        [b'.', rest @ ..] => {
            let (fraction, tail) = split_digits(rest);
            with_exponent(negative, whole, fraction, tail)
        }
        _ => with_exponent(negative, whole, &[], tail),
    }
}

/// The parts of a numeral: a sign or none, digits with at most one point, and perhaps an exponent.
pub fn numeral_of(bytes: &[u8]) -> Numeral<'_>
    ensures { parts_of result ≡ parts bytes.now }
{
    let (whole, tail) = split_digits(after_sign(bytes));
    with_fraction(begins_with(bytes, b'-'), whole, tail)
}

/// Whether no digit stands before the exponent, or none in it.
pub fn lacks_digits(numeral: Numeral<'_>) -> bool
    ensures { result ≡ lacks_digits_of (parts_of numeral.entry) }
{
    if numeral.whole.is_empty() && numeral.fraction.is_empty() {
        return true;
    }
    numeral.has_exponent && numeral.exponent.is_empty()
}
