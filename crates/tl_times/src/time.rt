//! Reads a time.
ghost use Rattle.std.specs.Char.{is_ascii_digit};
ghost use Rattle.std.specs.List.{prefix_len};
ghost use Rattle.std.specs.Prelude.{◌≡◌, ◌≤◌, ◌<◌, length};
ghost use Rattle.std.specs.Str.Parse.{AllDigits, digits_value};
ghost use Rattle.tl_times.specs.Inner.Digits.{AreFewDigits};
ghost use Rattle.tl_times.specs.Time.{without, digits_of, after_digits, padded, is_unit, time_of};
ghost use Rattle.tl_times.specs.declared.time.TheConstants.{MOST_DIGITS, SCALE};

/// The largest number of digits of a time before its decimal point, and after it.
const MOST_DIGITS: usize = 18;

/// The factor that makes a time with that many digits after its decimal point an integer.
const SCALE: u128 = 1_000_000_000_000_000_000;

/// The largest number of characters of a time's unit, including the space before it.
const LONGEST_UNIT: usize = 3;

/// Returns the number of digits with which a text begins.
fn digit_count(text: &[u8]) -> usize
    ensures { result ≡ prefix_len is_ascii_digit text.now }
{
    for at in 0..text.len() {
        if !text[at].is_ascii_digit() {
            return at;
        }
    }
    text.len()
}

/// Returns the digits with which a text begins, and the rest of it.
fn split_digits(text: &[u8]) -> (&[u8], &[u8])
    ensures digits { result.0.now ≡ digits_of text.now }
    ensures rest { result.1.now ≡ after_digits text.now }
    ensures are_digits { AllDigits 10 result.0.now }
{
    text.split_at(digit_count(text))
}

/// Returns a text without this byte at its beginning. Returns the whole text if it begins with
/// another one.
fn without(text: &[u8], byte: u8) -> &[u8]
    ensures { result.now ≡ without byte text.now }
{
    if !text.is_empty() && text[0] == byte {
        &text[1..]
    } else {
        text
    }
}

/// Returns whether a text is empty or a unit, such as ` ns`.
fn is_unit(text: &[u8]) -> bool
    ensures { result ≡ is_unit text.now }
{
    for byte in without(text, b' ') {
        if !byte.is_ascii_alphabetic() {
            return false;
        }
    }
    text.len() <= LONGEST_UNIT
}

/// Returns the number that these decimal digits represent.
fn number_of(digits: &[u8]) -> u128
    requires { AreFewDigits digits.now }
    ensures value { result ≡ digits_value 10 digits.now }
    ensures few { result < SCALE }
{
    let mut number = 0u128;
    for byte in digits {
        number = number * 10 + (*byte - b'0') as u128;
    }
    number
}

/// Returns decimal digits with zeros after them, `MOST_DIGITS` in all.
fn padded(digits: &[u8]) -> [u8; MOST_DIGITS]
    requires { length digits.now ≤ MOST_DIGITS }
    ensures { result ≡ padded digits.now }
{
    let mut all = [b'0'; MOST_DIGITS];
    all[..digits.len()].copy_from_slice(digits);
    all
}

/// Returns a time, multiplied by 10^18, without its unit. Returns `None` if the text is not a time.
pub fn time_of(text: &[u8]) -> Option<u128>
    ensures { result ≡ time_of text.now }
{
    let (whole, rest) = split_digits(text);
    let (fraction, unit) = split_digits(without(rest, b'.'));
    if whole.is_empty() || whole.len() > MOST_DIGITS || fraction.len() > MOST_DIGITS {
        return None;
    }
    if !is_unit(unit) {
        return None;
    }
    Some(number_of(whole) * SCALE + number_of(&padded(fraction)))
}
