//! Reads hexadecimal digits without a test for each one. The values of bad digits are combined, and
//! tested once at the end.
ghost use Rattle.std.specs.Prelude.{if◌then◌else◌, ◌==◌, ◌≡◌, ◌≤◌, ◌<◌, ◌+◌, ◌*◌, ◌/◌, length, nat_lt, true};
ghost use Rattle.tl_lanes.specs.declared.limits.TheConstants.{WIDEST};
ghost use Rattle.tl_trace.specs.Fields.{number_of_lanes};
ghost use Rattle.tl_trace.specs.Lines.{is_lanes};
ghost use Rattle.tl_trace.specs.Inner.Reading.{digit_of, IsNumber, IsPair, IsSpelt};
ghost use Rattle.tl_trace.specs.declared.digits.TheConstants.{DIGITS};

use tl_lanes::Mask;

/// The number of hexadecimal digits of a `u64`.
pub const DIGITS: usize = 16;

/// The number of values of a `u64`.
pub const VALUES: Mask = 1 << 64;

/// The value of each byte as a lower-case hexadecimal digit, and 16 for every other byte.
static DIGIT_VALUES: [u8; 256] = [
    16, 16, 16, 16, 16, 16, 16, 16, 16, 16, 16, 16, 16, 16, 16, 16, 16, 16, 16, 16, 16, 16, 16, 16,
    16, 16, 16, 16, 16, 16, 16, 16, 16, 16, 16, 16, 16, 16, 16, 16, 16, 16, 16, 16, 16, 16, 16, 16,
    0, 1, 2, 3, 4, 5, 6, 7, 8, 9, 16, 16, 16, 16, 16, 16, 16, 16, 16, 16, 16, 16, 16, 16, 16, 16,
    16, 16, 16, 16, 16, 16, 16, 16, 16, 16, 16, 16, 16, 16, 16, 16, 16, 16, 16, 16, 16, 16, 16, 10,
    11, 12, 13, 14, 15, 16, 16, 16, 16, 16, 16, 16, 16, 16, 16, 16, 16, 16, 16, 16, 16, 16, 16, 16,
    16, 16, 16, 16, 16, 16, 16, 16, 16, 16, 16, 16, 16, 16, 16, 16, 16, 16, 16, 16, 16, 16, 16, 16,
    16, 16, 16, 16, 16, 16, 16, 16, 16, 16, 16, 16, 16, 16, 16, 16, 16, 16, 16, 16, 16, 16, 16, 16,
    16, 16, 16, 16, 16, 16, 16, 16, 16, 16, 16, 16, 16, 16, 16, 16, 16, 16, 16, 16, 16, 16, 16, 16,
    16, 16, 16, 16, 16, 16, 16, 16, 16, 16, 16, 16, 16, 16, 16, 16, 16, 16, 16, 16, 16, 16, 16, 16,
    16, 16, 16, 16, 16, 16, 16, 16, 16, 16, 16, 16, 16, 16, 16, 16, 16, 16, 16, 16, 16, 16, 16, 16,
    16, 16, 16, 16, 16, 16, 16, 16, 16, 16, 16, 16, 16, 16,
];

/// The value of each byte as the higher of two lower-case hexadecimal digits, and 256 for every
/// byte that is not a digit.
static HIGH_VALUES: [u16; 256] = [
    256, 256, 256, 256, 256, 256, 256, 256, 256, 256, 256, 256, 256, 256, 256, 256, 256, 256, 256,
    256, 256, 256, 256, 256, 256, 256, 256, 256, 256, 256, 256, 256, 256, 256, 256, 256, 256, 256,
    256, 256, 256, 256, 256, 256, 256, 256, 256, 256, 0, 16, 32, 48, 64, 80, 96, 112, 128, 144,
    256, 256, 256, 256, 256, 256, 256, 256, 256, 256, 256, 256, 256, 256, 256, 256, 256, 256, 256,
    256, 256, 256, 256, 256, 256, 256, 256, 256, 256, 256, 256, 256, 256, 256, 256, 256, 256, 256,
    256, 160, 176, 192, 208, 224, 240, 256, 256, 256, 256, 256, 256, 256, 256, 256, 256, 256, 256,
    256, 256, 256, 256, 256, 256, 256, 256, 256, 256, 256, 256, 256, 256, 256, 256, 256, 256, 256,
    256, 256, 256, 256, 256, 256, 256, 256, 256, 256, 256, 256, 256, 256, 256, 256, 256, 256, 256,
    256, 256, 256, 256, 256, 256, 256, 256, 256, 256, 256, 256, 256, 256, 256, 256, 256, 256, 256,
    256, 256, 256, 256, 256, 256, 256, 256, 256, 256, 256, 256, 256, 256, 256, 256, 256, 256, 256,
    256, 256, 256, 256, 256, 256, 256, 256, 256, 256, 256, 256, 256, 256, 256, 256, 256, 256, 256,
    256, 256, 256, 256, 256, 256, 256, 256, 256, 256, 256, 256, 256, 256, 256, 256, 256, 256, 256,
    256, 256, 256, 256, 256, 256, 256, 256, 256, 256, 256, 256, 256, 256, 256, 256, 256, 256, 256,
    256, 256, 256, 256, 256, 256, 256, 256,
];

/// The value of each byte as the lower of two digits, and 256 for every byte that is not a digit.
static LOW_VALUES: [u16; 256] = [
    256, 256, 256, 256, 256, 256, 256, 256, 256, 256, 256, 256, 256, 256, 256, 256, 256, 256, 256,
    256, 256, 256, 256, 256, 256, 256, 256, 256, 256, 256, 256, 256, 256, 256, 256, 256, 256, 256,
    256, 256, 256, 256, 256, 256, 256, 256, 256, 256, 0, 1, 2, 3, 4, 5, 6, 7, 8, 9, 256, 256, 256,
    256, 256, 256, 256, 256, 256, 256, 256, 256, 256, 256, 256, 256, 256, 256, 256, 256, 256, 256,
    256, 256, 256, 256, 256, 256, 256, 256, 256, 256, 256, 256, 256, 256, 256, 256, 256, 10, 11,
    12, 13, 14, 15, 256, 256, 256, 256, 256, 256, 256, 256, 256, 256, 256, 256, 256, 256, 256, 256,
    256, 256, 256, 256, 256, 256, 256, 256, 256, 256, 256, 256, 256, 256, 256, 256, 256, 256, 256,
    256, 256, 256, 256, 256, 256, 256, 256, 256, 256, 256, 256, 256, 256, 256, 256, 256, 256, 256,
    256, 256, 256, 256, 256, 256, 256, 256, 256, 256, 256, 256, 256, 256, 256, 256, 256, 256, 256,
    256, 256, 256, 256, 256, 256, 256, 256, 256, 256, 256, 256, 256, 256, 256, 256, 256, 256, 256,
    256, 256, 256, 256, 256, 256, 256, 256, 256, 256, 256, 256, 256, 256, 256, 256, 256, 256, 256,
    256, 256, 256, 256, 256, 256, 256, 256, 256, 256, 256, 256, 256, 256, 256, 256, 256, 256, 256,
    256, 256, 256, 256, 256, 256, 256, 256, 256, 256, 256, 256, 256, 256, 256, 256, 256, 256, 256,
    256, 256, 256, 256,
];

/// 0 for a space, and 16, as for a bad digit, for every other byte. A table is faster than a
/// comparison.
static SPACE_VALUES: [u8; 256] = [
    16, 16, 16, 16, 16, 16, 16, 16, 16, 16, 16, 16, 16, 16, 16, 16, 16, 16, 16, 16, 16, 16, 16, 16,
    16, 16, 16, 16, 16, 16, 16, 16, 0, 16, 16, 16, 16, 16, 16, 16, 16, 16, 16, 16, 16, 16, 16, 16,
    16, 16, 16, 16, 16, 16, 16, 16, 16, 16, 16, 16, 16, 16, 16, 16, 16, 16, 16, 16, 16, 16, 16, 16,
    16, 16, 16, 16, 16, 16, 16, 16, 16, 16, 16, 16, 16, 16, 16, 16, 16, 16, 16, 16, 16, 16, 16, 16,
    16, 16, 16, 16, 16, 16, 16, 16, 16, 16, 16, 16, 16, 16, 16, 16, 16, 16, 16, 16, 16, 16, 16, 16,
    16, 16, 16, 16, 16, 16, 16, 16, 16, 16, 16, 16, 16, 16, 16, 16, 16, 16, 16, 16, 16, 16, 16, 16,
    16, 16, 16, 16, 16, 16, 16, 16, 16, 16, 16, 16, 16, 16, 16, 16, 16, 16, 16, 16, 16, 16, 16, 16,
    16, 16, 16, 16, 16, 16, 16, 16, 16, 16, 16, 16, 16, 16, 16, 16, 16, 16, 16, 16, 16, 16, 16, 16,
    16, 16, 16, 16, 16, 16, 16, 16, 16, 16, 16, 16, 16, 16, 16, 16, 16, 16, 16, 16, 16, 16, 16, 16,
    16, 16, 16, 16, 16, 16, 16, 16, 16, 16, 16, 16, 16, 16, 16, 16, 16, 16, 16, 16, 16, 16, 16, 16,
    16, 16, 16, 16, 16, 16, 16, 16, 16, 16, 16, 16, 16, 16, 16, 16,
];

/// Returns the value of a lower-case digit, or 16.
#[inline(always)]
fn digit(byte: u8) -> u8
    ensures { result ≡ digit_of byte }
{
    DIGIT_VALUES[byte as usize]
}

/// A field as a number. If `bad` is above 15, the text of the field does not have the shape of a
/// number.
#[derive(Clone, Copy)]
pub struct Number {
    pub value: u64,
    pub bad: u8,
}

/// A mask as a number. If `bad` is above 15, the text of the mask does not have the shape of a
/// number.
#[derive(Clone, Copy)]
pub struct MaskNumber {
    pub value: Mask,
    pub bad: u8,
}

/// Returns 0 if the byte is a space, and otherwise 16, as for a bad digit.
#[inline(always)]
fn space(byte: u8) -> u8
    ensures { result ≡ (if byte == 32 then 0 else 16) }
{
    SPACE_VALUES[byte as usize]
}

/// Returns 16 times the value of a digit, or 256.
#[inline(always)]
fn high_value(byte: u8) -> u16
    ensures { result ≡ (if nat_lt 15 (digit_of byte) then 256 else 16 * digit_of byte) }
{
    HIGH_VALUES[byte as usize]
}

/// Returns the value of a digit, or 256.
#[inline(always)]
fn low_value(byte: u8) -> u16
    ensures { result ≡ (if nat_lt 15 (digit_of byte) then 256 else digit_of byte) }
{
    LOW_VALUES[byte as usize]
}

/// Returns the value of two digits, or a number above 255.
#[inline(always)]
fn pair(high: u8, low: u8) -> u16
    ensures good { result ≤ 255 → IsPair high low result }
    ensures bad { 255 < result → digit_of high ≤ 15 → 15 < digit_of low }
{
    high_value(high) + low_value(low)
}

/// Returns 0 if all pairs combined in `pairs` have a value, and otherwise 16, as for a bad digit.
#[inline(always)]
fn bad_of(pairs: u16) -> u8
    ensures { result ≡ (if nat_lt 255 pairs then 16 else 0) }
{
    if pairs > 255 { 16 } else { 0 }
}

/// Returns the number that these digits form, read one at a time.
#[inline(always)]
fn number_by_digits(digits: &[u8]) -> Number
    requires { length digits.now ≤ DIGITS }
    ensures { IsSpelt digits.now result.value result.bad }
{
    let mut bad = 0;
    let mut value = 0u64;
    for byte in digits {
        let digit = digit(*byte);
        bad |= digit;
        value = value.wrapping_mul(16).wrapping_add(digit as u64);
    }
    Number { value, bad }
}

/// Returns the number that these digits form, read two at a time. Requires an even number of
/// digits.
#[inline(always)]
fn number_by_pairs(digits: &[u8]) -> Number
    requires even { length digits.now ≡ 2 * (length digits.now / 2) }
    requires few { length digits.now ≤ DIGITS }
    ensures { IsSpelt digits.now result.value result.bad }
{
    let mut pairs = 0u16;
    let mut value = 0u64;
    for i in 0..digits.len() / 2 {
        let byte = pair(digits[2 * i], digits[2 * i + 1]);
        pairs |= byte;
        value = value.wrapping_mul(256).wrapping_add(byte as u64);
    }
    Number {
        value,
        bad: bad_of(pairs),
    }
}

/// Returns the number that these digits form.
#[inline(always)]
fn number_of_digits(digits: &[u8]) -> Number
    requires { length digits.now ≤ DIGITS }
    ensures { IsSpelt digits.now result.value result.bad }
{
    if digits.len() % 2 == 0 {
        return number_by_pairs(digits);
    }
    number_by_digits(digits)
}

/// Returns the number of `count` digits after the space at `at`.
#[inline(always)]
pub fn field(text: &[u8], at: usize, count: usize) -> Number
    requires few { count ≤ DIGITS }
    requires room { at + 1 + count ≤ length text.now }
    ensures { IsNumber text.now at count result.value result.bad }
{
    let number = number_of_digits(&text[at + 1..at + 1 + count]);
    Number {
        value: number.value,
        bad: space(text[at]) | number.bad,
    }
}

/// Returns the mask of `count` digits after the space at `at`. Up to 16 digits, which fit in a
/// `u64`, are read one at a time, because at most widths there are one or two. If there are more,
/// the last 16 are read separately.
#[inline(always)]
pub fn mask_field(text: &[u8], at: usize, count: usize) -> MaskNumber
    requires few { count ≤ WIDEST / 4 }
    requires room { at + 1 + count ≤ length text.now }
    ensures { IsNumber text.now at count result.value result.bad }
{
    let digits = &text[at + 1..at + 1 + count];
    if count <= DIGITS {
        let number = number_by_digits(digits);
        return MaskNumber {
            value: number.value as Mask,
            bad: space(text[at]) | number.bad,
        };
    }
    let high = number_of_digits(&digits[..count - DIGITS]);
    let low = number_of_digits(&digits[count - DIGITS..]);
    MaskNumber {
        value: high.value as Mask * VALUES + low.value as Mask,
        bad: space(text[at]) | (high.bad | low.bad),
    }
}

/// Reads the first `w` lanes after the space at `at`, two digits for each lane, highest lane first.
/// Returns a number above 15 if their text does not have the shape of a number.
#[inline(always)]
pub fn lanes_field<const N: usize>(text: &[u8], at: usize, w: usize, lanes: &mut [u8]) -> u8
    requires width { w ≤ N }
    requires most { N ≤ WIDEST }
    requires room { at + 1 + 2 * w ≤ length text.now }
    requires lanes { is_lanes N lanes.old ≡ true }
    requires zero { number_of_lanes lanes.old ≡ 0 }
    ensures bytes { is_lanes N lanes.new ≡ true }
    ensures value { IsNumber text.now at (2 * w) (number_of_lanes lanes.new) result }
{
    let digits = &text[at + 1..at + 1 + 2 * w];
    let mut pairs = 0u16;
    for i in 0..w {
        let lane = pair(digits[2 * i], digits[2 * i + 1]);
        pairs |= lane;
        lanes[w - 1 - i] = (lane % 256) as u8;
    }
    space(text[at]) | bad_of(pairs)
}
