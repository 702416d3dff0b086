//! Functions that write digits, fields and words to a line or a piece of text.
ghost use Rattle.std.specs.Prelude.{◌≡◌, ◌≤◌, ◌<◌, ◌+◌, ◌*◌, ◌%◌, ◌/◌, ◌++◌, ◌∷◌, [], take, length, decimal};
ghost use Rattle.std.specs.Char.{digit_char};
ghost use Rattle.tl_lanes.specs.declared.limits.TheConstants.{WIDEST};
ghost use Rattle.arrayvec.specs.ArrayVec.{array_vec_len};
ghost use Rattle.tl_trace.specs.Fields.{number_of_lanes};
ghost use Rattle.tl_trace.specs.Lines.{hex};
ghost use Rattle.tl_trace.specs.declared.places.TheConstants.{LONGEST_LINE};

use crate::digits::{DIGITS, VALUES};
use crate::places::LONGEST_LINE;
use arrayvec::ArrayVec;
use tl_lanes::Mask;

/// A text with the capacity of the longest line.
pub type Text = ArrayVec<u8, LONGEST_LINE>;

/// A buffer for one line, which is written from its start.
pub type LineBuffer = [u8; LONGEST_LINE];

/// The two digits of each byte, one after the other.
static PAIRS: [u8; 512] = [
    48, 48, 48, 49, 48, 50, 48, 51, 48, 52, 48, 53, 48, 54, 48, 55, 48, 56, 48, 57, 48, 97, 48, 98,
    48, 99, 48, 100, 48, 101, 48, 102, 49, 48, 49, 49, 49, 50, 49, 51, 49, 52, 49, 53, 49, 54, 49,
    55, 49, 56, 49, 57, 49, 97, 49, 98, 49, 99, 49, 100, 49, 101, 49, 102, 50, 48, 50, 49, 50, 50,
    50, 51, 50, 52, 50, 53, 50, 54, 50, 55, 50, 56, 50, 57, 50, 97, 50, 98, 50, 99, 50, 100, 50,
    101, 50, 102, 51, 48, 51, 49, 51, 50, 51, 51, 51, 52, 51, 53, 51, 54, 51, 55, 51, 56, 51, 57,
    51, 97, 51, 98, 51, 99, 51, 100, 51, 101, 51, 102, 52, 48, 52, 49, 52, 50, 52, 51, 52, 52, 52,
    53, 52, 54, 52, 55, 52, 56, 52, 57, 52, 97, 52, 98, 52, 99, 52, 100, 52, 101, 52, 102, 53, 48,
    53, 49, 53, 50, 53, 51, 53, 52, 53, 53, 53, 54, 53, 55, 53, 56, 53, 57, 53, 97, 53, 98, 53, 99,
    53, 100, 53, 101, 53, 102, 54, 48, 54, 49, 54, 50, 54, 51, 54, 52, 54, 53, 54, 54, 54, 55, 54,
    56, 54, 57, 54, 97, 54, 98, 54, 99, 54, 100, 54, 101, 54, 102, 55, 48, 55, 49, 55, 50, 55, 51,
    55, 52, 55, 53, 55, 54, 55, 55, 55, 56, 55, 57, 55, 97, 55, 98, 55, 99, 55, 100, 55, 101, 55,
    102, 56, 48, 56, 49, 56, 50, 56, 51, 56, 52, 56, 53, 56, 54, 56, 55, 56, 56, 56, 57, 56, 97,
    56, 98, 56, 99, 56, 100, 56, 101, 56, 102, 57, 48, 57, 49, 57, 50, 57, 51, 57, 52, 57, 53, 57,
    54, 57, 55, 57, 56, 57, 57, 57, 97, 57, 98, 57, 99, 57, 100, 57, 101, 57, 102, 97, 48, 97, 49,
    97, 50, 97, 51, 97, 52, 97, 53, 97, 54, 97, 55, 97, 56, 97, 57, 97, 97, 97, 98, 97, 99, 97,
    100, 97, 101, 97, 102, 98, 48, 98, 49, 98, 50, 98, 51, 98, 52, 98, 53, 98, 54, 98, 55, 98, 56,
    98, 57, 98, 97, 98, 98, 98, 99, 98, 100, 98, 101, 98, 102, 99, 48, 99, 49, 99, 50, 99, 51, 99,
    52, 99, 53, 99, 54, 99, 55, 99, 56, 99, 57, 99, 97, 99, 98, 99, 99, 99, 100, 99, 101, 99, 102,
    100, 48, 100, 49, 100, 50, 100, 51, 100, 52, 100, 53, 100, 54, 100, 55, 100, 56, 100, 57, 100,
    97, 100, 98, 100, 99, 100, 100, 100, 101, 100, 102, 101, 48, 101, 49, 101, 50, 101, 51, 101,
    52, 101, 53, 101, 54, 101, 55, 101, 56, 101, 57, 101, 97, 101, 98, 101, 99, 101, 100, 101, 101,
    101, 102, 102, 48, 102, 49, 102, 50, 102, 51, 102, 52, 102, 53, 102, 54, 102, 55, 102, 56, 102,
    57, 102, 97, 102, 98, 102, 99, 102, 100, 102, 101, 102, 102,
];

/// Returns the digit of the lowest 4 bits.
pub fn low_digit(value: u8) -> u8
    ensures { result ≡ digit_char (value % 16) }
{
    PAIRS[2 * value as usize + 1]
}

/// Returns the digit of the highest 4 bits.
pub fn high_digit(value: u8) -> u8
    ensures { result ≡ digit_char (value / 16 % 16) }
{
    PAIRS[2 * value as usize]
}

/// Writes the lowest `count` digits of a number, two at a time from the last one on.
#[inline(always)]
fn write_digits(digits: &mut [u8], value: u64, count: usize)
    requires { length digits.old ≡ count }
    ensures { digits.new ≡ hex count value }
{
    let mut rest = value;
    for i in 0..count / 2 {
        let byte = (rest % 256) as u8;
        digits[count - 1 - 2 * i] = low_digit(byte);
        digits[count - 2 - 2 * i] = high_digit(byte);
        rest /= 256;
    }
    if count % 2 == 1 {
        digits[0] = low_digit((rest % 16) as u8);
    }
}

/// Writes two digits for each of the first `w` lanes, highest lane first.
#[inline(always)]
fn write_lanes(digits: &mut [u8], lanes: &[u8], w: usize)
    requires width { w ≤ WIDEST }
    requires lanes { w ≤ length lanes.now }
    requires room { length digits.old ≡ 2 * w }
    ensures { digits.new ≡ hex (2 * w) (number_of_lanes lanes.now) }
{
    for i in 0..w {
        let lane = lanes[w - 1 - i];
        digits[2 * i] = high_digit(lane);
        digits[2 * i + 1] = low_digit(lane);
    }
}

/// Writes bytes to a line at `at`. Returns the position after them.
#[inline(always)]
pub fn fill(line: &mut [u8], at: usize, bytes: &[u8]) -> usize
    requires { at + length bytes.now ≤ length line.old }
    ensures items { take result line.new ≡ take at line.old ++ bytes.now }
    ensures end { result ≡ at + length bytes.now }
{
    let end = at + bytes.len();
    line[at..end].copy_from_slice(bytes);
    end
}

/// Writes a space and `count` digits of a number to a line at `at`. Returns the position after
/// them.
#[inline(always)]
pub fn fill_field(line: &mut [u8], at: usize, value: u64, count: usize) -> usize
    requires { at + 1 + count ≤ length line.old }
    ensures items { take result line.new ≡ take at line.old ++ 32 ∷ hex count value }
    ensures end { result ≡ at + 1 + count }
{
    let end = at + 1 + count;
    line[at] = b' ';
    write_digits(&mut line[at + 1..end], value, count);
    end
}

/// Writes a space and `count` digits of a mask to a line at `at`. Returns the position after them.
/// If the mask has more than 16 digits, the last 16 are written separately.
#[inline(always)]
pub fn fill_mask_field(line: &mut [u8], at: usize, mask: Mask, count: usize) -> usize
    requires few { count ≤ WIDEST / 4 }
    requires room { at + 1 + count ≤ length line.old }
    ensures items { take result line.new ≡ take at line.old ++ 32 ∷ hex count mask }
    ensures end { result ≡ at + 1 + count }
{
    let low = (mask % VALUES) as u64;
    if count <= DIGITS {
        return fill_field(line, at, low, count);
    }
    let half = fill_field(line, at, (mask / VALUES) as u64, count - DIGITS);
    let end = half + DIGITS;
    write_digits(&mut line[half..end], low, DIGITS);
    end
}

/// Writes a space and two digits for each of the first `w` lanes, highest lane first. Returns the
/// position after them.
#[inline(always)]
pub fn fill_lanes(line: &mut [u8], at: usize, lanes: &[u8], w: usize) -> usize
    requires width { w ≤ WIDEST }
    requires lanes { w ≤ length lanes.now }
    requires room { at + 1 + 2 * w ≤ length line.old }
    ensures items { take result line.new ≡
        take at line.old ++ 32 ∷ hex (2 * w) (number_of_lanes lanes.now) }
    ensures end { result ≡ at + 1 + 2 * w }
{
    let end = at + 1 + 2 * w;
    line[at] = b' ';
    write_lanes(&mut line[at + 1..end], lanes, w);
    end
}

/// Appends bytes. Requires enough capacity.
#[inline(always)]
pub fn put<const N: usize>(text: &mut ArrayVec<u8, N>, bytes: &[u8])
    requires { array_vec_len text.old + length bytes.now ≤ N }
    ensures items { text.new.items ≡ text.old.items ++ bytes.now }
    ensures len { array_vec_len text.new ≡ array_vec_len text.old + length bytes.now }
{
    let _ = text.try_extend_from_slice(bytes);
}

/// Appends a byte. Requires enough capacity.
pub fn put_byte(text: &mut Text, byte: u8)
    requires { array_vec_len text.old + 1 ≤ LONGEST_LINE }
    ensures items { text.new.items ≡ text.old.items ++ byte ∷ [] }
    ensures len { array_vec_len text.new ≡ array_vec_len text.old + 1 }
{
    text.push(byte);
}

/// Appends a number in decimal. Requires enough capacity.
pub fn put_decimal(text: &mut Text, value: u64)
    requires { array_vec_len text.old + length (decimal value) ≤ LONGEST_LINE }
    ensures items { text.new.items ≡ text.old.items ++ decimal value }
    ensures len { array_vec_len text.new ≡ array_vec_len text.old + length (decimal value) }
{
    if value < 10 {
        put_byte(text, 48 + value as u8);
        return;
    }
    put_decimal(text, value / 10);
    put_byte(text, 48 + (value % 10) as u8);
}
