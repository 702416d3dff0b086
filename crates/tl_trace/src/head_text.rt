//! The text of a head.
ghost use Rattle.std.specs.Prelude.{◌≡◌, ◌≤◌, ◌∷◌, ◌%◌, ℕ, Bool, true, false, refl, take, flat_map};
ghost use Rattle.std.specs.Char.{digit_char};
ghost use Rattle.tl_trace.specs.Fields.{Form, id_digits, digit_count, value_of, form_a, form_b, form_c, form_d, form_e};
ghost use Rattle.tl_trace.specs.Lines.{hex, head_text};
ghost use Rattle.tl_msg.specs.declared.beat.BeatOf.{BeatOf};
ghost use Rattle.tl_trace.specs.declared.places.TheConstants.{LONGEST_COMMON, LONGEST_HEAD};

use crate::places::{ADDRESS_DIGITS, LONGEST_LINE, id_digits};
use crate::text::{LineBuffer, fill, fill_field, low_digit, put};
use arrayvec::ArrayVec;
use tl_msg::{ChA, ChB, ChC, ChD, ChE, Channel, HeadA, HeadB, HeadC, HeadD, HeadE, SourceId};

/// A channel whose heads can be written to a line.
pub trait HeadText: Channel {
    /// Whether the lines of the channel have data and corrupt: true on all channels except E.
    const HAS_DATA: bool;

    ghost form: { (version : ℕ) → Form Self.Head };

    ghost HAS_DATA: { Bool };

    /// Writes the line of a trace of this version from its letter up to the last field before mask
    /// and data; on E the whole line without LF. Returns the position after it. Each field is
    /// written by its lowest digits, an id by two in version 1 and by four in version 2.
    fn fill_head(line: &mut [u8; LONGEST_LINE], head: &Self::Head, version: u8) -> usize
        ensures items { take result line.new ≡ head_text (form version) head.now }
        ensures end { result ≤ LONGEST_HEAD };

    /// Returns the line of a trace of this version from its letter up to the last field before mask
    /// and data, without LF; on E the whole line. Each field is written by its lowest digits, an id
    /// by two in version 1 and by four in version 2.
    fn head_text(head: &Self::Head, version: u8) -> ArrayVec<u8, 32>
        ensures { result.items ≡ head_text (form version) head.now }
    {
        let mut line = [0; LONGEST_LINE];
        let end = Self::fill_head(&mut line, head, version);
        let mut text = ArrayVec::new();
        put(&mut text, &line[..end]);
        text
    }

    ghost same_rules: { (version : ℕ) → (form version).rules ≡ Self.rules };

    ghost masked_form: { (version : ℕ) → (form version).rules.masked ≡ Self.MASKED };

    ghost data_form: { (version : ℕ) → (form version).rules.corrupts ≡ HAS_DATA };

    ghost narrow_head: { (version n w : ℕ) (b : BeatOf Self.Head n) →
        flat_map (λ field. 32 ∷ hex (digit_count w field) (value_of (form version) b field))
        (form version).head_fields ≡
        flat_map (λ field. 32 ∷ hex (digit_count 0 field) ((form version).value b.head field))
        (form version).head_fields };
}

/// Writes the letter, opcode, param, size and source. Returns the position after them.
#[inline(always)]
fn fill_common(
    line: &mut LineBuffer,
    letter: u8,
    opcode: u8,
    param: u8,
    size: u8,
    source: SourceId,
    version: u8,
) -> usize
    ensures items { take result line.new ≡ letter ∷ 32 ∷ digit_char (opcode % 16) ∷
        32 ∷ digit_char (param % 16) ∷ 32 ∷ digit_char (size % 16) ∷
        32 ∷ hex (id_digits version) source }
    ensures end { result ≤ LONGEST_COMMON }
{
    let (opcode, param, size) = (low_digit(opcode), low_digit(param), low_digit(size));
    let id = fill(line, 0, &[letter, b' ', opcode, b' ', param, b' ', size]);
    fill_field(line, id, source as u64, id_digits(version))
}

impl HeadText for ChA {
    const HAS_DATA: bool = true;

    ghost form = { form_a };

    ghost HAS_DATA = { true };

    #[inline(always)]
    fn fill_head(line: &mut LineBuffer, head: &HeadA, version: u8) -> usize {
        let (opcode, param, size) = (head.opcode, head.param, head.size);
        let address = fill_common(line, b'A', opcode, param, size, head.source, version);
        fill_field(line, address, head.address, ADDRESS_DIGITS)
    }

    ghost same_rules = { λ version. refl };

    ghost masked_form = { λ version. refl };

    ghost data_form = { λ version. refl };

    ghost narrow_head = { λ version n w b. refl };
}

impl HeadText for ChB {
    const HAS_DATA: bool = true;

    ghost form = { form_b };

    ghost HAS_DATA = { true };

    #[inline(always)]
    fn fill_head(line: &mut LineBuffer, head: &HeadB, version: u8) -> usize {
        let (opcode, param, size) = (head.opcode, head.param, head.size);
        let address = fill_common(line, b'B', opcode, param, size, head.source, version);
        fill_field(line, address, head.address, ADDRESS_DIGITS)
    }

    ghost same_rules = { λ version. refl };

    ghost masked_form = { λ version. refl };

    ghost data_form = { λ version. refl };

    ghost narrow_head = { λ version n w b. refl };
}

impl HeadText for ChC {
    const HAS_DATA: bool = true;

    ghost form = { form_c };

    ghost HAS_DATA = { true };

    #[inline(always)]
    fn fill_head(line: &mut LineBuffer, head: &HeadC, version: u8) -> usize {
        let (opcode, param, size) = (head.opcode, head.param, head.size);
        let address = fill_common(line, b'C', opcode, param, size, head.source, version);
        fill_field(line, address, head.address, ADDRESS_DIGITS)
    }

    ghost same_rules = { λ version. refl };

    ghost masked_form = { λ version. refl };

    ghost data_form = { λ version. refl };

    ghost narrow_head = { λ version n w b. refl };
}

impl HeadText for ChD {
    const HAS_DATA: bool = true;

    ghost form = { form_d };

    ghost HAS_DATA = { true };

    #[inline(always)]
    fn fill_head(line: &mut LineBuffer, head: &HeadD, version: u8) -> usize {
        let (opcode, param, size) = (head.opcode, head.param, head.size);
        let sink = fill_common(line, b'D', opcode, param, size, head.source, version);
        let denied = fill_field(line, sink, head.sink as u64, id_digits(version));
        fill(line, denied, &[b' ', low_digit(head.denied as u8)])
    }

    ghost same_rules = { λ version. refl };

    ghost masked_form = { λ version. refl };

    ghost data_form = { λ version. refl };

    ghost narrow_head = { λ version n w b. refl };
}

impl HeadText for ChE {
    const HAS_DATA: bool = false;

    ghost form = { form_e };

    ghost HAS_DATA = { false };

    #[inline(always)]
    fn fill_head(line: &mut LineBuffer, head: &HeadE, version: u8) -> usize {
        let sink = fill(line, 0, b"E");
        fill_field(line, sink, head.sink as u64, id_digits(version))
    }

    ghost same_rules = { λ version. refl };

    ghost masked_form = { λ version. refl };

    ghost data_form = { λ version. refl };

    ghost narrow_head = { λ version n w b. refl };
}
