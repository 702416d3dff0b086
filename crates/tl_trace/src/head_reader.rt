//! Readers of the heads of the five channels.
ghost use Rattle.std.specs.Prelude.{ℕ, ◌≡◌, ◌≤◌, ◌+◌, ◌&&◌, true, false, refl, length, nat_lt, MatchOption};
ghost use Rattle.std.specs.List.{list_all};
ghost use Rattle.tl_trace.specs.Fields.{addressed, common, id_digits, length_of};
ghost use Rattle.tl_trace.specs.Inner.Reading.{IsHead, IsSmall, IsCommon, Takes, is_head_field};
ghost use Rattle.tl_trace.specs.declared.places.TheConstants.{LONGEST_HEAD};

use crate::digits::field;
use crate::head_text::HeadText;
use crate::places::{
    ADDRESS_DIGITS, FIRST_AT, PARAM_AT, SIZE_AT, SOURCE_AT, addressed_end, common_end, id_digits,
};
use tl_msg::{ChA, ChB, ChC, ChD, ChE, HeadA, HeadB, HeadC, HeadD, HeadE, SinkId, SourceId};

/// The fields of a head as numbers; a field that the channel does not have is 0. If `bad` is above
/// 15, the text of some field does not have its shape.
#[derive(Clone, Copy)]
pub struct HeadFields {
    pub opcode: u64,
    pub param: u64,
    pub size: u64,
    pub source: u64,
    pub address: u64,
    pub sink: u64,
    pub denied: u64,
    pub bad: u8,
}

/// A channel whose heads can be read from a line.
pub trait ReadHead: HeadText {
    /// Returns the position after the last field of the head.
    fn head_end(version: u8) -> usize
        ensures end { result ≡ 1 + length_of 0 (Self.form version).head_fields }
        ensures few { result ≤ LONGEST_HEAD };

    /// Returns the fields of the head of a line.
    fn read_head(text: &[u8], version: u8) -> HeadFields
        requires { 1 + length_of 0 (Self.form version).head_fields ≤ length text.now }
        ensures { IsHead (id_digits version) text.now (Self.form version).head_fields result };

    /// Returns the head with these fields, or `None` if a field is out of range. Requires fields
    /// that fit their digits; no version has ids of more than four digits.
    fn head_of(fields: &HeadFields) -> Option<Self::Head>
        requires { IsSmall 4 fields.now }
        ensures { (version : ℕ) → IsSmall (id_digits version) fields.now →
            Takes (Self.form version) fields.now result };

    ghost head_alone: { (version : ℕ) →
        list_all is_head_field (Self.form version).head_fields ≡ true };
}

/// Returns the fields that the heads of A to D begin with.
#[inline(always)]
fn read_common(text: &[u8], version: u8) -> HeadFields
    requires { 1 + length_of 0 (common version) ≤ length text.now }
    ensures { IsHead (id_digits version) text.now (common version) result }
{
    let opcode = field(text, FIRST_AT, 1);
    let param = field(text, PARAM_AT, 1);
    let size = field(text, SIZE_AT, 1);
    let source = field(text, SOURCE_AT, id_digits(version));
    HeadFields {
        opcode: opcode.value,
        param: param.value,
        size: size.value,
        source: source.value,
        address: 0,
        sink: 0,
        denied: 0,
        bad: opcode.bad | param.bad | size.bad | source.bad,
    }
}

/// Returns the fields of a head with an address.
#[inline(always)]
fn read_addressed(text: &[u8], version: u8) -> HeadFields
    requires { 1 + length_of 0 (addressed version) ≤ length text.now }
    ensures { IsHead (id_digits version) text.now (addressed version) result }
{
    let common = read_common(text, version);
    let address = field(text, common_end(version), ADDRESS_DIGITS);
    HeadFields {
        address: address.value,
        bad: common.bad | address.bad,
        ..common
    }
}

/// The fields that the heads of A to D begin with.
#[derive(Clone, Copy)]
struct CommonFields {
    opcode: u8,
    param: u8,
    size: u8,
    source: SourceId,
}

/// Returns the common fields, or `None` if the opcode is above 7 or the param is not below
/// `params`.
#[inline(always)]
fn common_of(fields: &HeadFields, params: u64) -> Option<CommonFields>
    requires { IsSmall 4 fields.now }
    ensures { MatchOption result
        ((nat_lt fields.now.opcode 8 && nat_lt fields.now.param params) ≡ false)
        (IsCommon fields.now params) }
{
    if fields.opcode >= 8 || fields.param >= params {
        return None;
    }
    Some(CommonFields {
        opcode: fields.opcode as u8,
        param: fields.param as u8,
        size: fields.size as u8,
        source: fields.source as SourceId,
    })
}

impl ReadHead for ChA {
    #[inline]
    fn head_end(version: u8) -> usize {
        addressed_end(version)
    }

    #[inline(always)]
    fn read_head(text: &[u8], version: u8) -> HeadFields {
        read_addressed(text, version)
    }

    #[inline(always)]
    fn head_of(fields: &HeadFields) -> Option<HeadA> {
        // (here and in the three functions below, `?` would add two return paths to check)
        let Some(common) = common_of(fields, 8) else {
            return None;
        };
        Some(HeadA {
            opcode: common.opcode,
            param: common.param,
            size: common.size,
            source: common.source,
            address: fields.address,
        })
    }

    ghost head_alone = { λ version. refl };
}

impl ReadHead for ChB {
    #[inline]
    fn head_end(version: u8) -> usize {
        addressed_end(version)
    }

    #[inline(always)]
    fn read_head(text: &[u8], version: u8) -> HeadFields {
        read_addressed(text, version)
    }

    #[inline(always)]
    fn head_of(fields: &HeadFields) -> Option<HeadB> {
        let Some(common) = common_of(fields, 8) else {
            return None;
        };
        Some(HeadB {
            opcode: common.opcode,
            param: common.param,
            size: common.size,
            source: common.source,
            address: fields.address,
        })
    }

    ghost head_alone = { λ version. refl };
}

impl ReadHead for ChC {
    #[inline]
    fn head_end(version: u8) -> usize {
        addressed_end(version)
    }

    #[inline(always)]
    fn read_head(text: &[u8], version: u8) -> HeadFields {
        read_addressed(text, version)
    }

    #[inline(always)]
    fn head_of(fields: &HeadFields) -> Option<HeadC> {
        let Some(common) = common_of(fields, 8) else {
            return None;
        };
        Some(HeadC {
            opcode: common.opcode,
            param: common.param,
            size: common.size,
            source: common.source,
            address: fields.address,
        })
    }

    ghost head_alone = { λ version. refl };
}

impl ReadHead for ChD {
    #[inline]
    fn head_end(version: u8) -> usize {
        common_end(version) + 1 + id_digits(version) + 2
    }

    #[inline(always)]
    fn read_head(text: &[u8], version: u8) -> HeadFields {
        let common = read_common(text, version);
        let sink_at = common_end(version);
        let digits = id_digits(version);
        let sink = field(text, sink_at, digits);
        let denied = field(text, sink_at + 1 + digits, 1);
        HeadFields {
            sink: sink.value,
            denied: denied.value,
            bad: common.bad | sink.bad | denied.bad,
            ..common
        }
    }

    #[inline(always)]
    fn head_of(fields: &HeadFields) -> Option<HeadD> {
        let Some(common) = common_of(fields, 4) else {
            return None;
        };
        if fields.denied > 1 {
            return None;
        }
        Some(HeadD {
            opcode: common.opcode,
            param: common.param,
            size: common.size,
            source: common.source,
            sink: fields.sink as SinkId,
            denied: fields.denied == 1,
        })
    }

    ghost head_alone = { λ version. refl };
}

impl ReadHead for ChE {
    #[inline]
    fn head_end(version: u8) -> usize {
        FIRST_AT + 1 + id_digits(version)
    }

    #[inline(always)]
    fn read_head(text: &[u8], version: u8) -> HeadFields {
        let sink = field(text, FIRST_AT, id_digits(version));
        HeadFields {
            opcode: 0,
            param: 0,
            size: 0,
            source: 0,
            address: 0,
            sink: sink.value,
            denied: 0,
            bad: sink.bad,
        }
    }

    #[inline(always)]
    fn head_of(fields: &HeadFields) -> Option<HeadE> {
        Some(HeadE {
            sink: fields.sink as SinkId,
        })
    }

    ghost head_alone = { λ version. refl };
}
