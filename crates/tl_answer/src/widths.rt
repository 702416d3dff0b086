//! The header of a text, and the choice of widths that are known only at run time.
ghost use Rattle.std.specs.Prelude.{◌≡◌, ◌≢◌, None, IfOk, IfErr};
ghost use Rattle.tl_lanes.specs.Lanes.{IsWidth};
ghost use Rattle.tl_trace.specs.Faults.{HasHeader, body, header_of};
ghost use Rattle.tl_trace.specs.declared.fault.TraceKind.TheVariants.{Header as NoHeader};
ghost use Rattle.tl_stream.specs.Inputs.{held};
ghost use Rattle.tl_stream.specs.declared.fault.TextFault.TheVariants.{Trace as FaultOfTrace};

use tl_stream::{Input, TextFault};
use tl_trace::{Header, TraceFault, TraceKind, header_of_text};

/// Returns the header of a text. Errors: `Header` on line 1 if its first line is not a header.
pub fn known_header(text: &[u8]) -> Result<Header, TextFault>
    ensures ok { IfOk result (λ header.
        HasHeader text.now header.version header.client header.manager) }
    ensures err { IfErr result (λ fault.
        (fault ≡ FaultOfTrace (record { line = 1; kind = NoHeader })) ×
        (header_of (body text.now) ≡ None)) }

    // a width is 128 if it is none of the other seven
    ensures client { IfOk result (λ header. header.client ≢ 1 → header.client ≢ 2 →
        header.client ≢ 4 → header.client ≢ 8 → header.client ≢ 16 → header.client ≢ 32 →
        header.client ≢ 64 → header.client ≡ 128) }
    ensures manager { IfOk result (λ header. header.manager ≢ 1 → header.manager ≢ 2 →
        header.manager ≢ 4 → header.manager ≢ 8 → header.manager ≢ 16 → header.manager ≢ 32 →
        header.manager ≢ 64 → header.manager ≡ 128) }
{
    match header_of_text(text) {
        Some(header) => Ok(header),
        None => Err(TextFault::Trace(TraceFault {
            line: 1,
            kind: TraceKind::Header,
        })),
    }
}

/// Lemma: the widths of a header are widths of a link.
pub(crate) fn lemma_are_widths<const C: usize, const M: usize>(input: &Input, version: u8)
    requires { HasHeader (held input.now) version C M }
    ensures client { IsWidth C }
    ensures manager { IsWidth M }
{}

/// Calls a function that is generic in a width, its last parameter, with a width that is a number:
/// `at_width!(number, name::<A, B, _>(x, y))`. Any number other than the first seven widths counts
/// as 128.
#[macro_export]
macro_rules! at_width {
    ($width:expr, $name:ident::<$($before:ident,)* _>($($argument:expr),*)) => {
        match $width {
            1 => $name::<$($before,)* 1>($($argument),*),
            2 => $name::<$($before,)* 2>($($argument),*),
            4 => $name::<$($before,)* 4>($($argument),*),
            8 => $name::<$($before,)* 8>($($argument),*),
            16 => $name::<$($before,)* 16>($($argument),*),
            32 => $name::<$($before,)* 32>($($argument),*),
            64 => $name::<$($before,)* 64>($($argument),*),
            _ => $name::<$($before,)* 128>($($argument),*),
        }
    };
}

/// Calls a function that is generic in both widths, its last parameters, with the widths of a
/// header: `at_widths!(header, name::<A, B, _, _>(x, y))`.
#[macro_export]
macro_rules! at_widths {
    ($header:ident, $name:ident::<$($before:ident,)* _, _>($($argument:expr),*)) => {
        match $header.client {
            1 => at_widths!(@ $header, $name::<$($before,)* 1, _>($($argument),*)),
            2 => at_widths!(@ $header, $name::<$($before,)* 2, _>($($argument),*)),
            4 => at_widths!(@ $header, $name::<$($before,)* 4, _>($($argument),*)),
            8 => at_widths!(@ $header, $name::<$($before,)* 8, _>($($argument),*)),
            16 => at_widths!(@ $header, $name::<$($before,)* 16, _>($($argument),*)),
            32 => at_widths!(@ $header, $name::<$($before,)* 32, _>($($argument),*)),
            64 => at_widths!(@ $header, $name::<$($before,)* 64, _>($($argument),*)),
            _ => at_widths!(@ $header, $name::<$($before,)* 128, _>($($argument),*)),
        }
    };
    (@ $header:ident, $name:ident::<$($before:ident,)* $client:literal, _>($($argument:expr),*)) => {
        match $header.manager {
            1 => $name::<$($before,)* $client, 1>($($argument),*),
            2 => $name::<$($before,)* $client, 2>($($argument),*),
            4 => $name::<$($before,)* $client, 4>($($argument),*),
            8 => $name::<$($before,)* $client, 8>($($argument),*),
            16 => $name::<$($before,)* $client, 16>($($argument),*),
            32 => $name::<$($before,)* $client, 32>($($argument),*),
            64 => $name::<$($before,)* $client, 64>($($argument),*),
            _ => $name::<$($before,)* $client, 128>($($argument),*),
        }
    };
}
