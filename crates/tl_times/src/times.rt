//! The times of a trace's beats, as `tl_trace_monitor` and `tlbridge-trace --times` write them: a
//! line for each beat, in the order of the trace.
ghost use Rattle.std.specs.Prelude.{◌≡◌, ◌≤◌, length, OnOk, IfErr, MatchResult};
ghost use Rattle.tl_times.specs.Times.{AreTimes, IsFirstBadTime, beats_of};
ghost use Rattle.tl_times.specs.Inner.Lines.{IsNextTime, first_fault};

use crate::time::time_of;
use tl_trace::line_end;

/// The reason why a text does not have the times of a trace.
#[derive(Clone, Copy, PartialEq, Eq, Debug)]
pub enum TimesKind {
    /// The line is not a time.
    NoTime,
    /// The time is before that of the line above.
    Earlier,
    /// The text ends before this line, but the trace has a beat for it.
    TooFew,
    /// The trace has no beat for this line.
    TooMany,
}

/// The first faulty line of a text of times, counted from 1, and the reason.
#[derive(Clone, Copy, PartialEq, Eq, Debug)]
pub struct TimesFault {
    pub line: u64,
    pub kind: TimesKind,
}

impl TimesFault {
    /// Returns a sentence on the fault of the line.
    pub fn sentence(&self) -> &'static str {
        match self.kind {
            TimesKind::NoTime =>
                "expected a time, such as 1200, 12.5 or 12.5 ns, followed by a newline (LF)",
            TimesKind::Earlier => {
                "the time is before that of the line above: lines and times have to be in the order of time"
            }
            TimesKind::TooFew =>
                "the file ends here, but the trace has more beats: it needs a time for each beat",
            TimesKind::TooMany =>
                "the trace has no beat for this time: these are the times of another trace",
        }
    }
}

/// A time, and the position of the line after it.
#[derive(Clone, Copy)]
struct NextTime {
    time: u128,
    end: usize,
}

/// Returns the time in the line at this position, which follows a line with the time `last`.
/// Errors:
/// - `TooFew` if there is no such line;
/// - `NoTime` if the line is not a time or has no LF;
/// - `Earlier` if its time is before `last`.
fn time_at(text: &[u8], at: usize, last: u128) -> Result<NextTime, TimesKind>
    requires { at ≤ length text.now }
    ensures { MatchResult result (IsNextTime text.now at last)
        (λ kind. first_fault text.now at last ≡ Some kind) }
{
    if at == text.len() {
        return Err(TimesKind::TooFew);
    }
    let end = line_end(text, at);
    if end == text.len() {
        return Err(TimesKind::NoTime);
    }
    match time_of(&text[at..end]) {
        None => Err(TimesKind::NoTime),
        Some(time) if time < last => Err(TimesKind::Earlier),
        Some(time) => Ok(NextTime { time, end: end + 1 }),
    }
}

/// Checks that a text has a line with a time for each of `beats` beats, that no time is before that
/// of the line above, and that nothing follows. Errors: the first faulty line, and the reason.
pub fn check_times(text: &[u8], beats: usize) -> Result<(), TimesFault>
    ensures good { OnOk result (AreTimes text.now beats) }
    ensures fault { IfErr result (λ fault. IsFirstBadTime text.now beats fault.line fault.kind) }
{
    let (mut at, mut last) = (0usize, 0u128);
    for beat in 0..beats {
        match time_at(text, at, last) {
            Ok(next) => (at, last) = (next.end, next.time),
            Err(kind) => {
                let line = beat as u64 + 1;
                return Err(TimesFault { line, kind });
            }
        }
    }
    if at < text.len() {
        let (line, kind) = (beats as u64 + 1, TimesKind::TooMany);
        return Err(TimesFault { line, kind });
    }
    Ok(())
}

/// Returns the number of lines of a trace after the first one. The last line may have no LF.
pub fn beats_of(trace: &[u8]) -> usize
    ensures { result ≡ beats_of trace.now }
{
    let (mut at, mut lines) = (0usize, 0usize);
    while at < trace.len() {
        at = line_end(trace, at) + 1;
        lines += 1;
    }
    lines.saturating_sub(1)
}
