//! The answer to a text: its first line and its five report lines.
ghost use Rattle.std.specs.Prelude.{◌≡◌, ◌++◌, [], ◌∷◌, length, IfOk, OnOk, IfErr};
ghost use Rattle.std.specs.List.{list_all};
ghost use Rattle.tl_msg.specs.declared.verdict.Verdict.{Verdict};
ghost use Rattle.tl_answer.specs.Answer.{far_header, report, is_done};
ghost use Rattle.tl_stream.specs.declared.fault.TextFault.TheVariants.{OutOfMemory as NoMemory};

use std::alloc::{AllocError, Global};
use tl_msg::Verdict;
use tl_stream::TextFault;
use tl_trace::{OutOfMemory, write_report};

/// The whole answer to a text, and whether all five channels are done.
#[derive(Drop)]
pub struct Answer {
    pub text: Vec<u8>,
    pub all_done: bool,
}

/// Returns the first line of an answer.
pub(crate) fn header(
    alloc: Global,
    version: u8,
    client: usize,
    manager: usize,
) -> Result<Vec<u8>, AllocError>
    ensures { IfOk result (λ text. text.items ≡ far_header version client manager) }
{
    match format!(in alloc; "tilelink-far {version} client {client} manager {manager}\n") {
        Ok(line) => Ok(line.into_bytes()),
        Err(error) => Err(error),
    }
}

/// Appends the five report lines. Errors: `OutOfMemory`.
pub(crate) fn write_reports(out: &mut Vec<u8>, verdicts: &[Verdict; 5]) -> Result<(), OutOfMemory>
    ensures text { (a b c d e : Verdict) → verdicts.now ≡ a ∷ b ∷ c ∷ d ∷ e ∷ [] →
        OnOk result (out.new.items ≡ out.old.items ++ report (a ∷ b ∷ c ∷ d ∷ e ∷ [])) }
    ensures five { length verdicts.now ≡ 5 }
{
    let a = write_report(out, b'A', &verdicts[0]);
    let b = write_report(out, b'B', &verdicts[1]);
    let c = write_report(out, b'C', &verdicts[2]);
    let d = write_report(out, b'D', &verdicts[3]);
    let e = write_report(out, b'E', &verdicts[4]);
    a.and(b).and(c).and(d).and(e)
}

/// Returns whether, on each channel, all beats were accepted and no burst is unfinished.
pub(crate) fn are_done(verdicts: &[Verdict; 5]) -> bool
    ensures { result ≡ list_all is_done verdicts.now }
{
    verdicts
        .iter()
        .all(|verdict| matches!(verdict, Verdict::Done { .. }))
}

/// Returns the answer of a check whose channels end with these verdicts, from A to E: the line with
/// the version of the trace and the widths, and the five report lines. Errors: only `OutOfMemory`.
pub fn check_of(
    alloc: Global,
    verdicts: &[Verdict; 5],
    version: u8,
    client: usize,
    manager: usize,
) -> Result<Answer, TextFault>
    ensures text { IfOk result (λ made. made.text.items
        ≡ far_header version client manager ++ report verdicts.now) }
    ensures done { IfOk result (λ made. made.all_done ≡ list_all is_done verdicts.now) }
    ensures err { IfErr result (λ fault. fault ≡ NoMemory) }
{
    let mut text = match header(alloc, version, client, manager) {
        Ok(text) => text,
        Err(error) => return Err(TextFault::from(error)),
    };
    match write_reports(&mut text, verdicts) {
        Ok(()) => Ok(Answer {
            text,
            all_done: are_done(verdicts),
        }),
        Err(_) => Err(TextFault::OutOfMemory),
    }
}
