//! Reads a text as a script.
ghost use Rattle.std.specs.Prelude.{ℕ, true, false, ◌≡◌, ◌≢◌, ◌≤◌, ◌<◌, ◌+◌, ◌^◌, ◌++◌, None, Some, List, [], drop, take, length, IfSome, IfOk, IfErr, IsOk, MatchOption, MatchResult};
ghost use Rattle.std.specs.List.{list_any, slice_range};
ghost use Rattle.tl_lanes.specs.declared.limits.TheConstants.{WIDEST};
ghost use Rattle.tl_trace.specs.Scripts.{Discarded, TellsScript, HasCounts, HasGrown, HasRemoved, HasRead, HasReadPast, HasStopped, IsHeaderLine, IsUnfinished, more_discarded};
ghost use Rattle.tl_trace.specs.Texts.{is_version};
ghost use Rattle.tl_trace.specs.Faults.{is_newline, body, header_of, HasHeader, IsFirstFault, IsReadableTo};
ghost use Rattle.tl_trace.specs.Inner.KnownHeads.{head_length, AreKnown, HasHead, IsKnown};
ghost use Rattle.tl_trace.specs.Inner.Reading.{AreLinesPushed, AreNextPushed, CanPush, CanRead, IsLeft, IsLinePushed, IsNextPushed, IsPieceRead, IsRefusedAt, IsSameScript};
ghost use Rattle.tl_trace.specs.declared.fault.TraceKind.TheVariants.{OutOfMemory};

use crate::fault::{TraceFault, TraceKind};
use crate::head_reader::ReadHead;
use crate::header::{Header, header_of};
use crate::known_head::{KnownHead, LastHeads, head_at, no_heads};
use crate::line_reader::{are_in_range, read_rest};
use crate::places::{LONGEST_LINE, rest_len};
use crate::reader::{line_end, read_line};
use crate::same_text::repeats_at;
use crate::script::{Counts, Script, empty_script, push_beat_of};
use std::alloc::Global;
use tl_msg::{Beat, BeatOf, ChA, ChB, ChC, ChD, ChE};

/// Returns the header of a text, or `None` if its first line is not a header.
pub fn header_of_text(text: &[u8]) -> Option<Header>
    ensures { result ≡ header_of (body text.now) }
{
    header_of(&text[..line_end(text, 0)])
}

/// The number of consecutive lines whose beats were appended, and the position after the last of
/// them.
#[derive(Clone, Copy)]
pub struct ParsedLines {
    pub count: usize,
    pub place: usize,
}

/// Appends the beat of the line at `at`, which begins with this head, to the list of its channel.
/// Returns the position of the line's LF. Returns `None`, and leaves the list as it was, if the
/// rest of the line has a fault, if its LF is not at its position, or if an allocation fails. In
/// the last case it also sets `out_of_memory`.
#[inline(always)]
fn push_line<K: ReadHead, const W: usize, const VERSION: u8>(
    list: &mut Vec<Beat<K, W>>,
    head: K::Head,
    text: &[u8],
    at: usize,
    out_of_memory: &mut bool,
) -> Option<usize>
    requires { CanPush (K.form VERSION) W text.now at × HasHead (K.form VERSION) VERSION
        (slice_range text.now at (at + head_length (K.form VERSION))) head }
    ensures { MatchOption result (list.new.items ≡ list.old.items)
        (IsLinePushed (K.form VERSION) W text.now at list.old.items list.new.items) }
{
    let masked = K::MASKED;
    let has_data = K::HAS_DATA;
    let rest_at = K::head_end(VERSION);
    let long = rest_at + rest_len(masked, has_data, W);
    if long >= text.len() - at || text[at + long] != b'\n' {
        return None;
    }
    let line = &text[at..at + long];
    let mut lanes = [0u8; W];
    let rest = read_rest::<W>(line, rest_at, masked, has_data, W, &mut lanes);
    if rest.bad > 15 || !are_in_range(rest.mask, rest.corrupt, W) {
        return None;
    }
    let beat = BeatOf {
        head,
        mask: rest.mask,
        lanes,
        corrupt: rest.corrupt == 1,
    };
    if list.push(beat).is_err() {
        *out_of_memory = true;
        return None;
    }
    Some(at + long)
}

/// Appends the beats of the line at `at`, and of the lines directly after it whose heads have the
/// same text, to the list of their channel. Stops before a line that has a fault or whose LF is not
/// at its position. If an allocation fails, it stops and sets `out_of_memory`, so that no further
/// allocation is tried. The head is not read again if the last line of the channel has a head with
/// the same text.
#[inline(never)]
fn push_lines<K: ReadHead, const W: usize, const VERSION: u8>(
    list: &mut Vec<Beat<K, W>>,
    last: &mut Option<KnownHead<K::Head>>,
    text: &[u8],
    at: usize,
    out_of_memory: &mut bool,
) -> ParsedLines
    requires { CanPush (K.form VERSION) W text.now at × IfSome last.old (IsKnown (K.form VERSION) VERSION text.now) }
    ensures pushed { AreLinesPushed (K.form VERSION) W text.now at list.old list.new result }
    ensures known { IfSome last.new (IsKnown (K.form VERSION) VERSION text.now) }
{
    let len = K::head_end(VERSION);
    let mut lines = ParsedLines {
        count: 0,
        place: at,
    };
    if *out_of_memory || len > text.len() - at {
        return lines;
    }
    let Some(head) = head_at::<K, VERSION>(text, at, last) else {
        return lines;
    };
    'lines: while let Some(end) = push_line::<K, W, VERSION>(
        list,
        head,
        text,
        lines.place,
        out_of_memory,
    ) {
        lines.count += 1;
        lines.place = end + 1;
        if !repeats_at(text, lines.place, at, len) {
            break;
        }
    }
    lines
}

/// Appends the beats of consecutive lines like `push_lines`, for any channel. Appends none if the
/// letter of the first line is not that of a channel.
#[inline(always)]
fn push_next<const C: usize, const M: usize, const VERSION: u8>(
    script: &mut Script<C, M>,
    heads: &mut LastHeads,
    text: &[u8],
    at: usize,
    out_of_memory: &mut bool,
) -> ParsedLines
    requires { CanRead VERSION C M × (at < length text.now) × AreKnown VERSION text.now heads.old }
    ensures pushed { AreNextPushed VERSION text.now at script.old script.new result }
    ensures known { AreKnown VERSION text.now heads.new }
{
    match text[at] {
        b'A' => {
            push_lines::<ChA, C, VERSION>(&mut script.a, &mut heads.a, text, at, out_of_memory)
        }
        b'B' => {
            push_lines::<ChB, M, VERSION>(&mut script.b, &mut heads.b, text, at, out_of_memory)
        }
        b'C' => {
            push_lines::<ChC, C, VERSION>(&mut script.c, &mut heads.c, text, at, out_of_memory)
        }
        b'D' => {
            push_lines::<ChD, M, VERSION>(&mut script.d, &mut heads.d, text, at, out_of_memory)
        }
        b'E' => {
            push_lines::<ChE, C, VERSION>(&mut script.e, &mut heads.e, text, at, out_of_memory)
        }
        _ => ParsedLines {
            count: 0,
            place: at,
        },
    }
}

/// Appends the beat of a line that `push_next` did not take, with the reader that names its fault.
/// Returns the position of the line's end, or `None` if the piece ends within the line.
///
/// A line without its LF is left for later, unless it is longer than any line can be: then it is
/// refused.
#[inline(never)]
fn push_with_diagnostics<const C: usize, const M: usize>(
    script: &mut Script<C, M>,
    piece: &[u8],
    at: usize,
    version: u8,
    out_of_memory: bool,
) -> Result<Option<usize>, TraceKind>
    requires { CanRead version C M × (at < length piece.now) }
    ensures { MatchResult result (λ end. MatchOption end (IsLeft piece.now at script.old script.new)
        (IsNextPushed version piece.now at script.old script.new)) (λ kind.
        IsRefusedAt version C M piece.now at kind × IsSameScript script.old script.new) }
{
    let end = line_end(piece, at);
    if end == piece.len() && end - at < LONGEST_LINE {
        return Ok(None);
    }
    let line = match read_line(&piece[at..end], version, C, M) {
        Ok(line) => line,
        Err(kind) => return Err(kind),
    };
    if out_of_memory || push_beat_of(script, &line).is_err() {
        return Err(TraceKind::OutOfMemory);
    }
    Ok(Some(end))
}

/// Reads a text incrementally, from its lines directly into the lists of a script. It builds no
/// trace, and the text never has to be in memory as a whole.
///
/// In contracts it represents the part of the text that it has read: whole lines, including the
/// header (`HasRead`). None of these lines has a fault, and the script has their beats, except for
/// those that were removed (`HasReadPast`). `read` takes the whole lines of a piece. The caller puts
/// the bytes that it leaves before the next piece; at the end of the text, `end_fault` judges them.
#[derive(Drop)]
pub struct ScriptReader<const C: usize, const M: usize> {
    /// The beats of the lines that were read, without those that were removed.
    pub script: Script<C, M>,
    /// The version of the trace, 1 or 2.
    pub version: u8,
    /// The number of the line that was read last, counted from 1: the header is line 1.
    pub line: u64,
}

/// Returns this fault, of the line after line number `last`.
fn fault_behind(last: u64, kind: TraceKind) -> TraceFault
    requires { last + 1 < 2 ^ 64 }
    ensures line { result.line ≡ last + 1 }
    ensures kind { result.kind ≡ kind }
{
    let line = last + 1;
    TraceFault { line, kind }
}

/// Reads the whole lines of a piece of the text in a known version, as `ScriptReader::read` does.
fn read_beats<const C: usize, const M: usize, const VERSION: u8>(
    reader: &mut ScriptReader<C, M>,
    piece: &[u8],
) -> Result<usize, TraceFault>
    requires { CanRead VERSION C M × (reader.old.line + length piece.now < 2 ^ 64) }
    ensures version { reader.new.version ≡ reader.old.version }
    ensures read { IsPieceRead VERSION piece.now reader.old.script reader.old.line reader.new.script
        reader.new.line result }
{
    let mut at = 0;
    let mut out_of_memory = false;
    let mut heads = no_heads();
    while at < piece.len() {
        let lines = push_next::<C, M, VERSION>(
            &mut reader.script,
            &mut heads,
            piece,
            at,
            &mut out_of_memory,
        );
        if lines.count > 0 {
            at = lines.place;
            reader.line += lines.count as u64;
            continue;
        }
        match push_with_diagnostics(&mut reader.script, piece, at, VERSION, out_of_memory) {
            Ok(Some(end)) => {
                at = end + 1;
                reader.line += 1;
            }
            Ok(None) => return Ok(at),
            Err(kind) => return Err(fault_behind(reader.line, kind)),
        }
    }
    Ok(at)
}

impl<const C: usize, const M: usize> ScriptReader<C, M> {
    /// Creates a reader that has read the header line, which names this version and these widths.
    pub fn new(alloc: Global, version: u8) -> Self
        ensures version { result.version ≡ version }
        ensures line { result.line ≡ 1 }
        ensures header { (text : List ℕ) → IsHeaderLine text version C M →
            HasRead version text result.script result.line }
    {
        ScriptReader {
            script: empty_script(alloc),
            version,
            line: 1,
        }
    }

    /// Reads the whole lines of a piece of the text. Returns how many bytes they have. The rest of
    /// the piece is empty, or is a line without its LF that is shorter than
    /// [`LONGEST_LINE`](crate::LONGEST_LINE).
    ///
    /// Errors: the first fault of the text, whatever comes after the piece; or `OutOfMemory`, which
    /// names the line after those that were read. Afterwards the reader represents the lines
    /// before the line that is named, including those of this piece. Requires: the version is 1 or 2, `C`
    /// and `M` are at most `WIDEST`, and the line numbers stay below `2^64`.
    pub fn read(&mut self, piece: &[u8]) -> Result<usize, TraceFault>
        requires version { is_version self.old.version ≡ true }
        requires client { C ≤ WIDEST }
        requires manager { M ≤ WIDEST }
        requires few { self.old.line + length piece.now < 2 ^ 64 }
        ensures version { self.new.version ≡ self.old.version }
        ensures used { IfOk result (λ used. used ≤ length piece.now) }
        ensures lines { IfOk result (λ used. self.new.line ≤ self.old.line + used) }
        ensures rest { IfOk result (λ used. IsUnfinished (drop used piece.now)) }
        ensures grown { IsOk result → HasGrown self.old.script self.new.script }

        // for every part of the text that it represents, and the beats that were removed
        ensures told { (done : List ℕ) (discarded : Discarded C M) →
            HasReadPast self.old.version done discarded self.old.script self.old.line →
            IfOk result (λ used. HasReadPast self.old.version (done ++ take used piece.now) discarded
            self.new.script self.new.line) }
        ensures fault { (done more : List ℕ) (discarded : Discarded C M) →
            HasReadPast self.old.version done discarded self.old.script self.old.line →
            IfErr result (λ e. e.kind ≢ OutOfMemory →
            IsFirstFault (done ++ piece.now ++ more) e.line e.kind) }
        ensures memory { (done more : List ℕ) (discarded : Discarded C M) →
            HasReadPast self.old.version done discarded self.old.script self.old.line →
            IfErr result (λ e. e.kind ≡ OutOfMemory →
            IsReadableTo (done ++ piece.now ++ more) e.line) }
        ensures stopped { (done : List ℕ) (discarded : Discarded C M) →
            HasReadPast self.old.version done discarded self.old.script self.old.line →
            IfErr result (λ e. HasStopped self.old.version done piece.now discarded
            self.new.script self.new.line e.line) }
    {
        match self.version {
            1 => read_beats::<C, M, 1>(self, piece),
            _ => read_beats::<C, M, 2>(self, piece),
        }
    }

    /// Removes the first `counts` beats of each list. The reader still represents the same text
    /// (`HasReadPast`). Requires: each list has at least as many beats as are removed.
    pub fn remove_front(&mut self, counts: &Counts)
        requires client { C ≤ WIDEST }
        requires manager { M ≤ WIDEST }
        requires counts { HasCounts counts.now self.old.script }
        ensures version { self.new.version ≡ self.old.version }
        ensures line { self.new.line ≡ self.old.line }
        ensures left { HasRemoved counts.now self.old.script self.new.script }
        ensures told { (done : List ℕ) (discarded : Discarded C M) →
            HasReadPast self.old.version done discarded self.old.script self.old.line →
            HasReadPast self.old.version done (more_discarded discarded counts.now self.old.script)
            self.new.script self.new.line }
    {
        self.script.remove_front(counts);
    }

    /// Returns the fault of a text that ends with `rest`, which is what `read` left. Returns `None`
    /// only if `rest` is empty. Requires: `rest` contains no LF.
    pub fn end_fault(&self, rest: &[u8]) -> Option<TraceFault>
        requires version { is_version self.now.version ≡ true }
        requires client { C ≤ WIDEST }
        requires manager { M ≤ WIDEST }
        requires few { self.now.line + 1 < 2 ^ 64 }
        requires rest { list_any is_newline rest.now ≡ false }
        ensures none { result ≡ None → rest.now ≡ [] }
        ensures kind { IfSome result (λ e. e.kind ≢ OutOfMemory) }

        // for every part of the text that it represents, and the beats that were removed
        ensures fault { (done : List ℕ) (discarded : Discarded C M) →
            HasReadPast self.now.version done discarded self.now.script self.now.line →
            IfSome result (λ e. IsFirstFault (done ++ rest.now) e.line e.kind) }
    {
        if rest.is_empty() {
            return None;
        }
        let line = self.line + 1;
        match read_line(rest, self.version, C, M) {
            Ok(_) => Some(TraceFault {
                line,
                kind: TraceKind::NoEnd,
            }),
            Err(kind) => Some(TraceFault { line, kind }),
        }
    }
}

/// Lemma: the version of a header is 1 or 2, and its widths are at most the widest.
#[inline(always)]
fn lemma_known_header<const C: usize, const M: usize>(_text: &[u8], _version: u8)
    requires { HasHeader _text.now _version C M }
    ensures { CanRead _version C M }
{}

/// Reads a text whose first line names this version and these widths, from its lines directly into
/// the lists of a script, without a trace. Returns the script of the text's trace. Errors: as
/// `read`.
pub fn read_script<const C: usize, const M: usize>(
    alloc: Global,
    text: &[u8],
    version: u8,
) -> Result<Script<C, M>, TraceFault>
    requires header { HasHeader text.now version C M }
    ensures told { IfOk result (TellsScript version text.now) }
    ensures fault { IfErr result (λ e. e.kind ≢ OutOfMemory → IsFirstFault text.now e.line e.kind) }
    ensures memory { IfErr result (λ e. e.kind ≡ OutOfMemory → IsReadableTo text.now e.line) }
{
    let end = line_end(text, 0);
    if end >= text.len() {
        return Err(TraceFault {
            line: 1,
            kind: TraceKind::NoEnd,
        });
    }
    lemma_known_header::<C, M>(text, version);
    let later = &text[end + 1..];
    let mut reader = ScriptReader::<C, M>::new(alloc, version);
    let used = match reader.read(later) {
        Ok(used) => used,
        Err(fault) => return Err(fault),
    };
    match reader.end_fault(&later[used..]) {
        Some(fault) => Err(fault),
        None => Ok(reader.script),
    }
}
