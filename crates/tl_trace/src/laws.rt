//! Laws of texts and traces. Each function does nothing; its contract is the law.
ghost use Rattle.std.specs.Prelude.{◌≡◌, ◌↔◌, ℕ, true};
ghost use Rattle.tl_trace.specs.Fields.{form_a, form_b, form_c, form_d, form_e};
ghost use Rattle.tl_trace.specs.Laws.{OneTrace, OneText, FaultlessTexts, IsOnlyLine, LanesByPairs, LawfulIsWritable, TracesHaveBeats, ZeroLanesPastTheWidth};

use crate::fault::{TraceFault, TraceKind};

/// Lemma: each trace of writable beats has exactly one text.
pub fn one_text()
    ensures { OneText }
{}

/// Lemma: the text of a writable beat is the only line of that beat, on each channel, in each
/// version.
pub fn only_line()
    ensures a { (version : ℕ) → IsOnlyLine (form_a version) }
    ensures b { (version : ℕ) → IsOnlyLine (form_b version) }
    ensures c { (version : ℕ) → IsOnlyLine (form_c version) }
    ensures d { (version : ℕ) → IsOnlyLine (form_d version) }
    ensures e { (version : ℕ) → IsOnlyLine (form_e version) }
{}

/// Lemma: no text is the text of two traces. Its version, its widths and its beats are determined.
pub fn one_trace()
    ensures { OneTrace }
{}

/// Lemma: the two digits of lane `l` of `w` lanes are pair `w - 1 - l` of the data.
pub fn lanes_by_pairs()
    ensures { LanesByPairs }
{}

/// Lemma: `==` on kinds of faults is true if and only if they are the same; on faults the lines
/// must also be the same.
pub fn faults_compare()
    ensures kinds { (x y : TraceKind) → (⟦<TraceKind as PartialEq>⟧.eq x y ≡ true) ↔ (x ≡ y) }
    ensures faults { (x y : TraceFault) →
        (⟦<TraceFault as PartialEq>⟧.eq x y ≡ true) ↔ (x ≡ y) }
{}

/// Lemma: the text of a trace has no fault. So reading a written trace returns that trace, unless
/// memory runs out.
pub fn faultless_texts()
    ensures { FaultlessTexts }
{}

/// Lemma: if the data of a beat is in range on `w` lanes, its lanes from `w` on are 0.
pub fn zero_lanes()
    ensures { ZeroLanesPastTheWidth }
{}

/// Lemma: a lawful beat is writable, on each channel, if its ids fit the digits of the version. In
/// version 2 all ids fit; in version 1 those below 256. So far beats that are due are written as
/// their lines.
pub fn lawful_beats_are_writable()
    ensures a { (version : ℕ) → LawfulIsWritable (form_a version) }
    ensures b { (version : ℕ) → LawfulIsWritable (form_b version) }
    ensures c { (version : ℕ) → LawfulIsWritable (form_c version) }
    ensures d { (version : ℕ) → LawfulIsWritable (form_d version) }
    ensures e { (version : ℕ) → LawfulIsWritable (form_e version) }
{}

/// Lemma: the beats of a trace, and so those of the script of a text, are beats as memory holds
/// them.
pub fn traces_have_beats()
    ensures { TracesHaveBeats }
{}
