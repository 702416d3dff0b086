//! The law of the answer: the contract of a function that does nothing.
ghost use Rattle.std.specs.Prelude.{ℕ, List};
ghost use Rattle.tl_lanes.specs.Lanes.{IsWidth};
ghost use Rattle.tl_settle.specs.InMessages.{EndsInMessages};
ghost use Rattle.tl_trace.specs.Texts.{Tells};
ghost use Rattle.tl_trace.specs.declared.line.Line.{Line};
ghost use Rattle.tl_answer.specs.Answer.{near};

use tl_settle::laws::ends_in_messages;
use tl_trace::laws::traces_have_beats;

/// Lemma: the answer to a text in terms of whole messages, for each text of a trace and on each
/// channel.
///
/// - The accepted beats carry whole messages, one after the other, and then perhaps the first beats
///   of one more.
/// - The beats that arrive are the layout of these messages at the far width, the last one up
///   to the beats that are due. No burst is interrupted there.
/// - The verdict depends on whether the next beat is admitted, and on what it waits for.
///
/// All of this holds in the one settled state. `run_text` writes the lines of these far beats and
/// verdicts.
pub fn answers_in_messages<const C: usize, const M: usize>()
    requires client { IsWidth C }
    requires manager { IsWidth M }
    ensures { (text : List ℕ) (version : ℕ) (lines : List Line) → Tells text version C M lines →
        EndsInMessages (near C M lines) }
{
    ends_in_messages::<C, M>();
    traces_have_beats();
}
