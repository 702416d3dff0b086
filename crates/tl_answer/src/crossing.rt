//! The answer of a run in one thread to a text that is read incrementally. Beats that were accepted
//! are removed from memory.
ghost use Rattle.std.specs.Prelude.{◌≡◌, ◌≤◌, ◌<◌, ℕ, false, IfOk, IfErr};
ghost use Rattle.std.specs.List.{list_all};
ghost use Rattle.tl_lanes.specs.Lanes.{IsWidth};
ghost use Rattle.tl_ring.specs.declared.pipe.TheConstants.{MAX_RING};
ghost use Rattle.tl_settle.specs.Outcomes.{verdicts};
ghost use Rattle.tl_run.specs.Arrivals.{no_beats};
ghost use Rattle.tl_run.specs.Running.{IsNew as IsNewBridge};
ghost use Rattle.tl_answer.specs.Inner.FarTexts.{HasLines};
ghost use Rattle.tl_trace.specs.Faults.{HasHeader};
ghost use Rattle.tl_trace.specs.Scripts.{Discarded};
ghost use Rattle.tl_answer.specs.Answer.{is_done};
ghost use Rattle.tl_answer.specs.Inner.Answered.{ReadsAnswer};
ghost use Rattle.tl_answer.specs.Inner.Crossing.{Crosses, CrossesOn};
ghost use Rattle.tl_answer.specs.Inner.Consuming.{all_of};
ghost use Rattle.tl_stream.specs.Consuming.{IsNew};
ghost use Rattle.tl_answer.specs.Inner.Parts.{spelled, text_of};
ghost use Rattle.tl_answer.specs.Inner.Sizes.{bridge_size, crossing_size, run_size};
ghost use Rattle.tl_stream.specs.Inputs.{IsFresh, held, unread_of};
ghost use Rattle.tl_stream.specs.declared.fault.TextFault.TheVariants.{OutOfMemory as NoMemory};

use crate::far_text::FarTexts;
use crate::parts::AnswerParts;
use crate::widths::lemma_are_widths;
use std::alloc::{AllocError, Global};
use std::io::Read;
use tl_run::SyncRun;
use tl_run::laws::a_new_run_has_run;
use tl_sides::SyncBridge;
use tl_stream::{BeatConsumer, Input, TextFault, read_through};
use tl_trace::{Counts, Script};

/// A run in one thread. Its far beats are written as lines when they are taken.
#[derive(Drop)]
pub(crate) struct Crossing<const C: usize, const M: usize> {
    run: SyncRun<C, M>,
    far: FarTexts,
}

impl<const C: usize, const M: usize> Crossing<C, M> {
    /// Creates a run that has not begun, over a new bridge. Its far beats are written to `far`,
    /// which is of this version.
    fn with_bridge(bridge: SyncBridge<C, M>, far: FarTexts, _version: u8) -> Self
        requires { IsWidth C × IsWidth M × IsNewBridge bridge × HasLines {C = C} {M = M} far no_beats ×
            (far.version ≡ _version) }
        ensures { IsNew (Crosses _version) result }
    {
        lemma_run_fits::<C, M>();
        let run = SyncRun::new(bridge);
        a_new_run_has_run(&run, &far);
        Crossing { run, far }
    }

    // Frees the run.
    #[inline(never)]
    pub(crate) fn discard(self)
        requires { IsWidth C × IsWidth M }
    {
        lemma_run_fits::<C, M>();
        self.run.discard();
    }

    /// Ends the run with these last beats. Returns its answer: the line with the version of the
    /// trace and the widths, the far beats, and the five report lines. Errors: only `OutOfMemory`.
    /// The contract promises nothing about the run afterwards.
    #[inline(never)]
    pub(crate) fn end(
        &mut self,
        alloc: Global,
        last: Script<C, M>,
    ) -> Result<AnswerParts, TextFault>
        requires { IsWidth C × IsWidth M ×
            ((version : ℕ) × (discarded : Discarded C M) × Crosses version self.old discarded last) }
        ensures text { (version : ℕ) (discarded : Discarded C M) →
            Crosses version self.old discarded last.entry → IfOk result (λ made.
            spelled made ≡ text_of version (all_of discarded last.entry) false) }
        ensures done { (version : ℕ) (discarded : Discarded C M) →
            Crosses version self.old discarded last.entry → IfOk result (λ made.
            made.all_done ≡ list_all is_done (verdicts (all_of discarded last.entry))) }
        ensures err { IfErr result (λ fault. fault ≡ NoMemory) }
    {
        lemma_run_fits::<C, M>();
        let ended = self.run.end(&last, &mut self.far);
        drop(last);
        match ended {
            Ok(verdicts) => self.far.handed_over(alloc).into_answer(&verdicts),
            Err(_) => Err(TextFault::OutOfMemory),
        }
    }
}

// Lemma: a run and its bridge take little memory, whatever the two widths.
fn lemma_run_fits<const C: usize, const M: usize>()
    requires { IsWidth C × IsWidth M }
    ensures run { run_size C M < 9223372036854775808 }
    ensures bridge { bridge_size C M < 9223372036854775808 }
{}

// Lemma: a run with its texts takes little memory, whatever the two widths.
pub(crate) fn lemma_crossing_fits<const C: usize, const M: usize>()
    requires { IsWidth C × IsWidth M }
    ensures { crossing_size C M < 9223372036854775808 }
{}

impl<const C: usize, const M: usize> BeatConsumer<Crossing<C, M>, C, M> for Crossing<C, M> {
    ghost HasConsumed = { Crosses };

    ghost ConsumesOn = { CrossesOn };

    fn consume(&mut self, held: &Script<C, M>) -> Result<Counts, AllocError> {
        lemma_run_fits::<C, M>();
        self.run.advance(held, &mut self.far)
    }
}

// Returns the answer of a new run to a text whose header names this version and these widths.
fn cross<R: Read, const C: usize, const M: usize>(
    alloc: Global,
    reader: &mut R,
    input: &mut Input,
    version: u8,
    crossing: &mut Crossing<C, M>,
) -> Result<AnswerParts, TextFault>
    requires { IsFresh (R.remaining reader.old) input.old ×
        HasHeader (held input.old) version C M × IsNew (Crosses version) crossing.old }
    ensures { ReadsAnswer (unread_of input.old (R.remaining reader.old)) (R.remaining reader.new)
        false input.new result }
{
    lemma_are_widths::<C, M>(input, version);
    match read_through::<R, Crossing<C, M>, Crossing<C, M>, C, M>(
        alloc, reader, input, version, crossing,
    ) {
        Ok(last) => crossing.end(alloc, last),
        Err(fault) => Err(fault),
    }
}

/// Returns the answer of a run in one thread, with rings of `ring` beats, to a text whose header
/// names this version and these widths. Its first piece has been read and not consumed.
/// The text is read to its end, incrementally: one piece of it, the beats that wait, fewer
/// finished beats and the answer so far are in memory. Errors: as `script_of_input`.
#[inline(never)]
pub(crate) fn run_input<R: Read, const C: usize, const M: usize>(
    alloc: Global,
    reader: &mut R,
    input: &mut Input,
    version: u8,
    ring: usize,
) -> Result<AnswerParts, TextFault>
    requires { IsFresh (R.remaining reader.old) input.old ×
        HasHeader (held input.old) version C M × (1 ≤ ring) × (ring ≤ MAX_RING) }
    ensures { ReadsAnswer (unread_of input.old (R.remaining reader.old)) (R.remaining reader.new)
        false input.new result }
{
    lemma_are_widths::<C, M>(input, version);
    lemma_crossing_fits::<C, M>();
    let far = match FarTexts::new(alloc, version, C, M) {
        Ok(far) => far,
        Err(error) => return Err(TextFault::from(error)),
    };
    lemma_run_fits::<C, M>();
    let Ok(bridge) = SyncBridge::<C, M, Global>::new(alloc, ring) else {
        // only out of memory: `ring` is in the range of ring sizes
        return Err(TextFault::OutOfMemory);
    };
    let mut crossing = Crossing::<C, M>::with_bridge(bridge, far, version);
    let answer = cross(alloc, reader, input, version, &mut crossing);
    crossing.discard();
    answer
}
