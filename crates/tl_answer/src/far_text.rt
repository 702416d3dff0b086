//! The lines of far beats, which are written when the beats are taken.
ghost use Rattle.std.specs.Prelude.{◌≡◌, ◌++◌, ℕ, IfOk, IfErr};
ghost use Rattle.std.specs.List.{list_all};
ghost use Rattle.tl_settle.specs.Outcomes.{Beats};
ghost use Rattle.tl_run.specs.Arrivals.{no_beats};
ghost use Rattle.tl_answer.specs.Answer.{far_header, far_lines, report, is_done};
ghost use Rattle.tl_answer.specs.Inner.FarTexts.{HasLines};
ghost use Rattle.tl_answer.specs.Inner.Parts.{spelled};
ghost use Rattle.tl_stream.specs.declared.fault.TextFault.TheVariants.{OutOfMemory as NoMemory};

use crate::answer::{are_done, header, write_reports};
use crate::parts::AnswerParts;
use std::alloc::{AllocError, Global};
use std::mem::replace;
use tl_bridge::FarSink;
use tl_msg::{Beat, ChA, ChB, ChC, ChD, ChE, Verdict};
use tl_stream::TextFault;
use tl_trace::write_far;

/// The lines of the far beats of a run, with one text for each channel. The text of A begins with
/// the first line of the answer.
#[derive(Drop)]
pub(crate) struct FarTexts {
    a: Vec<u8>,
    b: Vec<u8>,
    c: Vec<u8>,
    d: Vec<u8>,
    e: Vec<u8>,
    version: u8,
}

impl FarTexts {
    // Returns the first line of an answer in this version, without any far beats.
    pub(crate) fn new(
        alloc: Global,
        version: u8,
        client: usize,
        manager: usize,
    ) -> Result<Self, AllocError>
        ensures lines { IfOk result (λ made. HasLines {C = client} {M = manager} made no_beats) }
        ensures version { IfOk result (λ made. made.version ≡ version) }
    {
        match header(alloc, version, client, manager) {
            Ok(a) => Ok(FarTexts {
                a,
                b: Vec::new(alloc),
                c: Vec::new(alloc),
                d: Vec::new(alloc),
                e: Vec::new(alloc),
                version,
            }),
            Err(error) => Err(error),
        }
    }

    // Returns the lines so far, and leaves none here.
    pub(crate) fn handed_over(&mut self, alloc: Global) -> FarTexts
        ensures { result ≡ self.old }
    {
        let none = FarTexts {
            a: Vec::new(alloc),
            b: Vec::new(alloc),
            c: Vec::new(alloc),
            d: Vec::new(alloc),
            e: Vec::new(alloc),
            version: self.version,
        };
        replace(self, none)
    }

    // Returns the answer of a run that ends with these verdicts, from A to E. The five report lines
    // come after the lines of E. Errors: only `OutOfMemory`.
    pub(crate) fn into_answer(self, verdicts: &[Verdict; 5]) -> Result<AnswerParts, TextFault>
        ensures text { (C M : ℕ) (far : Beats M C) → HasLines self far → IfOk result (λ made.
            spelled made ≡ far_header self.version C M
            ++ far_lines self.version far ++ report verdicts.now) }
        ensures done { IfOk result (λ made. made.all_done ≡ list_all is_done verdicts.now) }
        ensures err { IfErr result (λ fault. fault ≡ NoMemory) }
    {
        let mut texts = self;
        write_reports(&mut texts.e, verdicts)?;
        let FarTexts { a, b, c, d, e, .. } = texts;
        Ok(AnswerParts {
            a,
            b,
            c,
            d,
            e,
            all_done: are_done(verdicts),
        })
    }
}

impl<const C: usize, const M: usize> FarSink<C, M> for FarTexts {
    ghost Holds = { λ t far. HasLines t far };

    // a text may need more memory at any time
    ghost HasRoom = { λ _ _. ⊥ };

    ghost made_with = { λ t. t.version };

    fn take(
        &mut self,
        a: &[Beat<ChA, M>],
        b: &[Beat<ChB, C>],
        c: &[Beat<ChC, M>],
        d: &[Beat<ChD, C>],
        e: &[Beat<ChE, M>],
    ) -> Result<(), AllocError> {
        let version = self.version;
        let a = write_far::<ChA, M>(&mut self.a, a, version);
        let b = write_far::<ChB, C>(&mut self.b, b, version);
        let c = write_far::<ChC, M>(&mut self.c, c, version);
        let d = write_far::<ChD, C>(&mut self.d, d, version);
        let e = write_far::<ChE, M>(&mut self.e, e, version);
        match a.and(b).and(c).and(d).and(e) {
            Ok(()) => Ok(()),
            Err(_) => Err(AllocError),
        }
    }
}
