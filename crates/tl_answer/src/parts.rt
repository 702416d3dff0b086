//! The answer to a text in several parts, so that none has to be moved to follow another one.
ghost use Rattle.std.specs.Prelude.{◌≡◌, IfOk, IfErr};
ghost use Rattle.tl_answer.specs.Inner.Parts.{spelled};
ghost use Rattle.tl_stream.specs.declared.fault.TextFault.TheVariants.{OutOfMemory as NoMemory};

use crate::answer::Answer;
use std::alloc::Global;
use tl_stream::TextFault;

/// The whole answer to a text, in five parts that are written one after the other, and whether all
/// five channels are done.
#[derive(Drop)]
pub(crate) struct AnswerParts {
    pub a: Vec<u8>,
    pub b: Vec<u8>,
    pub c: Vec<u8>,
    pub d: Vec<u8>,
    pub e: Vec<u8>,
    pub all_done: bool,
}

impl AnswerParts {
    /// Returns an answer in parts whose whole text is the first part.
    pub(crate) fn of(alloc: Global, answer: Answer) -> AnswerParts
        ensures text { spelled result ≡ answer.text.items }
        ensures done { result.all_done ≡ answer.all_done }
    {
        let Answer { text, all_done } = answer;
        AnswerParts {
            a: text,
            b: Vec::new(alloc),
            c: Vec::new(alloc),
            d: Vec::new(alloc),
            e: Vec::new(alloc),
            all_done,
        }
    }

    /// Returns the answer as one text. Errors: only `OutOfMemory`.
    pub(crate) fn joined(self) -> Result<Answer, TextFault>
        ensures text { IfOk result (λ answer. answer.text.items ≡ spelled self) }
        ensures done { IfOk result (λ answer. answer.all_done ≡ self.all_done) }
        ensures err { IfErr result (λ fault. fault ≡ NoMemory) }
    {
        let AnswerParts {
            a,
            b,
            c,
            d,
            e,
            all_done,
        } = self;
        let mut text = a;
        let b = text.extend_from_slice(&b);
        let c = text.extend_from_slice(&c);
        let d = text.extend_from_slice(&d);
        let e = text.extend_from_slice(&e);
        b.and(c).and(d).and(e)?;
        Ok(Answer { text, all_done })
    }
}
