//! What the command can answer.

ghost use Rattle.std.specs.Prelude.{◌≡◌};

use crate::kept::Kept;
use io_edge::ReadEnd;
use pair_proof::Proof;
use src_text::{Kind, Lang, Name, Place, Refusal};
use verdicts::Told;

/// What the command answers.
#[derive(Drop)]
pub enum Answer {
    /// The words aren't of the command's form.
    Usage,
    /// This file couldn't be read.
    ReadFault(Name),
    /// This file is refused.
    Refused(Name, Refusal),
    /// A run breaks a property: its trace.
    Failed(String),
    /// No run breaks a property. The proof of that is kept where there is one.
    Successful(Kept),
    /// The budget is spent: what was derived by it.
    Spent(Proof),
    /// Want of memory.
    Memory,
}

impl Answer {
    ghost use Rattle.hwcbmc_core.specs.Answers.{at_beginning, unread as unread_answer, told_answer};
    ghost use Rattle.hwcbmc_core.specs.Keeping.{kept_of};

    /// The answer where a file isn't there as a whole.
    pub fn unread(file: Name, lang: Lang, end: ReadEnd) -> Answer
        ensures { result ≡ unread_answer file lang end }
    {
        match end {
            ReadEnd::Failed => Answer::ReadFault(file),
            ReadEnd::TooLong => Answer::refused(file, lang, Kind::TooLong),
            ReadEnd::Memory => Answer::Memory,
        }
    }

    /// The answer where a file is refused at its beginning.
    pub fn refused(file: Name, lang: Lang, kind: Kind) -> Answer
        ensures { result ≡ Answer.Refused file (at_beginning lang kind) }
    {
        let place = Place { line: 1, column: 1 };
        Answer::Refused(file, Refusal { lang, place, kind })
    }

    /// The answer where this is told of the pair that the files are.
    pub fn told(c_file: Name, told: Told) -> Answer
        ensures { result ≡ told_answer c_file told }
    {
        match told {
            Told::TooHeavy => Answer::refused(c_file, Lang::C, Kind::TooHeavy),
            Told::Successful(proof) => Answer::Successful(Kept::Proof(proof)),
            Told::Failed(trace) => Answer::Failed(trace),
            Told::Spent(proof) => Answer::Spent(proof),
        }
    }

    /// What is kept of an answer: the proof of a success or of a spent budget.
    pub fn kept(self) -> Kept
        ensures { result ≡ kept_of self }
    {
        match self {
            Answer::Successful(kept) => kept,
            Answer::Spent(proof) => Kept::Proof(proof),
            _ => Kept::Nothing,
        }
    }
}
