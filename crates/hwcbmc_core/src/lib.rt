//! The command, from its words and the bytes of its files to its answer.
//!
//! The modules stand in the order that the data meets them.
#![tactic(auto)]

ghost use Rattle.std.specs.Prelude.{◌≡◌, ◌≢◌, ◌⊎◌, ℕ, List, Some, None, map, string_bytes};
ghost use Rattle.io_edge.specs.Faults.{Rose};
ghost use Rattle.io_edge.specs.Sink.{Appends};
ghost use Rattle.hwcbmc_core.specs.declared.answer.Answer.{Answer};
ghost use Rattle.hwcbmc_core.specs.Answers.{IsRight, IsFirstRefusal, IsSuccessOf, IsFailureOf, IsSpentOf, OfFiles};
ghost use Rattle.hwcbmc_core.specs.Keeping.{kept_of, IsKept};
ghost use Rattle.hwcbmc_core.specs.Delivery.{IsDelivered, message_of};
ghost use Rattle.command_options.specs.Options.{options_of};

// Texts to trees. After this both texts are of their grammars, and no tree is too deep.
mod reading;

// Texts to a pair of sources. After this a pair is of the written forms, and these fit the options.
mod forms;
mod sources;

// A pair and its bounds to a verdict.
mod judging;

// A failed run to its trace.
mod tracing;

// What is kept behind an answer.
mod kept;

// All of them in order, to an answer.
mod answer;
mod answering;

// An answer to its text, and the text to its stream.
mod delivering;

use answering::answer_for;
use cdcl::Choosers;
use delivering::deliver;
use io_edge::{Files, Sink};
pub use kept::{Kept, Ran};
use std::alloc::Global;

/// Runs the command: the words after the program's name, to a status and what is kept behind it. The choosers are those that a
/// user may name.
///
/// The answer is right for the words and the files, and it is delivered: its status comes with its whole text on its own stream,
/// and status 8 with a part of that text, where that stream failed.
pub fn run<F: Files, O: Sink, E: Sink>(
    alloc: Global,
    words: &[String],
    files: &mut F,
    out: &mut O,
    err: &mut E,
    choosers: Choosers,
) -> Ran
    ensures answered { (answer : Answer)
        × IsRight (map string_bytes words.now) (F.told files.old) (F.reading files.old) (F.reading files.new) answer
        × IsDelivered answer result.status (O.stream out.old) (O.stream out.new) (E.stream err.old) (E.stream err.new)
        × (result.kept ≡ kept_of answer) }

    // What that says of each status.
    ensures usage { result.status ≡ 64 → options_of (map string_bytes words.now) ≡ None }
    ensures refused { result.status ≡ 6 → (options : _) × (file : List ℕ) × (refusal : _) × (options_of (map string_bytes words.now) ≡ Some options)
        × IsFirstRefusal options (F.told files.old) (F.reading files.old) (F.reading files.new) file refusal
        × Appends (E.stream err.old).written (E.stream err.new).written (message_of (Answer.Refused file refusal)) }
    ensures successful { result.status ≡ 0 → (options : _) × (options_of (map string_bytes words.now) ≡ Some options)
        × OfFiles options (F.told files.old) (IsSuccessOf options result.kept) }
    ensures failed { result.status ≡ 10 → (options : _) × (trace : _) × (options_of (map string_bytes words.now) ≡ Some options)
        × OfFiles options (F.told files.old) (IsFailureOf options trace)
        × Appends (O.stream out.old).written (O.stream out.new).written (string_bytes trace) }
    ensures spent { result.status ≡ 11 → (options : _) × (proof : _) × (options_of (map string_bytes words.now) ≡ Some options)
        × OfFiles options (F.told files.old) (IsSpentOf options proof) × (result.kept ≡ Kept.Proof proof) }
    ensures write_fault { result.status ≡ 8 → Rose (O.stream out.old).faults (O.stream out.new).faults ⊎ Rose (E.stream err.old).faults (E.stream err.new).faults }

    // A proof that is kept shows a success or a spent budget, under any status.
    ensures kept { IsKept (map string_bytes words.now) (F.told files.old) result.kept }

    // No fault is passed over.
    ensures no_write_fault { result.status ≢ 8 → ((O.stream out.new).faults ≡ (O.stream out.old).faults) × ((E.stream err.new).faults ≡ (E.stream err.old).faults) }
    ensures no_read_fault { result.status ≢ 7 → result.status ≢ 8 → result.status ≢ 9 → (F.reading files.new).faults ≡ (F.reading files.old).faults }

    // Reading changes no bytes under any name.
    ensures told { F.told files.new ≡ F.told files.old }
{
    let mut choosers = choosers;
    let answer = answer_for(alloc, words, files, &mut choosers);
    let status = deliver(alloc, &answer, out, err);
    Ran {
        status,
        kept: answer.kept(),
    }
}
