//! An answer's text and status, on the stream where it belongs.

ghost use Rattle.std.specs.Prelude.{◌≡◌, ◌⊎◌, IfOk, MatchResult, string_bytes};
ghost use Rattle.hwcbmc_core.specs.Delivery.{IsSentAs, IsDelivered, IsComposed, message_of};

use crate::answer::Answer;
use io_edge::{Sink, write_all};
use src_text::{Name, Refusal};
use std::alloc::{AllocError, Global};

const USAGE: &str =
    "hwcbmc: usage: hwcbmc [--module NAME] [--bound K] [--unwind N] [--unwindset LIST] [--budget B] [--decide order|activity] [--check-bound] C_FILE V_FILE\n";

const OUT_OF_MEMORY: &str = "hwcbmc: out of memory\n";

const SUCCESSFUL: &str = "VERIFICATION SUCCESSFUL\n";

const SPENT: &str = "BUDGET SPENT\n";

/// No run breaks a property.
const STATUS_SUCCESSFUL: u8 = 0;
/// A file is refused.
const STATUS_REFUSED: u8 = 6;
/// A file couldn't be read.
const STATUS_READ_FAULT: u8 = 7;
/// The answer couldn't be written.
const STATUS_WRITE_FAULT: u8 = 8;
/// Want of memory.
const STATUS_MEMORY: u8 = 9;
/// A run breaks a property.
const STATUS_FAILED: u8 = 10;
/// The budget is spent.
const STATUS_SPENT: u8 = 11;
/// The words aren't of the command's form.
const STATUS_USAGE: u8 = 64;

/// Writes the answer's text to its stream: verdicts and a spent budget to `out`, all else to `err`. The status is the
/// answer's own, but for a text that can't be made or written. Only a text that names a file has to
/// be made.
pub fn deliver<O: Sink, E: Sink>(alloc: Global, answer: &Answer, out: &mut O, err: &mut E) -> u8
    ensures { IsDelivered answer.now result (O.stream out.old) (O.stream out.new) (E.stream err.old) (E.stream err.new)
        ⊎ (IsComposed answer.now × IsDelivered Answer.Memory result (O.stream out.old) (O.stream out.new) (E.stream err.old) (E.stream err.new)) }
{
    match answer {
        Answer::Usage => send(err, USAGE, STATUS_USAGE),
        Answer::ReadFault(file) => send_made(err, read_fault(alloc, file), STATUS_READ_FAULT),
        Answer::Refused(file, refusal) => {
            send_made(err, refused(alloc, file, *refusal), STATUS_REFUSED)
        }
        Answer::Failed(trace) => send(out, trace.as_str(), STATUS_FAILED),
        Answer::Successful(_) => send(out, SUCCESSFUL, STATUS_SUCCESSFUL),
        Answer::Spent(_) => send(out, SPENT, STATUS_SPENT),
        Answer::Memory => send(err, OUT_OF_MEMORY, STATUS_MEMORY),
    }
}

/// Writes a text, and answers the status, or that of a write fault.
fn send<K: Sink>(sink: &mut K, text: &str, status: u8) -> u8
    ensures { IsSentAs text.now status result (K.stream sink.old) (K.stream sink.new) }
{
    match write_all(sink, text.as_bytes()) {
        Ok(()) => status,
        Err(_) => STATUS_WRITE_FAULT,
    }
}

/// Writes a text that had to be made first.
fn send_made<K: Sink>(sink: &mut K, text: Result<String, AllocError>, status: u8) -> u8
    ensures { MatchResult text
        (λ text. IsSentAs (string_bytes text) status result (K.stream sink.old) (K.stream sink.new))
        (λ _. IsSentAs (message_of Answer.Memory) 9 result (K.stream sink.old) (K.stream sink.new)) }
{
    match text {
        Ok(text) => send(sink, text.as_str(), status),
        Err(_) => send(sink, OUT_OF_MEMORY, STATUS_MEMORY),
    }
}

fn read_fault(alloc: Global, file: &Name) -> Result<String, AllocError>
    ensures { IfOk result (λ text. string_bytes text ≡ message_of (Answer.ReadFault file.now)) }
{
    let file = file.text();
    format!(in alloc; "hwcbmc: {file}: read fault\n")
}

fn refused(alloc: Global, file: &Name, refusal: Refusal) -> Result<String, AllocError>
    ensures { IfOk result (λ text. string_bytes text ≡ message_of (Answer.Refused file.now refusal)) }
{
    let file = file.text();
    let line = refusal.place.line;
    let column = refusal.place.column;
    let text = refusal.kind.text();
    format!(in alloc; "hwcbmc: {file}:{line}:{column}: {text}\n")
}
