//! What the words ask for.

ghost use Rattle.std.specs.Prelude.{◌≡◌};

use command_words::WordsEnd;
use joint_ir::{Bounds, NamedLimitList};
use src_text::Name;
use std::alloc::AllocError;

/// Which variable the solver decides next.
#[derive(Clone, Copy, Debug, PartialEq, Eq)]
pub enum Decide {
    /// The lowest free one.
    Order,
    /// The one that the last conflicts have met most.
    Activity,
}

/// What the words ask for.
#[derive(Drop)]
pub struct Options {
    /// The name of the top module, if the words have one.
    pub top: Option<Name>,
    /// The limits of a run, without those by name.
    pub bounds: Bounds,
    /// Limits of single loops and functions, in the order of the words.
    pub limits: NamedLimitList,
    /// The greatest number of clauses that the solver may derive.
    pub budget: u64,
    /// Which variable the solver decides next.
    pub decide: Decide,
    /// The C file's name, as it was written.
    pub c_file: Name,
    /// The Verilog file's name, as it was written.
    pub v_file: Name,
}

/// Why there are no options.
#[derive(Clone, Copy, Debug)]
pub enum UsageEnd {
    /// The words aren't of the command's form.
    Usage,
    /// Want of memory.
    Memory,
}

impl From<AllocError> for UsageEnd {
    ghost use Rattle.command_options.specs.declared.asked.UsageEnd.TheVariants as ends;

    ghost from_gives = { λ _ e. e ≡ ends.Memory };

    fn from(_want: AllocError) -> UsageEnd {
        UsageEnd::Memory
    }
}

/// Words that give nothing give no options.
pub fn end_of(end: WordsEnd) -> UsageEnd
    ensures { result ≡ UsageEnd.Usage → end ≡ WordsEnd.Usage }
{
    match end {
        WordsEnd::Usage => UsageEnd::Usage,
        WordsEnd::Memory => UsageEnd::Memory,
    }
}
