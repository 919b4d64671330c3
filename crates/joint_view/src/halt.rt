//! How a run comes to a halt.

ghost use Rattle.std.specs.Prelude.{◌≡◌};

use joint_ir::Outcome;
use std::alloc::AllocError;

/// What ends a run, or keeps it from being carried out.
#[derive(Clone, Copy, Debug, PartialEq, Eq)]
pub enum Halt {
    /// The run ends. A property that breaks is seen as a last event.
    Stop(Outcome),
    /// It draws more choices than there are.
    TooFew,
    /// There is no more memory.
    Memory,
}

impl From<AllocError> for Halt {
    ghost use Rattle.joint_view.specs.declared.halt.Halt.TheVariants.{Memory};

    ghost from_gives = { λ _ e. e ≡ Memory };

    fn from(_e: AllocError) -> Halt {
        Halt::Memory
    }
}
