//! What a run does and how it ends.

use crate::expr::Slot;
use crate::program::PropId;
use sqlite_items::Items;

/// How a run ends.
#[derive(Clone, Copy, Debug, PartialEq, Eq)]
pub enum Outcome {
    /// `main` returned.
    Ended,
    /// An assumption was 0.
    Cut,
    /// One edge more than the bounds allow was asked for.
    OutOfFrames,
    /// A property broke.
    Broken(PropId),
}

/// The value of a word of a signal, which is given by its place in `signals`. The word is 0 where the signal is no memory.
#[derive(Clone, Copy, Debug, PartialEq, Eq)]
pub struct Shown {
    pub signal: u32,
    pub word: u32,
    pub value: u64,
}

/// Values as an event shows them, in order.
pub type ShownList = Items<Shown>;

/// What is seen of a run.
#[derive(Debug, Drop)]
pub enum Event {
    /// A frame begins, by the number of edges taken: all words at first, and later those that changed.
    Frame(u32, ShownList),
    /// `set_inputs()`, with the words that it changed.
    Driven(ShownList),
    /// A store: the line, the object, the index in an array, and the value.
    Stored(u32, Slot, Option<u32>, i128),
    /// The property that ends the run breaks.
    Broke(PropId),
}

/// Events, in the order in which they happened.
pub type EventList = Items<Event>;

/// The numbers that a run draws from, in order. A draw of w bits takes a choice modulo 2^w.
pub type Choices = Items<u64>;
