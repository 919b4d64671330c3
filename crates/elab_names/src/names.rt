//! What the names of a module mean.

use crate::constant::{Constant, Worth};

/// What a signal is: an input, what is driven from outside processes, or what processes assign (4.2).
#[derive(Clone, Copy, Debug, PartialEq, Eq)]
pub enum Sort {
    Input,
    Net,
    Reg,
}

/// The bits of a signal, the low end of its range, and how many words it has; 0 where it is no memory.
#[derive(Clone, Copy, Debug)]
pub struct Shape {
    pub bits: u8,
    pub low: u32,
    pub words: u32,
}

/// A signal: its number in flat order, and its shape where no other offence leaves it open.
#[derive(Clone, Copy, Debug)]
pub struct SignalEntry {
    pub number: u32,
    pub sort: Sort,
    pub signed: bool,
    pub memory: bool,
    pub shape: Option<Shape>,
}

/// A parameter: its value, and the low end of its range.
#[derive(Clone, Copy, Debug)]
pub struct ParameterEntry {
    pub constant: Constant,
    pub low: u32,
}

/// What a name stands for.
#[derive(Clone, Copy, Debug)]
pub enum Entry {
    /// A parameter, where no other offence leaves its value open.
    Parameter(Option<ParameterEntry>),
    /// A loop variable, by its number.
    Integer(usize),
    Signal(SignalEntry),
    Instance,
}

/// A loop variable in one turn of its loop. A loop without turns has one whose value is open.
#[derive(Clone, Copy, Debug)]
pub struct Turn {
    pub integer: usize,
    pub value: Worth,
}
