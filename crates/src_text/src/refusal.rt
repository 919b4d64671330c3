//! Where a source is refused, and why.

use crate::kind::Kind;

/// A place in a text: both numbers count from 1, the column in bytes. A line ends with byte 10.
#[derive(Clone, Copy, Debug, PartialEq, Eq)]
pub struct Place {
    pub line: u32,
    pub column: u32,
}

/// Which of the files that are read.
#[derive(Clone, Copy, Debug, PartialEq, Eq)]
pub enum Lang {
    /// The C file.
    C,
    /// The Verilog file.
    V,
    /// The stimulus file.
    S,
    /// The file of a stored log.
    L,
}

/// Why a source is refused, and at which place of which file.
#[derive(Clone, Copy, Debug, PartialEq, Eq)]
pub struct Refusal {
    pub lang: Lang,
    pub place: Place,
    pub kind: Kind,
}
