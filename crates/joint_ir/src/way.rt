//! How a statement that came to its end goes on.

/// Which way a statement that came to its end goes on (C99 6.8, 6.8.6).
#[derive(Clone, Copy, Debug, PartialEq, Eq)]
pub enum Way {
    /// To what stands behind it.
    Next,
    /// Out of the loop or `switch` around it, by `break`.
    Breaking,
    /// To the next turn of the loop around it, by `continue`.
    Continuing,
    /// Out of the function, by `return`.
    Returning,
}
