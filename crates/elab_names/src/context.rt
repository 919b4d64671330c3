//! What an operand is handed by what stands round it.

/// The width and the sign that an operand is handed by what stands round it (5.4.1 and 5.5.2).
#[derive(Clone, Copy, Debug)]
pub struct Context {
    /// From 1 to 128.
    pub width: u8,
    pub signed: bool,
}
