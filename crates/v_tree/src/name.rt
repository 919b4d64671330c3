//! Names with their places.

use src_text::{Name, Place};

/// A simple identifier (IEEE 1364-2005, 3.7.1).
#[derive(Drop)]
pub struct Identifier {
    pub place: Place,
    pub name: Name,
}
