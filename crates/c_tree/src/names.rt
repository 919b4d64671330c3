//! Names where they stand.

use src_text::{Name, Place};

/// An identifier (C99 6.4.2) and the place where it stands.
#[derive(Drop)]
pub struct Identifier {
    pub place: Place,
    pub name: Name,
}
