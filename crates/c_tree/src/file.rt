//! External declarations (C99 6.9), and the whole file.

use crate::declarations::{FunctionHead, Globals, Member, TypeName};
use crate::names::Identifier;
use crate::statements::Block;
use sqlite_items::Items;
use src_text::Place;

/// An external declaration. Each place is that of its first token.
#[derive(Drop)]
pub enum External {
    /// `"struct" ID "{" Member { Member } "}" ";"`
    Struct(Place, Identifier, Items<Member>),
    /// `"extern" "struct" ID ID ";"`: a tag, and the name of the mirror.
    Mirror(Place, Identifier, Identifier),
    /// `"extern" "const" TypeName ID ";"`
    Bound(Place, TypeName, Identifier),
    /// `FunctionHead ";"`
    Function(FunctionHead),
    /// `FunctionHead Block`
    Definition(FunctionHead, Block),
    Objects(Globals),
}

/// A C file.
#[derive(Drop)]
pub struct CTree {
    pub externals: Items<External>,
    /// The place after the last byte of the text.
    pub end: Place,
}
