//! What the tree of a C text has by the bytes of the text.
//!
//! Nothing here does anything: each function is the statement of a law.
#![tactic(auto)]

ghost use Rattle.c_text_laws.specs.Laws.{TextsHaveBytes};

/// In the tree of a text of bytes each character constant is a byte, and each group of a `switch` has a label.
pub fn texts_have_bytes()
    ensures { TextsHaveBytes }
{}
