//! A text of C, read and typed: from its bytes to its typed program, which is well-formed, or to what is wrong first.
#![tactic(auto)]

ghost use Rattle.std.specs.Prelude.{IfOk};
ghost use Rattle.c_parse.specs.Ends.{HasTree};
ghost use Rattle.typed_texts.specs.Texts.{IsTypedText};

use c_parse::{ParseEnd, parse_c};
use c_text_programs::programs_of_texts_fit;
use c_tree::CTree;
use c_types::{TypeEnd, typed};
use joint_ir::CProgram;
use src_text::Refusal;
use std::alloc::{AllocError, Global};

/// What a text of C is.
#[derive(Drop)]
pub enum TypedText {
    Typed(CProgram),
    /// It has no tree, or one that is too deep, or an offence.
    Refused(Refusal),
    /// A text of 2^30 bytes or more isn't read.
    TooLong,
}

fn typed_tree(alloc: Global, text: &[u8], tree: &CTree) -> Result<TypedText, AllocError>
    requires { HasTree text.now tree.now }
    ensures { IfOk result (IsTypedText text.now) }
{
    programs_of_texts_fit();
    match typed(alloc, tree) {
        Ok(program) => Ok(TypedText::Typed(program)),
        Err(TypeEnd::Refused(refusal)) => Ok(TypedText::Refused(refusal)),
        Err(TypeEnd::Memory) => Err(AllocError),
    }
}

/// The typed program of a text, or what is wrong first in it. Want of memory is the only error.
pub fn typed_text(alloc: Global, text: &[u8]) -> Result<TypedText, AllocError>
    ensures { IfOk result (IsTypedText text.now) }
{
    if text.len() >= 1 << 30 {
        return Ok(TypedText::TooLong);
    }
    match parse_c(alloc, text) {
        Ok(tree) => typed_tree(alloc, text, &tree),
        Err(ParseEnd::Refused(refusal)) => Ok(TypedText::Refused(refusal)),
        Err(ParseEnd::Memory) => Err(AllocError),
    }
}
