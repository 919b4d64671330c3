//! The trees of the C profile: what a text says, with the place of each part at which something can be wrong.
//!
//! A node is named as ISO C99 names it. What a text leaves out, such as the `int` of `long int`, is left out here too:
//! two texts with the same tree mean the same. How a text becomes a tree is nothing to this crate, nor what a tree means.
#![tactic(auto)]

pub mod declarations;
pub mod expressions;
pub mod file;
pub mod names;
pub mod statements;

pub use declarations::{
    Declarator, FunctionHead, Globals, Initializer, IntegerType, Local, Member, MemberDeclarator,
    Parameter, ResultType, Sign, SignMark, Storage, TypeName,
};
pub use expressions::{
    AssignmentMark, AssignmentOperator, BinaryMark, BinaryOperator, Call, Expression, Object, Path,
    StepMark, StepOperator, UnaryMark, UnaryOperator,
};
pub use file::{CTree, External};
pub use names::Identifier;
pub use statements::{Block, BlockItem, ForFirst, Group, Label, Simple, Statement};
