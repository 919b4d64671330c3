//! A typed C program, and the properties that its runs may break.

use crate::ctype::IntType;
use crate::stmt::TStmt;
use sqlite_items::Items;
use src_text::{Name, Place};

/// A property's place in `props`.
#[derive(Clone, Copy, Debug, PartialEq, Eq)]
pub struct PropId(pub u32);

/// What a property is about.
#[derive(Clone, Copy, Debug, PartialEq, Eq)]
pub enum PropKind {
    /// An assertion holds.
    Assertion,
    /// A signed result is in its type.
    Overflow,
    /// A divisor isn't 0.
    Division,
    /// A shift is by at least 0 and by less than the width, and a signed left shift loses nothing.
    Shift,
    /// An index is within its array.
    Bounds,
    /// A loop makes no more turns than its limit.
    Unwind,
    /// A function has no more activations than its limit, nor the run more than `ACTIVATIONS`.
    Recursion,
    /// No clock edge is asked for after the last one.
    Frame,
}

/// A property, named `FUNCTION.KIND.NUMBER`.
#[derive(Drop)]
pub struct Prop {
    pub function: Name,
    pub kind: PropKind,
    /// From 1, in text order, for each function and kind.
    pub number: u32,
    /// The line of the token that it stands at.
    pub line: u32,
}

/// Properties, by their numbers.
pub type PropList = Items<Prop>;

/// Values of the elements of an object.
pub type ValueList = Items<i128>;

/// An object, or a parameter.
#[derive(Drop)]
pub struct Var {
    pub name: Name,
    pub ty: IntType,
    /// The number of elements of an array, and 0 for what is no array.
    pub length: u32,
    /// The first values of a file-scope object. Its other elements begin at 0.
    pub firsts: ValueList,
    /// Whether it is `const`.
    pub constant: bool,
}

/// Objects, by their numbers.
pub type VarList = Items<Var>;

/// A function. Without a body it gives any value of its result's type.
#[derive(Drop)]
pub struct Function {
    pub name: Name,
    /// None for `void`.
    pub result: Option<IntType>,
    /// The place in `locals` of the first parameter; 0 where there is no body.
    pub first: u32,
    /// The number of parameters, which stand in `locals` one after another; 0 where there is no body.
    pub params: u32,
    pub body: Option<TStmt>,
}

/// Functions, by their numbers.
pub type FunctionList = Items<Function>;

/// A member of the mirror.
#[derive(Drop)]
pub struct Member {
    /// Its dotted path, which begins with the mirror's name.
    pub path: Name,
    pub place: Place,
    /// None for a struct.
    pub ty: Option<IntType>,
    /// The number of elements of an array, and 0 for what is no array.
    pub length: u32,
}

/// Members of the mirror, depth-first.
pub type MemberList = Items<Member>;

/// The struct whose members mirror the signals of the top module.
#[derive(Drop)]
pub struct MirrorDecl {
    pub name: Name,
    pub place: Place,
    /// All members in depth-first order, a struct before its own members.
    pub members: MemberList,
}

/// A C program with types.
#[derive(Drop)]
pub struct CProgram {
    pub functions: FunctionList,
    /// The file-scope objects, in text order.
    pub globals: VarList,
    /// The parameters and automatic variables of all functions, in text order.
    pub locals: VarList,
    pub mirror: Option<MirrorDecl>,
    pub props: PropList,
    /// The place of `main` in `functions`.
    pub main: u32,
}
