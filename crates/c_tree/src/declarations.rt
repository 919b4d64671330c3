//! Types, and the declarations of objects, in a function and at file scope (C99 6.7).

use crate::expressions::{Call, Expression};
use crate::names::Identifier;
use sqlite_items::Items;
use src_text::Place;

/// Whether a type is signed, by its words. A type without either word, `char` too, is signed.
#[derive(Clone, Copy, Debug, PartialEq, Eq)]
pub enum Sign {
    Signed,
    Unsigned,
}

/// `signed` or `unsigned` where it stands; where neither stands, the first word of the type.
#[derive(Clone, Copy, Debug, PartialEq, Eq)]
pub struct SignMark {
    pub place: Place,
    pub sign: Sign,
}

/// The integer types (C99 6.7.2 and 7.18.1.1). `long long` is `Long`.
#[derive(Clone, Copy, Debug, PartialEq, Eq)]
pub enum IntegerType {
    /// `_Bool` or `bool`
    Bool,
    Char(Sign),
    Short(Sign),
    Int(Sign),
    Long(Sign),
    /// `int8_t`
    Int8,
    /// `int16_t`
    Int16,
    /// `int32_t`
    Int32,
    /// `int64_t`
    Int64,
    /// `uint8_t`
    Uint8,
    /// `uint16_t`
    Uint16,
    /// `uint32_t`
    Uint32,
    /// `uint64_t`
    Uint64,
}

/// The words of a type, and the place of the first one.
#[derive(Clone, Copy, Debug, PartialEq, Eq)]
pub struct TypeName {
    pub place: Place,
    pub integer: IntegerType,
}

/// What stands to the right of a `=`, or behind `return`.
#[derive(Drop)]
pub enum Initializer {
    Value(Expression),
    Called(Call),
}

/// A declared object: its name, with an initializer, or with the length of an array and its first elements.
#[derive(Drop)]
pub enum Declarator {
    /// `ID`
    Plain(Identifier),
    /// `ID "=" Initializer`
    Initialized(Identifier, Initializer),
    /// `ID "[" Expression "]"`
    Array(Identifier, Expression),
    /// `ID "[" Expression "]" "=" "{" Expression { "," Expression } [ "," ] "}"`
    InitializedArray(Identifier, Expression, Items<Expression>),
}

/// `[ "const" ] TypeName Declarator { "," Declarator } ";"` in a function.
#[derive(Drop)]
pub struct Local {
    /// The place of `const`, if it stands.
    pub constant: Option<Place>,
    pub type_name: TypeName,
    pub declarators: Items<Declarator>,
}

/// `ID [ "[" Expression "]" ]` in a struct.
#[derive(Drop)]
pub enum MemberDeclarator {
    Plain(Identifier),
    Array(Identifier, Expression),
}

/// The members of a struct that are declared together.
#[derive(Drop)]
pub enum Member {
    /// `TypeName MemberDeclarator { "," MemberDeclarator } ";"`
    Integers(TypeName, Items<MemberDeclarator>),
    /// `"struct" ID ID { "," ID } ";"`: a tag, and the members of that struct.
    Structs(Place, Identifier, Items<Identifier>),
}

/// `[ "const" ] TypeName [ ID ]`
#[derive(Drop)]
pub struct Parameter {
    /// The place of `const`, if it stands.
    pub constant: Option<Place>,
    pub type_name: TypeName,
    pub name: Option<Identifier>,
}

/// `extern` or `static` where it stands, or neither.
#[derive(Clone, Copy, Debug, PartialEq, Eq)]
pub enum Storage {
    Unspecified,
    Extern(Place),
    Static(Place),
}

/// What a function gives.
#[derive(Clone, Copy, Debug, PartialEq, Eq)]
pub enum ResultType {
    /// `void`
    Void(Place),
    Integer(TypeName),
}

/// A function without its body. `()` and `(void)` are both without parameters.
#[derive(Drop)]
pub struct FunctionHead {
    pub storage: Storage,
    pub result: ResultType,
    pub name: Identifier,
    pub parameters: Items<Parameter>,
}

/// `[ "static" ] [ "const" ] TypeName Declarator { "," Declarator } ";"` at file scope.
#[derive(Drop)]
pub struct Globals {
    /// `Static`, or `Unspecified`.
    pub storage: Storage,
    /// The place of `const`, if it stands.
    pub constant: Option<Place>,
    pub type_name: TypeName,
    pub declarators: Items<Declarator>,
}
