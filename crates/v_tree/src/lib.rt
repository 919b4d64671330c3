//! The tree of a Verilog source in the profile: what the reader gives and the elaborator takes.
//!
//! The types follow the grammar, one variant for each production, and keep what the text says: nothing is evaluated,
//! and no name is looked up. Each node that has a token holds the place of its first one, itself or in its first part;
//! so does each name, operator and mark at which something may be wrong.
#![tactic(auto)]

mod expr;
mod item;
mod name;
mod stmt;

pub use expr::{
    Base, BasedNumber, BinaryOp, BinaryOperator, DecimalNumber, Expr, Literal, Selection, UnaryOp,
    UnaryOperator,
};
pub use item::{
    AlwaysConstruct, Connections, ContinuousAssign, Declarator, Direction, DirectionKind, Event,
    Header, Instance, IntegerDeclaration, Item, Module, ModuleInstantiation, NamedConnection,
    NetAssignment, NetDeclaration, NetKind, ParameterAssignment, ParameterDeclaration,
    ParameterRange, Port, PortDeclaration, Range, RegDeclaration, Register, RegisterForm, VTree,
};
pub use name::Identifier;
pub use stmt::{
    Assignment, AssignmentKind, CaseItem, CaseKind, ForHead, LoopAssignment, Stmt, Target,
};
