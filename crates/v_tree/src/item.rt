//! Modules and what they are made of (IEEE 1364-2005, clauses 4, 6 and 12, and Annexes A.1 to A.4).

use crate::expr::Expr;
use crate::name::Identifier;
use crate::stmt::{Stmt, Target};
use sqlite_items::Items;
use src_text::Place;

/// A whole source text.
#[derive(Drop)]
pub struct VTree {
    pub modules: Items<Module>,
}

/// A module. `place` is that of `module`.
#[derive(Drop)]
pub struct Module {
    pub place: Place,
    pub name: Identifier,
    pub parameters: Items<ParameterDeclaration>,
    pub header: Header,
    pub items: Items<Item>,
}

/// `[ high : low ]`, with the place of `[`.
#[derive(Drop)]
pub struct Range {
    pub place: Place,
    pub high: Expr,
    pub low: Expr,
}

/// The range of a parameter, and whether `signed` stands before it.
#[derive(Drop)]
pub struct ParameterRange {
    pub signed: bool,
    pub range: Range,
}

/// `name = value` of a parameter (12.2).
#[derive(Drop)]
pub struct ParameterAssignment {
    pub name: Identifier,
    pub value: Expr,
}

/// Parameters that share a range. `place` is that of `parameter` or `localparam`.
#[derive(Drop)]
pub struct ParameterDeclaration {
    pub place: Place,
    pub range: Option<ParameterRange>,
    pub parameters: Items<ParameterAssignment>,
}

/// What stands after a module's name (12.3).
#[derive(Drop)]
pub enum Header {
    Absent,
    /// `( )`
    Empty,
    /// Names that items of the module declare.
    Names(Items<Identifier>),
    Ports(Items<Port>),
}

/// Which way a port goes.
#[derive(Clone, Copy, Debug, PartialEq, Eq)]
pub enum DirectionKind {
    /// `input`
    Input,
    /// `output`
    Output,
}

/// `input` or `output` where it stands.
#[derive(Clone, Copy, Debug, PartialEq, Eq)]
pub struct Direction {
    pub place: Place,
    pub kind: DirectionKind,
}

/// What holds a signal's value (clause 4).
#[derive(Clone, Copy, Debug, PartialEq, Eq)]
pub enum NetKind {
    /// `wire`
    Wire,
    /// `reg`
    Reg,
}

/// A declared name, and its value where `=` follows.
#[derive(Drop)]
pub struct Declarator {
    pub name: Identifier,
    pub value: Option<Expr>,
}

/// Ports that a header declares.
#[derive(Drop)]
pub struct Port {
    pub direction: Direction,
    pub net: Option<NetKind>,
    pub signed: bool,
    pub range: Option<Range>,
    pub names: Items<Declarator>,
}

/// Ports that an item declares (12.3.3).
#[derive(Drop)]
pub struct PortDeclaration {
    pub direction: Direction,
    pub net: Option<NetKind>,
    pub signed: bool,
    pub range: Option<Range>,
    pub names: Items<Identifier>,
}

/// `wire ..;` (4.2.1)
#[derive(Drop)]
pub struct NetDeclaration {
    pub place: Place,
    pub signed: bool,
    pub range: Option<Range>,
    pub nets: Items<Declarator>,
}

/// What a register is besides its name.
#[derive(Drop)]
pub enum RegisterForm {
    Plain,
    /// `= value`
    Initialized(Expr),
    /// `[ first : last ]` (4.9)
    Memory(Range),
}

/// A register that is declared.
#[derive(Drop)]
pub struct Register {
    pub name: Identifier,
    pub form: RegisterForm,
}

/// `reg ..;` (4.2.2)
#[derive(Drop)]
pub struct RegDeclaration {
    pub place: Place,
    pub signed: bool,
    pub range: Option<Range>,
    pub registers: Items<Register>,
}

/// `integer ..;` (4.8)
#[derive(Drop)]
pub struct IntegerDeclaration {
    pub place: Place,
    pub names: Items<Identifier>,
}

/// `target = value` of a continuous assignment.
#[derive(Drop)]
pub struct NetAssignment {
    pub target: Target,
    pub value: Expr,
}

/// `assign ..;` (6.1)
#[derive(Drop)]
pub struct ContinuousAssign {
    pub place: Place,
    pub assignments: Items<NetAssignment>,
}

/// What a process waits for (9.7).
#[derive(Drop)]
pub enum Event {
    /// `@*` or `@(*)`
    All,
    /// `@(posedge clock)`
    Posedge(Identifier),
    /// `@(a or b)`
    Names(Items<Identifier>),
}

/// `always ..` (9.9.2)
#[derive(Drop)]
pub struct AlwaysConstruct {
    pub place: Place,
    pub event: Event,
    pub body: Stmt,
}

/// `.name( value )`, with the place of the dot (12.3.6).
#[derive(Drop)]
pub struct NamedConnection {
    pub place: Place,
    pub name: Identifier,
    pub value: Option<Expr>,
}

/// What an instance's ports are connected to, or its parameters set to.
#[derive(Drop)]
pub enum Connections {
    Absent,
    /// By position (12.3.5).
    Ordered(Items<Expr>),
    /// By name (12.3.6).
    Named(Items<NamedConnection>),
}

/// An instance of a module.
#[derive(Drop)]
pub struct Instance {
    pub name: Identifier,
    pub connections: Connections,
}

/// Instances that share a module and the values of its parameters (12.1.2).
#[derive(Drop)]
pub struct ModuleInstantiation {
    pub module: Identifier,
    /// What stands in `#( .. )`.
    pub overrides: Option<Connections>,
    pub instances: Items<Instance>,
}

/// An item of a module.
#[derive(Drop)]
pub enum Item {
    Port(PortDeclaration),
    Net(NetDeclaration),
    Reg(RegDeclaration),
    Integer(IntegerDeclaration),
    Parameter(ParameterDeclaration),
    LocalParameter(ParameterDeclaration),
    Assign(ContinuousAssign),
    Always(AlwaysConstruct),
    /// `initial ..`, with the place of `initial` (9.9.1).
    Initial(Place, Stmt),
    Instances(ModuleInstantiation),
}
