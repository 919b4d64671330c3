//! The actions of the grammar of Verilog by number.

ghost use Rattle.std.specs.Prelude.{◌≡◌, slice_index_or};
ghost use Rattle.v_actions.specs.Numbers.{action_of};

use v_tree::{BinaryOp, DirectionKind, UnaryOp};

/// What makes a value of the token right before it.
#[derive(Clone, Copy)]
pub enum TokenAction {
    /// A keyword or a mark whose place is kept.
    Place,
    /// An identifier.
    Name,
    /// An identifier that is declared.
    Declared,
    /// Decimal digits.
    Decimal,
    /// A base and digits.
    Based,
    /// `input` or `output`.
    Direction(DirectionKind),
    /// A unary operator.
    Unary(UnaryOp),
    /// A binary operator.
    Binary(BinaryOp),
}

/// What makes an expression of the values before it.
#[derive(Clone, Copy)]
pub enum ExpressionAction {
    /// `12`
    DecimalLiteral,
    /// `'hf`
    BasedLiteral,
    /// `4'hf`
    SizedLiteral,
    /// `name`
    NameAlone,
    /// `name [ selection ]`
    Select,
    /// An operator before its operand.
    Unary,
    /// An operator between its operands.
    Binary,
    /// `condition ? one : other`
    Conditional,
    /// `( inner )`
    Parentheses,
    /// `{ a, b }`
    Concatenation,
    /// `{ count { a, b } }`
    Replication,
    /// `$signed ( operand )`
    SignedCall,
    /// `$unsigned ( operand )`
    UnsignedCall,
    /// `index`
    IndexSelection,
    /// `high : low`
    RangeSelection,
    /// `base +: width`
    UpSelection,
    /// `base -: width`
    DownSelection,
    /// No expressions yet.
    NoExprs,
    /// One more of the expressions.
    AddExpr,
    /// The first part of a concatenation.
    FirstExpr,
    /// A value that is given.
    SomeExpr,
    /// No value.
    NoExpr,
}

/// What makes a statement of the values before it.
#[derive(Clone, Copy)]
pub enum StatementAction {
    /// `name`
    TargetName,
    /// `name [ selection ]`
    TargetSelect,
    /// `{ a, b }`
    TargetConcatenation,
    /// No targets yet.
    NoTargets,
    /// One more of the targets.
    AddTarget,
    /// `=`
    Blocking,
    /// `<=`
    Nonblocking,
    /// `target = value ;`
    Assignment,
    /// `;`
    Empty,
    /// `: name`
    SomeLabel,
    /// No label.
    NoLabel,
    /// `begin label body end`
    Block,
    /// No statements yet.
    NoStmts,
    /// One more of the statements.
    AddStmt,
    /// `if ( condition ) body`
    IfAlone,
    /// `if ( condition ) body else other`
    IfElse,
    /// `case ( value ) items endcase`
    Case,
    /// `casez ( value ) items endcase`
    Casez,
    /// `a, b : body`
    ValuesItem,
    /// `default : body`
    DefaultItem,
    /// No case items yet.
    NoCaseItems,
    /// One more of the case items.
    AddCaseItem,
    /// `for ( start = first ; condition ; step = next ) body`
    For,
}

/// What makes a part of a declaration of the values before it.
#[derive(Clone, Copy)]
pub enum DeclarationAction {
    /// `[ high : low ]`
    Range,
    /// A range that is given.
    SomeRange,
    /// No range.
    NoRange,
    /// `signed range`
    SignedRange,
    /// A range without `signed`.
    PlainRange,
    /// No range of a parameter.
    NoParameterRange,
    /// `name = value` of a parameter.
    Parameter,
    /// No parameters yet.
    NoParameters,
    /// One more of the parameters.
    AddParameter,
    /// No names yet.
    NoNames,
    /// One more of the names.
    AddName,
    /// No declared names yet.
    NoDeclared,
    /// One more of the declared names.
    AddDeclared,
    /// A declared name, perhaps with a value.
    Declarator,
    /// No declared names with values yet.
    NoDeclarators,
    /// One more of the declared names with values.
    AddDeclarator,
    /// `wire` of a port.
    WireKind,
    /// `reg` of a port.
    RegKind,
    /// Neither of both.
    NoKind,
    /// `signed`
    Signed,
    /// No `signed`.
    Unsigned,
    /// A register's name alone.
    PlainRegister,
    /// `name = value` of a register.
    InitializedRegister,
    /// A name and the range of its words.
    Memory,
    /// No registers yet.
    NoRegisters,
    /// One more of the registers.
    AddRegister,
}

/// What makes a connection, a continuous assignment or an event of the values before it.
#[derive(Clone, Copy)]
pub enum ConnectionAction {
    /// A connection by position.
    Ordered,
    /// No connections by position yet.
    NoOrdered,
    /// One more of the connections by position.
    AddOrdered,
    /// `. name ( value )`
    Named,
    /// No connections by name yet.
    NoNamed,
    /// One more of the connections by name.
    AddNamed,
    /// No connections.
    NoConnections,
    /// All by position.
    OrderedConnections,
    /// All by name.
    NamedConnections,
    /// `# ( values )`
    SomeOverrides,
    /// No `#`.
    NoOverrides,
    /// `name ( connections )`
    Instance,
    /// No instances yet.
    NoInstances,
    /// One more of the instances.
    AddInstance,
    /// `target = value` of `assign`.
    NetAssignment,
    /// No assignments yet.
    NoNetAssignments,
    /// One more of the assignments.
    AddNetAssignment,
    /// `*`
    AnyEvent,
    /// `posedge clock`
    PosedgeEvent,
    /// `a or b`
    NamesEvent,
}

/// What makes an item, a header or a module of the values before it.
#[derive(Clone, Copy)]
pub enum ModuleAction {
    /// `input ..;`
    PortItem,
    /// `wire ..;`
    NetItem,
    /// `reg ..;`
    RegItem,
    /// `integer ..;`
    IntegerItem,
    /// `parameter ..;`
    ParameterItem,
    /// `localparam ..;`
    LocalParameterItem,
    /// `assign ..;`
    AssignItem,
    /// `always event body`
    AlwaysItem,
    /// `initial body`
    InitialItem,
    /// Instances of a module.
    InstancesItem,
    /// No items yet.
    NoItems,
    /// One more of the items.
    AddItem,
    /// No parameters in a header yet.
    NoGroups,
    /// One more `parameter ..` of a header.
    CloseGroup,
    /// No ports in a header yet.
    NoPorts,
    /// One more `input ..` of a header.
    ClosePort,
    /// No header.
    AbsentHeader,
    /// `( )`
    EmptyHeader,
    /// `( a, b )`
    HeaderNames,
    /// `( input a, output b )`
    HeaderPorts,
    /// `module name .. endmodule`
    Module,
    /// No modules yet.
    NoModules,
    /// One more of the modules.
    AddModule,
    /// The whole text.
    Source,
}

/// What a place in the grammar does with the values that were read before it.
#[derive(Clone, Copy)]
pub enum Action {
    Token(TokenAction),
    Expression(ExpressionAction),
    Statement(StatementAction),
    Declaration(DeclarationAction),
    Connection(ConnectionAction),
    Module(ModuleAction),
}

/// The actions in the order of their numbers, as `verilog.sorts` has them.
pub static ACTIONS: [Action; 153] = [
    Action::Expression(ExpressionAction::NoExprs),
    Action::Token(TokenAction::Place),
    Action::Token(TokenAction::Name),
    Action::Token(TokenAction::Declared),
    Action::Token(TokenAction::Decimal),
    Action::Token(TokenAction::Based),
    Action::Token(TokenAction::Direction(DirectionKind::Input)),
    Action::Token(TokenAction::Direction(DirectionKind::Output)),
    Action::Token(TokenAction::Unary(UnaryOp::Plus)),
    Action::Token(TokenAction::Unary(UnaryOp::Minus)),
    Action::Token(TokenAction::Unary(UnaryOp::LogicalNot)),
    Action::Token(TokenAction::Unary(UnaryOp::BitNot)),
    Action::Token(TokenAction::Unary(UnaryOp::ReduceAnd)),
    Action::Token(TokenAction::Unary(UnaryOp::ReduceNand)),
    Action::Token(TokenAction::Unary(UnaryOp::ReduceOr)),
    Action::Token(TokenAction::Unary(UnaryOp::ReduceNor)),
    Action::Token(TokenAction::Unary(UnaryOp::ReduceXor)),
    Action::Token(TokenAction::Unary(UnaryOp::ReduceXnor)),
    Action::Token(TokenAction::Binary(BinaryOp::LogicalOr)),
    Action::Token(TokenAction::Binary(BinaryOp::LogicalAnd)),
    Action::Token(TokenAction::Binary(BinaryOp::BitOr)),
    Action::Token(TokenAction::Binary(BinaryOp::BitXor)),
    Action::Token(TokenAction::Binary(BinaryOp::BitXnor)),
    Action::Token(TokenAction::Binary(BinaryOp::BitAnd)),
    Action::Token(TokenAction::Binary(BinaryOp::Equal)),
    Action::Token(TokenAction::Binary(BinaryOp::NotEqual)),
    Action::Token(TokenAction::Binary(BinaryOp::Less)),
    Action::Token(TokenAction::Binary(BinaryOp::LessEqual)),
    Action::Token(TokenAction::Binary(BinaryOp::Greater)),
    Action::Token(TokenAction::Binary(BinaryOp::GreaterEqual)),
    Action::Token(TokenAction::Binary(BinaryOp::ShiftLeft)),
    Action::Token(TokenAction::Binary(BinaryOp::ShiftRight)),
    Action::Token(TokenAction::Binary(BinaryOp::ArithmeticShiftLeft)),
    Action::Token(TokenAction::Binary(BinaryOp::ArithmeticShiftRight)),
    Action::Token(TokenAction::Binary(BinaryOp::Add)),
    Action::Token(TokenAction::Binary(BinaryOp::Subtract)),
    Action::Token(TokenAction::Binary(BinaryOp::Multiply)),
    Action::Token(TokenAction::Binary(BinaryOp::Divide)),
    Action::Token(TokenAction::Binary(BinaryOp::Remainder)),
    Action::Expression(ExpressionAction::DecimalLiteral),
    Action::Expression(ExpressionAction::BasedLiteral),
    Action::Expression(ExpressionAction::SizedLiteral),
    Action::Expression(ExpressionAction::NameAlone),
    Action::Expression(ExpressionAction::Select),
    Action::Expression(ExpressionAction::Unary),
    Action::Expression(ExpressionAction::Binary),
    Action::Expression(ExpressionAction::Conditional),
    Action::Expression(ExpressionAction::Parentheses),
    Action::Expression(ExpressionAction::Concatenation),
    Action::Expression(ExpressionAction::Replication),
    Action::Expression(ExpressionAction::SignedCall),
    Action::Expression(ExpressionAction::UnsignedCall),
    Action::Expression(ExpressionAction::IndexSelection),
    Action::Expression(ExpressionAction::RangeSelection),
    Action::Expression(ExpressionAction::UpSelection),
    Action::Expression(ExpressionAction::DownSelection),
    Action::Expression(ExpressionAction::AddExpr),
    Action::Expression(ExpressionAction::FirstExpr),
    Action::Expression(ExpressionAction::SomeExpr),
    Action::Expression(ExpressionAction::NoExpr),
    Action::Statement(StatementAction::TargetName),
    Action::Statement(StatementAction::TargetSelect),
    Action::Statement(StatementAction::TargetConcatenation),
    Action::Statement(StatementAction::NoTargets),
    Action::Statement(StatementAction::AddTarget),
    Action::Statement(StatementAction::Blocking),
    Action::Statement(StatementAction::Nonblocking),
    Action::Statement(StatementAction::Assignment),
    Action::Statement(StatementAction::Empty),
    Action::Statement(StatementAction::SomeLabel),
    Action::Statement(StatementAction::NoLabel),
    Action::Statement(StatementAction::Block),
    Action::Statement(StatementAction::NoStmts),
    Action::Statement(StatementAction::AddStmt),
    Action::Statement(StatementAction::IfAlone),
    Action::Statement(StatementAction::IfElse),
    Action::Statement(StatementAction::Case),
    Action::Statement(StatementAction::Casez),
    Action::Statement(StatementAction::ValuesItem),
    Action::Statement(StatementAction::DefaultItem),
    Action::Statement(StatementAction::NoCaseItems),
    Action::Statement(StatementAction::AddCaseItem),
    Action::Statement(StatementAction::For),
    Action::Declaration(DeclarationAction::Range),
    Action::Declaration(DeclarationAction::SomeRange),
    Action::Declaration(DeclarationAction::NoRange),
    Action::Declaration(DeclarationAction::SignedRange),
    Action::Declaration(DeclarationAction::PlainRange),
    Action::Declaration(DeclarationAction::NoParameterRange),
    Action::Declaration(DeclarationAction::Parameter),
    Action::Declaration(DeclarationAction::NoParameters),
    Action::Declaration(DeclarationAction::AddParameter),
    Action::Declaration(DeclarationAction::NoNames),
    Action::Declaration(DeclarationAction::AddName),
    Action::Declaration(DeclarationAction::NoDeclared),
    Action::Declaration(DeclarationAction::AddDeclared),
    Action::Declaration(DeclarationAction::Declarator),
    Action::Declaration(DeclarationAction::NoDeclarators),
    Action::Declaration(DeclarationAction::AddDeclarator),
    Action::Declaration(DeclarationAction::WireKind),
    Action::Declaration(DeclarationAction::RegKind),
    Action::Declaration(DeclarationAction::NoKind),
    Action::Declaration(DeclarationAction::Signed),
    Action::Declaration(DeclarationAction::Unsigned),
    Action::Declaration(DeclarationAction::PlainRegister),
    Action::Declaration(DeclarationAction::InitializedRegister),
    Action::Declaration(DeclarationAction::Memory),
    Action::Declaration(DeclarationAction::NoRegisters),
    Action::Declaration(DeclarationAction::AddRegister),
    Action::Connection(ConnectionAction::Ordered),
    Action::Connection(ConnectionAction::NoOrdered),
    Action::Connection(ConnectionAction::AddOrdered),
    Action::Connection(ConnectionAction::Named),
    Action::Connection(ConnectionAction::NoNamed),
    Action::Connection(ConnectionAction::AddNamed),
    Action::Connection(ConnectionAction::NoConnections),
    Action::Connection(ConnectionAction::OrderedConnections),
    Action::Connection(ConnectionAction::NamedConnections),
    Action::Connection(ConnectionAction::SomeOverrides),
    Action::Connection(ConnectionAction::NoOverrides),
    Action::Connection(ConnectionAction::Instance),
    Action::Connection(ConnectionAction::NoInstances),
    Action::Connection(ConnectionAction::AddInstance),
    Action::Connection(ConnectionAction::NetAssignment),
    Action::Connection(ConnectionAction::NoNetAssignments),
    Action::Connection(ConnectionAction::AddNetAssignment),
    Action::Connection(ConnectionAction::AnyEvent),
    Action::Connection(ConnectionAction::PosedgeEvent),
    Action::Connection(ConnectionAction::NamesEvent),
    Action::Module(ModuleAction::PortItem),
    Action::Module(ModuleAction::NetItem),
    Action::Module(ModuleAction::RegItem),
    Action::Module(ModuleAction::IntegerItem),
    Action::Module(ModuleAction::ParameterItem),
    Action::Module(ModuleAction::LocalParameterItem),
    Action::Module(ModuleAction::AssignItem),
    Action::Module(ModuleAction::AlwaysItem),
    Action::Module(ModuleAction::InitialItem),
    Action::Module(ModuleAction::InstancesItem),
    Action::Module(ModuleAction::NoItems),
    Action::Module(ModuleAction::AddItem),
    Action::Module(ModuleAction::NoGroups),
    Action::Module(ModuleAction::CloseGroup),
    Action::Module(ModuleAction::NoPorts),
    Action::Module(ModuleAction::ClosePort),
    Action::Module(ModuleAction::AbsentHeader),
    Action::Module(ModuleAction::EmptyHeader),
    Action::Module(ModuleAction::HeaderNames),
    Action::Module(ModuleAction::HeaderPorts),
    Action::Module(ModuleAction::Module),
    Action::Module(ModuleAction::NoModules),
    Action::Module(ModuleAction::AddModule),
    Action::Module(ModuleAction::Source),
];

fn action_at(actions: &[Action], number: u16) -> Action
    ensures { result ≡ slice_index_or actions.now number (Action.Expression ExpressionAction.NoExprs) }
{
    match actions.get(number as usize) {
        Some(action) => *action,
        None => Action::Expression(ExpressionAction::NoExprs),
    }
}

/// The action of a number. One that no action has stands for an empty list of expressions.
pub fn action_of(number: u16) -> Action
    ensures { result ≡ action_of number }
{
    action_at(&ACTIONS, number)
}
