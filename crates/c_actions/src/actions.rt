//! The actions of the grammar of C by number.

ghost use Rattle.std.specs.Prelude.{◌≡◌, slice_index_or};
ghost use Rattle.c_actions.specs.Numbers.{action_of};

use c_tree::{AssignmentOperator, BinaryOperator, IntegerType, Sign, StepOperator, UnaryOperator};

/// Actions that make a value of the token right before them.
#[derive(Clone, Copy)]
pub enum TokenAction {
    /// The place of a token.
    Place,
    /// `ID` that is used.
    Name,
    /// `ID` that is declared.
    Declared,
    /// `INT`
    Integer,
    /// `CHAR`
    Character,
    /// `"true"`
    True,
    /// `"false"`
    False,
    /// `"static"`
    Static,
    /// A type that is one word.
    Type(IntegerType),
    /// `Sign`, or the first word of a type without one.
    Sign(Sign),
    /// An operator before an operand.
    Unary(UnaryOperator),
    /// An operator between operands.
    Binary(BinaryOperator),
    /// An operator of a compound assignment.
    Assignment(AssignmentOperator),
    /// `"++"` or `"--"`
    Step(StepOperator),
}

/// Actions of expressions (ISO C99, 6.5).
#[derive(Clone, Copy)]
pub enum ExpressionAction {
    /// `Object = ID`
    Object,
    /// `Object = Object "." ID`
    AddPathMember,
    /// `Path = Object`
    Path,
    /// `Path = Object "[" Expression "]"`
    Element,
    /// No expressions.
    NoExpressions,
    /// The first of several expressions.
    OneExpression,
    /// One more expression.
    AddExpression,
    /// No expression.
    NoExpression,
    /// An expression where there may be none.
    SomeExpression,
    /// `Primary = Path`
    Read,
    /// `Primary = "(" Expression ")"`
    Parentheses,
    /// `Unary = ("+" | "-" | "!" | "~") Unary`
    Unary,
    /// `Unary = "(" Type ")" Unary`
    Cast,
    /// An operator with its operands.
    Binary,
    /// `Expression "?" Expression ":" Expression`
    Conditional,
}

/// Actions of declarations (ISO C99, 6.7).
#[derive(Clone, Copy)]
pub enum DeclarationAction {
    /// `Type = [Sign] "char"`
    CharType,
    /// `Type = [Sign] "short" ["int"]`
    ShortType,
    /// `Type = [Sign] "int" | Sign`
    IntType,
    /// `Type = [Sign] "long" ["long"] ["int"]`
    LongType,
    /// `Init = Expression`
    Value,
    /// `Init = Call`
    CallValue,
    /// No initializer.
    NoInitializer,
    /// An initializer where there may be none.
    SomeInitializer,
    /// `Decl = ID`
    PlainDeclarator,
    /// `Decl = ID "=" Init`
    Initialized,
    /// `Decl = ID "[" Expression "]"`
    ArrayDeclarator,
    /// `Decl = ID "[" Expression "]" "=" "{" Expression { "," Expression } [ "," ] "}"`
    InitializedArray,
    /// The first of several declared names.
    OneDeclarator,
    /// One more declared name.
    AddDeclarator,
    /// `Local = Type Decl { "," Decl } ";"`
    Local,
    /// `Local = "const" Type Decl { "," Decl } ";"`
    ConstLocal,
    /// `Item = ID`
    PlainItem,
    /// `Item = ID "[" Expression "]"`
    ArrayItem,
    /// The first of several items.
    OneItem,
    /// One more item.
    AddItem,
    /// The first of several declared names.
    OneName,
    /// One more declared name.
    AddName,
    /// `Member = Type Item { "," Item } ";"`
    IntegerMembers,
    /// `Member = "struct" ID ID { "," ID } ";"`
    StructMembers,
    /// The first of several members.
    OneMember,
    /// One more member.
    AddMember,
    /// No name.
    NoName,
    /// A name where there may be none.
    SomeName,
    /// `Param = Type [ ID ]`
    Parameter,
    /// `Param = "const" Type [ ID ]`
    ConstParameter,
    /// `Params = [ "void" ]`
    NoParameters,
    /// The first of several parameters.
    OneParameter,
    /// One more parameter.
    AddParameter,
}

/// Actions of statements (ISO C99, 6.8).
#[derive(Clone, Copy)]
pub enum StatementAction {
    /// `Simple = Call`
    Call,
    /// `Simple = Path "=" Init`
    Assign,
    /// `Simple = Path OpAssign Expression`
    Update,
    /// `Simple = Path ("++" | "--")`
    StepAfter,
    /// `Simple = ("++" | "--") Path`
    StepBefore,
    /// No simple statement.
    NoSimple,
    /// A simple statement where there may be none.
    SomeSimple,
    /// Nothing before the first `;` of a `for`
    ForNothing,
    /// A declaration in the head of a `for`
    ForLocal,
    /// A simple statement in the head of a `for`
    ForSimple,
    /// `Label = "case" Expression ":"`
    Case,
    /// `Label = "default" ":"`
    Default,
    /// The first label of a group.
    FirstLabel,
    /// One more label of a group.
    AddLabel,
    /// The end of the labels of a group.
    Labelled,
    /// One more statement of a group.
    AddToGroup,
    /// `Group = Label { Label } { Statement }`
    Group,
    /// No groups.
    NoGroups,
    /// One more group.
    AddGroup,
    /// An empty block.
    NoItems,
    /// One more declaration of a block.
    AddLocal,
    /// One more statement of a block.
    AddStatement,
    /// `Block = "{" { Local | Statement } "}"`
    Block,
    /// `Statement = Block`
    Compound,
    /// `Statement = ";"`
    Empty,
    /// `Statement = Simple ";"`
    Simple,
    /// `Statement = "if" "(" Expression ")" Statement`
    IfAlone,
    /// `Statement = "if" "(" Expression ")" Statement "else" Statement`
    IfElse,
    /// `Statement = "while" "(" Expression ")" Statement`
    While,
    /// `Statement = "do" Statement "while" "(" Expression ")" ";"`
    Do,
    /// `Statement = "for" "(" ForFirst [Expression] ";" [Simple] ")" Statement`
    For,
    /// `Statement = "switch" "(" Expression ")" "{" { Group } "}"`
    Switch,
    /// `Statement = "break" ";"`
    Break,
    /// `Statement = "continue" ";"`
    Continue,
    /// `Statement = "return" [Init] ";"`
    Return,
    /// `Statement = "assert" "(" Expression ")" ";"`
    Assert,
    /// `Statement = "__CPROVER_assert" "(" Expression "," STRING ")" ";"`
    CproverAssert,
    /// `Statement = "__CPROVER_assume" "(" Expression ")" ";"`
    CproverAssume,
}

/// Actions of external declarations (ISO C99, 6.9).
#[derive(Clone, Copy)]
pub enum FileAction {
    /// No `extern` and no `static`
    NoStorage,
    /// `"extern"` before a function.
    Extern,
    /// A name that turns out to be a function's.
    FunctionName,
    /// `"void" ID` before parameters.
    VoidFunction,
    /// `Type ID` before parameters.
    IntegerFunction,
    /// `Function = [ "extern" | "static" ] ( "void" | Type ) ID "(" Params ")" ";"`
    Function,
    /// `Function = [ "extern" | "static" ] ( "void" | Type ) ID "(" Params ")" Block`
    Definition,
    /// `Globals = [ "static" ] Type Decl { "," Decl } ";"`
    Globals,
    /// `Globals = [ "static" ] "const" Type Decl { "," Decl } ";"`
    ConstGlobals,
    /// `Struct = "struct" ID "{" Member { Member } "}" ";"`
    Struct,
    /// `Mirror = "extern" "struct" ID ID ";"`
    Mirror,
    /// `BoundDecl = "extern" "const" Type ID ";"`
    Bound,
    /// An empty file.
    NoExternals,
    /// The first of several external declarations.
    OneExternal,
    /// One more external declaration.
    AddExternal,
    /// `File = { External }`
    File,
}

/// What the builder does at a step.
#[derive(Clone, Copy)]
pub enum Action {
    Token(TokenAction),
    Expression(ExpressionAction),
    Declaration(DeclarationAction),
    Statement(StatementAction),
    File(FileAction),
}

/// The actions in the order of their numbers, as `c.sorts` has them.
pub static ACTIONS: [Action; 156] = [
    Action::File(FileAction::File),
    Action::File(FileAction::NoExternals),
    Action::File(FileAction::OneExternal),
    Action::File(FileAction::AddExternal),
    Action::File(FileAction::Struct),
    Action::File(FileAction::Mirror),
    Action::File(FileAction::Bound),
    Action::File(FileAction::Function),
    Action::File(FileAction::Definition),
    Action::File(FileAction::Globals),
    Action::File(FileAction::ConstGlobals),
    Action::File(FileAction::NoStorage),
    Action::File(FileAction::Extern),
    Action::Token(TokenAction::Static),
    Action::File(FileAction::VoidFunction),
    Action::File(FileAction::IntegerFunction),
    Action::File(FileAction::FunctionName),
    Action::Declaration(DeclarationAction::OneMember),
    Action::Declaration(DeclarationAction::AddMember),
    Action::Declaration(DeclarationAction::IntegerMembers),
    Action::Declaration(DeclarationAction::StructMembers),
    Action::Declaration(DeclarationAction::OneItem),
    Action::Declaration(DeclarationAction::AddItem),
    Action::Declaration(DeclarationAction::PlainItem),
    Action::Declaration(DeclarationAction::ArrayItem),
    Action::Declaration(DeclarationAction::OneName),
    Action::Declaration(DeclarationAction::AddName),
    Action::Declaration(DeclarationAction::NoParameters),
    Action::Declaration(DeclarationAction::OneParameter),
    Action::Declaration(DeclarationAction::AddParameter),
    Action::Declaration(DeclarationAction::Parameter),
    Action::Declaration(DeclarationAction::ConstParameter),
    Action::Declaration(DeclarationAction::NoName),
    Action::Declaration(DeclarationAction::SomeName),
    Action::Declaration(DeclarationAction::OneDeclarator),
    Action::Declaration(DeclarationAction::AddDeclarator),
    Action::Declaration(DeclarationAction::PlainDeclarator),
    Action::Declaration(DeclarationAction::Initialized),
    Action::Declaration(DeclarationAction::ArrayDeclarator),
    Action::Declaration(DeclarationAction::InitializedArray),
    Action::Declaration(DeclarationAction::Value),
    Action::Declaration(DeclarationAction::CallValue),
    Action::Token(TokenAction::Type(IntegerType::Bool)),
    Action::Declaration(DeclarationAction::CharType),
    Action::Declaration(DeclarationAction::ShortType),
    Action::Declaration(DeclarationAction::IntType),
    Action::Declaration(DeclarationAction::LongType),
    Action::Token(TokenAction::Type(IntegerType::Int8)),
    Action::Token(TokenAction::Type(IntegerType::Int16)),
    Action::Token(TokenAction::Type(IntegerType::Int32)),
    Action::Token(TokenAction::Type(IntegerType::Int64)),
    Action::Token(TokenAction::Type(IntegerType::Uint8)),
    Action::Token(TokenAction::Type(IntegerType::Uint16)),
    Action::Token(TokenAction::Type(IntegerType::Uint32)),
    Action::Token(TokenAction::Type(IntegerType::Uint64)),
    Action::Token(TokenAction::Sign(Sign::Signed)),
    Action::Token(TokenAction::Sign(Sign::Unsigned)),
    Action::Token(TokenAction::Sign(Sign::Signed)),
    Action::Statement(StatementAction::Block),
    Action::Statement(StatementAction::NoItems),
    Action::Statement(StatementAction::AddLocal),
    Action::Statement(StatementAction::AddStatement),
    Action::Declaration(DeclarationAction::Local),
    Action::Declaration(DeclarationAction::ConstLocal),
    Action::Statement(StatementAction::Compound),
    Action::Statement(StatementAction::Empty),
    Action::Statement(StatementAction::Simple),
    Action::Statement(StatementAction::IfAlone),
    Action::Statement(StatementAction::IfElse),
    Action::Statement(StatementAction::While),
    Action::Statement(StatementAction::Do),
    Action::Statement(StatementAction::For),
    Action::Statement(StatementAction::Switch),
    Action::Statement(StatementAction::Break),
    Action::Statement(StatementAction::Continue),
    Action::Statement(StatementAction::Return),
    Action::Statement(StatementAction::Assert),
    Action::Statement(StatementAction::CproverAssert),
    Action::Statement(StatementAction::CproverAssume),
    Action::Statement(StatementAction::ForNothing),
    Action::Statement(StatementAction::ForLocal),
    Action::Statement(StatementAction::ForSimple),
    Action::Statement(StatementAction::NoSimple),
    Action::Statement(StatementAction::SomeSimple),
    Action::Expression(ExpressionAction::NoExpression),
    Action::Expression(ExpressionAction::SomeExpression),
    Action::Declaration(DeclarationAction::NoInitializer),
    Action::Declaration(DeclarationAction::SomeInitializer),
    Action::Statement(StatementAction::NoGroups),
    Action::Statement(StatementAction::AddGroup),
    Action::Statement(StatementAction::FirstLabel),
    Action::Statement(StatementAction::AddLabel),
    Action::Statement(StatementAction::Labelled),
    Action::Statement(StatementAction::AddToGroup),
    Action::Statement(StatementAction::Group),
    Action::Statement(StatementAction::Case),
    Action::Statement(StatementAction::Default),
    Action::Statement(StatementAction::Call),
    Action::Statement(StatementAction::Assign),
    Action::Statement(StatementAction::Update),
    Action::Statement(StatementAction::StepAfter),
    Action::Statement(StatementAction::StepBefore),
    Action::Expression(ExpressionAction::Object),
    Action::Expression(ExpressionAction::AddPathMember),
    Action::Expression(ExpressionAction::Path),
    Action::Expression(ExpressionAction::Element),
    Action::Expression(ExpressionAction::NoExpressions),
    Action::Expression(ExpressionAction::OneExpression),
    Action::Expression(ExpressionAction::AddExpression),
    Action::Expression(ExpressionAction::Read),
    Action::Token(TokenAction::Integer),
    Action::Token(TokenAction::Character),
    Action::Token(TokenAction::True),
    Action::Token(TokenAction::False),
    Action::Expression(ExpressionAction::Parentheses),
    Action::Expression(ExpressionAction::Unary),
    Action::Expression(ExpressionAction::Cast),
    Action::Expression(ExpressionAction::Binary),
    Action::Expression(ExpressionAction::Conditional),
    Action::Token(TokenAction::Place),
    Action::Token(TokenAction::Name),
    Action::Token(TokenAction::Declared),
    Action::Token(TokenAction::Unary(UnaryOperator::Plus)),
    Action::Token(TokenAction::Unary(UnaryOperator::Minus)),
    Action::Token(TokenAction::Unary(UnaryOperator::Not)),
    Action::Token(TokenAction::Unary(UnaryOperator::Complement)),
    Action::Token(TokenAction::Binary(BinaryOperator::Multiply)),
    Action::Token(TokenAction::Binary(BinaryOperator::Divide)),
    Action::Token(TokenAction::Binary(BinaryOperator::Remainder)),
    Action::Token(TokenAction::Binary(BinaryOperator::Add)),
    Action::Token(TokenAction::Binary(BinaryOperator::Subtract)),
    Action::Token(TokenAction::Binary(BinaryOperator::ShiftLeft)),
    Action::Token(TokenAction::Binary(BinaryOperator::ShiftRight)),
    Action::Token(TokenAction::Binary(BinaryOperator::Less)),
    Action::Token(TokenAction::Binary(BinaryOperator::LessEqual)),
    Action::Token(TokenAction::Binary(BinaryOperator::Greater)),
    Action::Token(TokenAction::Binary(BinaryOperator::GreaterEqual)),
    Action::Token(TokenAction::Binary(BinaryOperator::Equal)),
    Action::Token(TokenAction::Binary(BinaryOperator::NotEqual)),
    Action::Token(TokenAction::Binary(BinaryOperator::And)),
    Action::Token(TokenAction::Binary(BinaryOperator::Xor)),
    Action::Token(TokenAction::Binary(BinaryOperator::Or)),
    Action::Token(TokenAction::Binary(BinaryOperator::LogicalAnd)),
    Action::Token(TokenAction::Binary(BinaryOperator::LogicalOr)),
    Action::Token(TokenAction::Assignment(AssignmentOperator::Add)),
    Action::Token(TokenAction::Assignment(AssignmentOperator::Subtract)),
    Action::Token(TokenAction::Assignment(AssignmentOperator::Multiply)),
    Action::Token(TokenAction::Assignment(AssignmentOperator::Divide)),
    Action::Token(TokenAction::Assignment(AssignmentOperator::Remainder)),
    Action::Token(TokenAction::Assignment(AssignmentOperator::And)),
    Action::Token(TokenAction::Assignment(AssignmentOperator::Or)),
    Action::Token(TokenAction::Assignment(AssignmentOperator::Xor)),
    Action::Token(TokenAction::Assignment(AssignmentOperator::ShiftLeft)),
    Action::Token(TokenAction::Assignment(AssignmentOperator::ShiftRight)),
    Action::Token(TokenAction::Step(StepOperator::Increment)),
    Action::Token(TokenAction::Step(StepOperator::Decrement)),
];

fn action_at(actions: &[Action], number: u16) -> Action
    ensures { result ≡ slice_index_or actions.now number (Action.File FileAction.NoExternals) }
{
    match actions.get(number as usize) {
        Some(action) => *action,
        None => Action::File(FileAction::NoExternals),
    }
}

/// The action of a number. One that no action has stands for an empty file.
pub fn action_of(number: u16) -> Action
    ensures { result ≡ action_of number }
{
    action_at(&ACTIONS, number)
}
