//! The values that lie on the stack while a tree is built, one variant a sort.

ghost use Rattle.std.specs.Prelude.{◌≡◌, ◌∷◌, reverse, IfOk, MatchOption, None, List, Option, Bool};
ghost use Rattle.v_stack.specs.Values.{Goes, with_place, with_name, with_declared, with_unary_operator, with_binary_operator, with_decimal, with_based, with_direction, with_expr, with_exprs, with_expr_option, with_selection, with_range, with_range_option, with_target, with_targets, with_assignment_kind, with_label, with_stmt, with_stmts, with_case_item, with_case_items, with_sign, with_net_kind, with_parameter_range, with_parameter, with_parameters, with_groups, with_names, with_declared_names, with_declarator, with_declarators, with_register, with_registers, with_ordered, with_ordered_values, with_named, with_named_values, with_connections, with_overrides, with_instance, with_instances, with_net_assignment, with_net_assignments, with_event, with_ports, with_header, with_item, with_items, with_module, with_modules, with_source};

use sqlite_items::Items;
use src_text::Place;
use std::alloc::AllocError;
use v_tree::{
    AssignmentKind, BasedNumber, BinaryOperator, CaseItem, Connections, DecimalNumber, Declarator,
    Direction, Event, Expr, Header, Identifier, Instance, Item, Module, NamedConnection,
    NetAssignment, NetKind, ParameterAssignment, ParameterDeclaration, ParameterRange, Port, Range,
    Register, Selection, Stmt, Target, UnaryOperator, VTree,
};

/// What is read of one token.
#[derive(Drop)]
pub enum TokenValue {
    Place(Place),
    Name(Identifier),
    /// A name that is declared.
    Declared(Identifier),
    UnaryOperator(UnaryOperator),
    BinaryOperator(BinaryOperator),
    Decimal(DecimalNumber),
    Based(BasedNumber),
    Direction(Direction),
}

/// Expressions, selects and ranges.
#[derive(Drop)]
pub enum ExprValue {
    Expr(Expr),
    Exprs(Items<Expr>),
    /// A value that may be left out.
    ExprOption(Option<Expr>),
    Selection(Selection),
    Range(Range),
    RangeOption(Option<Range>),
}

/// Statements and the targets of assignments.
#[derive(Drop)]
pub enum StmtValue {
    Target(Target),
    Targets(Items<Target>),
    AssignmentKind(AssignmentKind),
    Label(Option<Identifier>),
    Stmt(Stmt),
    Stmts(Items<Stmt>),
    CaseItem(CaseItem),
    CaseItems(Items<CaseItem>),
}

/// Parts of declarations.
#[derive(Drop)]
pub enum DeclareValue {
    /// Whether `signed` stands there.
    Sign(bool),
    NetKind(Option<NetKind>),
    ParameterRange(Option<ParameterRange>),
    Parameter(ParameterAssignment),
    Parameters(Items<ParameterAssignment>),
    /// The parameters of a header.
    Groups(Items<ParameterDeclaration>),
}

/// Declared names.
#[derive(Drop)]
pub enum NamesValue {
    Names(Items<Identifier>),
    DeclaredNames(Items<Identifier>),
    Declarator(Declarator),
    Declarators(Items<Declarator>),
    Register(Register),
    Registers(Items<Register>),
}

/// Connections.
#[derive(Drop)]
pub enum ConnectValue {
    /// A connection by position.
    Ordered(Expr),
    /// Connections by position.
    OrderedValues(Items<Expr>),
    Named(NamedConnection),
    /// Connections by name.
    NamedValues(Items<NamedConnection>),
    Connections(Connections),
    /// What stands after `#`.
    Overrides(Option<Connections>),
}

/// Instances, continuous assignments and events.
#[derive(Drop)]
pub enum PartValue {
    Instance(Instance),
    Instances(Items<Instance>),
    NetAssignment(NetAssignment),
    NetAssignments(Items<NetAssignment>),
    Event(Event),
}

/// Items, headers and modules.
#[derive(Drop)]
pub enum ModuleValue {
    Ports(Items<Port>),
    Header(Header),
    Item(Item),
    Items(Items<Item>),
    Module(Module),
    Modules(Items<Module>),
    Source(VTree),
}

/// A part of a tree that is done.
#[derive(Drop)]
pub enum Value {
    Token(TokenValue),
    Expr(ExprValue),
    Stmt(StmtValue),
    Declare(DeclareValue),
    Names(NamesValue),
    Connect(ConnectValue),
    Part(PartValue),
    Module(ModuleValue),
}

fn discard<T>(_value: Value) -> Option<T>
    ensures { result ≡ None }
{
    None
}

/// Puts a value on top of the stack.
pub fn put(stack: &mut Vec<Value>, value: Value) -> Result<(), AllocError>
    ensures { IfOk result (λ _. reverse stack.new.items ≡ value ∷ reverse stack.old.items) }
{
    stack.push(value)?;
    Ok(())
}

/// Takes the top value off the stack: the place, or `None` where it is something else or there is none.
pub fn take_place(stack: &mut Vec<Value>) -> Option<Place>
    ensures { (go : Goes Place) → MatchOption result (with_place (reverse stack.old.items) go ≡ None) (λ x. with_place (reverse stack.old.items) go ≡ go x (reverse stack.new.items)) }
{
    match stack.pop() {
        Some(Value::Token(TokenValue::Place(x))) => Some(x),
        Some(other) => discard(other),
        None => None,
    }
}

/// Takes the top value off the stack: the name, or `None` where it is something else or there is none.
pub fn take_name(stack: &mut Vec<Value>) -> Option<Identifier>
    ensures { (go : Goes Identifier) → MatchOption result (with_name (reverse stack.old.items) go ≡ None) (λ x. with_name (reverse stack.old.items) go ≡ go x (reverse stack.new.items)) }
{
    match stack.pop() {
        Some(Value::Token(TokenValue::Name(x))) => Some(x),
        Some(other) => discard(other),
        None => None,
    }
}

/// Takes the top value off the stack: the declared, or `None` where it is something else or there is none.
pub fn take_declared(stack: &mut Vec<Value>) -> Option<Identifier>
    ensures { (go : Goes Identifier) → MatchOption result (with_declared (reverse stack.old.items) go ≡ None) (λ x. with_declared (reverse stack.old.items) go ≡ go x (reverse stack.new.items)) }
{
    match stack.pop() {
        Some(Value::Token(TokenValue::Declared(x))) => Some(x),
        Some(other) => discard(other),
        None => None,
    }
}

/// Takes the top value off the stack: the unary operator, or `None` where it is something else or there is none.
pub fn take_unary_operator(stack: &mut Vec<Value>) -> Option<UnaryOperator>
    ensures { (go : Goes UnaryOperator) → MatchOption result (with_unary_operator (reverse stack.old.items) go ≡ None) (λ x. with_unary_operator (reverse stack.old.items) go ≡ go x (reverse stack.new.items)) }
{
    match stack.pop() {
        Some(Value::Token(TokenValue::UnaryOperator(x))) => Some(x),
        Some(other) => discard(other),
        None => None,
    }
}

/// Takes the top value off the stack: the binary operator, or `None` where it is something else or there is none.
pub fn take_binary_operator(stack: &mut Vec<Value>) -> Option<BinaryOperator>
    ensures { (go : Goes BinaryOperator) → MatchOption result (with_binary_operator (reverse stack.old.items) go ≡ None) (λ x. with_binary_operator (reverse stack.old.items) go ≡ go x (reverse stack.new.items)) }
{
    match stack.pop() {
        Some(Value::Token(TokenValue::BinaryOperator(x))) => Some(x),
        Some(other) => discard(other),
        None => None,
    }
}

/// Takes the top value off the stack: the decimal, or `None` where it is something else or there is none.
pub fn take_decimal(stack: &mut Vec<Value>) -> Option<DecimalNumber>
    ensures { (go : Goes DecimalNumber) → MatchOption result (with_decimal (reverse stack.old.items) go ≡ None) (λ x. with_decimal (reverse stack.old.items) go ≡ go x (reverse stack.new.items)) }
{
    match stack.pop() {
        Some(Value::Token(TokenValue::Decimal(x))) => Some(x),
        Some(other) => discard(other),
        None => None,
    }
}

/// Takes the top value off the stack: the based, or `None` where it is something else or there is none.
pub fn take_based(stack: &mut Vec<Value>) -> Option<BasedNumber>
    ensures { (go : Goes BasedNumber) → MatchOption result (with_based (reverse stack.old.items) go ≡ None) (λ x. with_based (reverse stack.old.items) go ≡ go x (reverse stack.new.items)) }
{
    match stack.pop() {
        Some(Value::Token(TokenValue::Based(x))) => Some(x),
        Some(other) => discard(other),
        None => None,
    }
}

/// Takes the top value off the stack: the direction, or `None` where it is something else or there is none.
pub fn take_direction(stack: &mut Vec<Value>) -> Option<Direction>
    ensures { (go : Goes Direction) → MatchOption result (with_direction (reverse stack.old.items) go ≡ None) (λ x. with_direction (reverse stack.old.items) go ≡ go x (reverse stack.new.items)) }
{
    match stack.pop() {
        Some(Value::Token(TokenValue::Direction(x))) => Some(x),
        Some(other) => discard(other),
        None => None,
    }
}

/// Takes the top value off the stack: the expr, or `None` where it is something else or there is none.
pub fn take_expr(stack: &mut Vec<Value>) -> Option<Expr>
    ensures { (go : Goes Expr) → MatchOption result (with_expr (reverse stack.old.items) go ≡ None) (λ x. with_expr (reverse stack.old.items) go ≡ go x (reverse stack.new.items)) }
{
    match stack.pop() {
        Some(Value::Expr(ExprValue::Expr(x))) => Some(x),
        Some(other) => discard(other),
        None => None,
    }
}

/// Takes the top value off the stack: the exprs, or `None` where it is something else or there is none.
pub fn take_exprs(stack: &mut Vec<Value>) -> Option<Items<Expr>>
    ensures { (go : Goes (List Expr)) → MatchOption result (with_exprs (reverse stack.old.items) go ≡ None) (λ x. with_exprs (reverse stack.old.items) go ≡ go x (reverse stack.new.items)) }
{
    match stack.pop() {
        Some(Value::Expr(ExprValue::Exprs(x))) => Some(x),
        Some(other) => discard(other),
        None => None,
    }
}

/// Takes the top value off the stack: the expr option, or `None` where it is something else or there is none.
pub fn take_expr_option(stack: &mut Vec<Value>) -> Option<Option<Expr>>
    ensures { (go : Goes (Option Expr)) → MatchOption result (with_expr_option (reverse stack.old.items) go ≡ None) (λ x. with_expr_option (reverse stack.old.items) go ≡ go x (reverse stack.new.items)) }
{
    match stack.pop() {
        Some(Value::Expr(ExprValue::ExprOption(x))) => Some(x),
        Some(other) => discard(other),
        None => None,
    }
}

/// Takes the top value off the stack: the selection, or `None` where it is something else or there is none.
pub fn take_selection(stack: &mut Vec<Value>) -> Option<Selection>
    ensures { (go : Goes Selection) → MatchOption result (with_selection (reverse stack.old.items) go ≡ None) (λ x. with_selection (reverse stack.old.items) go ≡ go x (reverse stack.new.items)) }
{
    match stack.pop() {
        Some(Value::Expr(ExprValue::Selection(x))) => Some(x),
        Some(other) => discard(other),
        None => None,
    }
}

/// Takes the top value off the stack: the range, or `None` where it is something else or there is none.
pub fn take_range(stack: &mut Vec<Value>) -> Option<Range>
    ensures { (go : Goes Range) → MatchOption result (with_range (reverse stack.old.items) go ≡ None) (λ x. with_range (reverse stack.old.items) go ≡ go x (reverse stack.new.items)) }
{
    match stack.pop() {
        Some(Value::Expr(ExprValue::Range(x))) => Some(x),
        Some(other) => discard(other),
        None => None,
    }
}

/// Takes the top value off the stack: the range option, or `None` where it is something else or there is none.
pub fn take_range_option(stack: &mut Vec<Value>) -> Option<Option<Range>>
    ensures { (go : Goes (Option Range)) → MatchOption result (with_range_option (reverse stack.old.items) go ≡ None) (λ x. with_range_option (reverse stack.old.items) go ≡ go x (reverse stack.new.items)) }
{
    match stack.pop() {
        Some(Value::Expr(ExprValue::RangeOption(x))) => Some(x),
        Some(other) => discard(other),
        None => None,
    }
}

/// Takes the top value off the stack: the target, or `None` where it is something else or there is none.
pub fn take_target(stack: &mut Vec<Value>) -> Option<Target>
    ensures { (go : Goes Target) → MatchOption result (with_target (reverse stack.old.items) go ≡ None) (λ x. with_target (reverse stack.old.items) go ≡ go x (reverse stack.new.items)) }
{
    match stack.pop() {
        Some(Value::Stmt(StmtValue::Target(x))) => Some(x),
        Some(other) => discard(other),
        None => None,
    }
}

/// Takes the top value off the stack: the targets, or `None` where it is something else or there is none.
pub fn take_targets(stack: &mut Vec<Value>) -> Option<Items<Target>>
    ensures { (go : Goes (List Target)) → MatchOption result (with_targets (reverse stack.old.items) go ≡ None) (λ x. with_targets (reverse stack.old.items) go ≡ go x (reverse stack.new.items)) }
{
    match stack.pop() {
        Some(Value::Stmt(StmtValue::Targets(x))) => Some(x),
        Some(other) => discard(other),
        None => None,
    }
}

/// Takes the top value off the stack: the assignment kind, or `None` where it is something else or there is none.
pub fn take_assignment_kind(stack: &mut Vec<Value>) -> Option<AssignmentKind>
    ensures { (go : Goes AssignmentKind) → MatchOption result (with_assignment_kind (reverse stack.old.items) go ≡ None) (λ x. with_assignment_kind (reverse stack.old.items) go ≡ go x (reverse stack.new.items)) }
{
    match stack.pop() {
        Some(Value::Stmt(StmtValue::AssignmentKind(AssignmentKind::Blocking))) => {
            Some(AssignmentKind::Blocking)
        }
        Some(Value::Stmt(StmtValue::AssignmentKind(AssignmentKind::Nonblocking))) => {
            Some(AssignmentKind::Nonblocking)
        }
        Some(other) => discard(other),
        None => None,
    }
}

/// Takes the top value off the stack: the label, or `None` where it is something else or there is none.
pub fn take_label(stack: &mut Vec<Value>) -> Option<Option<Identifier>>
    ensures { (go : Goes (Option Identifier)) → MatchOption result (with_label (reverse stack.old.items) go ≡ None) (λ x. with_label (reverse stack.old.items) go ≡ go x (reverse stack.new.items)) }
{
    match stack.pop() {
        Some(Value::Stmt(StmtValue::Label(x))) => Some(x),
        Some(other) => discard(other),
        None => None,
    }
}

/// Takes the top value off the stack: the stmt, or `None` where it is something else or there is none.
pub fn take_stmt(stack: &mut Vec<Value>) -> Option<Stmt>
    ensures { (go : Goes Stmt) → MatchOption result (with_stmt (reverse stack.old.items) go ≡ None) (λ x. with_stmt (reverse stack.old.items) go ≡ go x (reverse stack.new.items)) }
{
    match stack.pop() {
        Some(Value::Stmt(StmtValue::Stmt(x))) => Some(x),
        Some(other) => discard(other),
        None => None,
    }
}

/// Takes the top value off the stack: the stmts, or `None` where it is something else or there is none.
pub fn take_stmts(stack: &mut Vec<Value>) -> Option<Items<Stmt>>
    ensures { (go : Goes (List Stmt)) → MatchOption result (with_stmts (reverse stack.old.items) go ≡ None) (λ x. with_stmts (reverse stack.old.items) go ≡ go x (reverse stack.new.items)) }
{
    match stack.pop() {
        Some(Value::Stmt(StmtValue::Stmts(x))) => Some(x),
        Some(other) => discard(other),
        None => None,
    }
}

/// Takes the top value off the stack: the case item, or `None` where it is something else or there is none.
pub fn take_case_item(stack: &mut Vec<Value>) -> Option<CaseItem>
    ensures { (go : Goes CaseItem) → MatchOption result (with_case_item (reverse stack.old.items) go ≡ None) (λ x. with_case_item (reverse stack.old.items) go ≡ go x (reverse stack.new.items)) }
{
    match stack.pop() {
        Some(Value::Stmt(StmtValue::CaseItem(x))) => Some(x),
        Some(other) => discard(other),
        None => None,
    }
}

/// Takes the top value off the stack: the case items, or `None` where it is something else or there is none.
pub fn take_case_items(stack: &mut Vec<Value>) -> Option<Items<CaseItem>>
    ensures { (go : Goes (List CaseItem)) → MatchOption result (with_case_items (reverse stack.old.items) go ≡ None) (λ x. with_case_items (reverse stack.old.items) go ≡ go x (reverse stack.new.items)) }
{
    match stack.pop() {
        Some(Value::Stmt(StmtValue::CaseItems(x))) => Some(x),
        Some(other) => discard(other),
        None => None,
    }
}

/// Takes the top value off the stack: the sign, or `None` where it is something else or there is none.
pub fn take_sign(stack: &mut Vec<Value>) -> Option<bool>
    ensures { (go : Goes Bool) → MatchOption result (with_sign (reverse stack.old.items) go ≡ None) (λ x. with_sign (reverse stack.old.items) go ≡ go x (reverse stack.new.items)) }
{
    match stack.pop() {
        Some(Value::Declare(DeclareValue::Sign(x))) => Some(x),
        Some(other) => discard(other),
        None => None,
    }
}

/// Takes the top value off the stack: the net kind, or `None` where it is something else or there is none.
pub fn take_net_kind(stack: &mut Vec<Value>) -> Option<Option<NetKind>>
    ensures { (go : Goes (Option NetKind)) → MatchOption result (with_net_kind (reverse stack.old.items) go ≡ None) (λ x. with_net_kind (reverse stack.old.items) go ≡ go x (reverse stack.new.items)) }
{
    match stack.pop() {
        Some(Value::Declare(DeclareValue::NetKind(x))) => Some(x),
        Some(other) => discard(other),
        None => None,
    }
}

/// Takes the top value off the stack: the parameter range, or `None` where it is something else or there is none.
pub fn take_parameter_range(stack: &mut Vec<Value>) -> Option<Option<ParameterRange>>
    ensures { (go : Goes (Option ParameterRange)) → MatchOption result (with_parameter_range (reverse stack.old.items) go ≡ None) (λ x. with_parameter_range (reverse stack.old.items) go ≡ go x (reverse stack.new.items)) }
{
    match stack.pop() {
        Some(Value::Declare(DeclareValue::ParameterRange(x))) => Some(x),
        Some(other) => discard(other),
        None => None,
    }
}

/// Takes the top value off the stack: the parameter, or `None` where it is something else or there is none.
pub fn take_parameter(stack: &mut Vec<Value>) -> Option<ParameterAssignment>
    ensures { (go : Goes ParameterAssignment) → MatchOption result (with_parameter (reverse stack.old.items) go ≡ None) (λ x. with_parameter (reverse stack.old.items) go ≡ go x (reverse stack.new.items)) }
{
    match stack.pop() {
        Some(Value::Declare(DeclareValue::Parameter(x))) => Some(x),
        Some(other) => discard(other),
        None => None,
    }
}

/// Takes the top value off the stack: the parameters, or `None` where it is something else or there is none.
pub fn take_parameters(stack: &mut Vec<Value>) -> Option<Items<ParameterAssignment>>
    ensures { (go : Goes (List ParameterAssignment)) → MatchOption result (with_parameters (reverse stack.old.items) go ≡ None) (λ x. with_parameters (reverse stack.old.items) go ≡ go x (reverse stack.new.items)) }
{
    match stack.pop() {
        Some(Value::Declare(DeclareValue::Parameters(x))) => Some(x),
        Some(other) => discard(other),
        None => None,
    }
}

/// Takes the top value off the stack: the groups, or `None` where it is something else or there is none.
pub fn take_groups(stack: &mut Vec<Value>) -> Option<Items<ParameterDeclaration>>
    ensures { (go : Goes (List ParameterDeclaration)) → MatchOption result (with_groups (reverse stack.old.items) go ≡ None) (λ x. with_groups (reverse stack.old.items) go ≡ go x (reverse stack.new.items)) }
{
    match stack.pop() {
        Some(Value::Declare(DeclareValue::Groups(x))) => Some(x),
        Some(other) => discard(other),
        None => None,
    }
}

/// Takes the top value off the stack: the names, or `None` where it is something else or there is none.
pub fn take_names(stack: &mut Vec<Value>) -> Option<Items<Identifier>>
    ensures { (go : Goes (List Identifier)) → MatchOption result (with_names (reverse stack.old.items) go ≡ None) (λ x. with_names (reverse stack.old.items) go ≡ go x (reverse stack.new.items)) }
{
    match stack.pop() {
        Some(Value::Names(NamesValue::Names(x))) => Some(x),
        Some(other) => discard(other),
        None => None,
    }
}

/// Takes the top value off the stack: the declared names, or `None` where it is something else or there is none.
pub fn take_declared_names(stack: &mut Vec<Value>) -> Option<Items<Identifier>>
    ensures { (go : Goes (List Identifier)) → MatchOption result (with_declared_names (reverse stack.old.items) go ≡ None) (λ x. with_declared_names (reverse stack.old.items) go ≡ go x (reverse stack.new.items)) }
{
    match stack.pop() {
        Some(Value::Names(NamesValue::DeclaredNames(x))) => Some(x),
        Some(other) => discard(other),
        None => None,
    }
}

/// Takes the top value off the stack: the declarator, or `None` where it is something else or there is none.
pub fn take_declarator(stack: &mut Vec<Value>) -> Option<Declarator>
    ensures { (go : Goes Declarator) → MatchOption result (with_declarator (reverse stack.old.items) go ≡ None) (λ x. with_declarator (reverse stack.old.items) go ≡ go x (reverse stack.new.items)) }
{
    match stack.pop() {
        Some(Value::Names(NamesValue::Declarator(x))) => Some(x),
        Some(other) => discard(other),
        None => None,
    }
}

/// Takes the top value off the stack: the declarators, or `None` where it is something else or there is none.
pub fn take_declarators(stack: &mut Vec<Value>) -> Option<Items<Declarator>>
    ensures { (go : Goes (List Declarator)) → MatchOption result (with_declarators (reverse stack.old.items) go ≡ None) (λ x. with_declarators (reverse stack.old.items) go ≡ go x (reverse stack.new.items)) }
{
    match stack.pop() {
        Some(Value::Names(NamesValue::Declarators(x))) => Some(x),
        Some(other) => discard(other),
        None => None,
    }
}

/// Takes the top value off the stack: the register, or `None` where it is something else or there is none.
pub fn take_register(stack: &mut Vec<Value>) -> Option<Register>
    ensures { (go : Goes Register) → MatchOption result (with_register (reverse stack.old.items) go ≡ None) (λ x. with_register (reverse stack.old.items) go ≡ go x (reverse stack.new.items)) }
{
    match stack.pop() {
        Some(Value::Names(NamesValue::Register(x))) => Some(x),
        Some(other) => discard(other),
        None => None,
    }
}

/// Takes the top value off the stack: the registers, or `None` where it is something else or there is none.
pub fn take_registers(stack: &mut Vec<Value>) -> Option<Items<Register>>
    ensures { (go : Goes (List Register)) → MatchOption result (with_registers (reverse stack.old.items) go ≡ None) (λ x. with_registers (reverse stack.old.items) go ≡ go x (reverse stack.new.items)) }
{
    match stack.pop() {
        Some(Value::Names(NamesValue::Registers(x))) => Some(x),
        Some(other) => discard(other),
        None => None,
    }
}

/// Takes the top value off the stack: the ordered, or `None` where it is something else or there is none.
pub fn take_ordered(stack: &mut Vec<Value>) -> Option<Expr>
    ensures { (go : Goes Expr) → MatchOption result (with_ordered (reverse stack.old.items) go ≡ None) (λ x. with_ordered (reverse stack.old.items) go ≡ go x (reverse stack.new.items)) }
{
    match stack.pop() {
        Some(Value::Connect(ConnectValue::Ordered(x))) => Some(x),
        Some(other) => discard(other),
        None => None,
    }
}

/// Takes the top value off the stack: the ordered values, or `None` where it is something else or there is none.
pub fn take_ordered_values(stack: &mut Vec<Value>) -> Option<Items<Expr>>
    ensures { (go : Goes (List Expr)) → MatchOption result (with_ordered_values (reverse stack.old.items) go ≡ None) (λ x. with_ordered_values (reverse stack.old.items) go ≡ go x (reverse stack.new.items)) }
{
    match stack.pop() {
        Some(Value::Connect(ConnectValue::OrderedValues(x))) => Some(x),
        Some(other) => discard(other),
        None => None,
    }
}

/// Takes the top value off the stack: the named, or `None` where it is something else or there is none.
pub fn take_named(stack: &mut Vec<Value>) -> Option<NamedConnection>
    ensures { (go : Goes NamedConnection) → MatchOption result (with_named (reverse stack.old.items) go ≡ None) (λ x. with_named (reverse stack.old.items) go ≡ go x (reverse stack.new.items)) }
{
    match stack.pop() {
        Some(Value::Connect(ConnectValue::Named(x))) => Some(x),
        Some(other) => discard(other),
        None => None,
    }
}

/// Takes the top value off the stack: the named values, or `None` where it is something else or there is none.
pub fn take_named_values(stack: &mut Vec<Value>) -> Option<Items<NamedConnection>>
    ensures { (go : Goes (List NamedConnection)) → MatchOption result (with_named_values (reverse stack.old.items) go ≡ None) (λ x. with_named_values (reverse stack.old.items) go ≡ go x (reverse stack.new.items)) }
{
    match stack.pop() {
        Some(Value::Connect(ConnectValue::NamedValues(x))) => Some(x),
        Some(other) => discard(other),
        None => None,
    }
}

/// Takes the top value off the stack: the connections, or `None` where it is something else or there is none.
pub fn take_connections(stack: &mut Vec<Value>) -> Option<Connections>
    ensures { (go : Goes Connections) → MatchOption result (with_connections (reverse stack.old.items) go ≡ None) (λ x. with_connections (reverse stack.old.items) go ≡ go x (reverse stack.new.items)) }
{
    match stack.pop() {
        Some(Value::Connect(ConnectValue::Connections(x))) => Some(x),
        Some(other) => discard(other),
        None => None,
    }
}

/// Takes the top value off the stack: the overrides, or `None` where it is something else or there is none.
pub fn take_overrides(stack: &mut Vec<Value>) -> Option<Option<Connections>>
    ensures { (go : Goes (Option Connections)) → MatchOption result (with_overrides (reverse stack.old.items) go ≡ None) (λ x. with_overrides (reverse stack.old.items) go ≡ go x (reverse stack.new.items)) }
{
    match stack.pop() {
        Some(Value::Connect(ConnectValue::Overrides(x))) => Some(x),
        Some(other) => discard(other),
        None => None,
    }
}

/// Takes the top value off the stack: the instance, or `None` where it is something else or there is none.
pub fn take_instance(stack: &mut Vec<Value>) -> Option<Instance>
    ensures { (go : Goes Instance) → MatchOption result (with_instance (reverse stack.old.items) go ≡ None) (λ x. with_instance (reverse stack.old.items) go ≡ go x (reverse stack.new.items)) }
{
    match stack.pop() {
        Some(Value::Part(PartValue::Instance(x))) => Some(x),
        Some(other) => discard(other),
        None => None,
    }
}

/// Takes the top value off the stack: the instances, or `None` where it is something else or there is none.
pub fn take_instances(stack: &mut Vec<Value>) -> Option<Items<Instance>>
    ensures { (go : Goes (List Instance)) → MatchOption result (with_instances (reverse stack.old.items) go ≡ None) (λ x. with_instances (reverse stack.old.items) go ≡ go x (reverse stack.new.items)) }
{
    match stack.pop() {
        Some(Value::Part(PartValue::Instances(x))) => Some(x),
        Some(other) => discard(other),
        None => None,
    }
}

/// Takes the top value off the stack: the net assignment, or `None` where it is something else or there is none.
pub fn take_net_assignment(stack: &mut Vec<Value>) -> Option<NetAssignment>
    ensures { (go : Goes NetAssignment) → MatchOption result (with_net_assignment (reverse stack.old.items) go ≡ None) (λ x. with_net_assignment (reverse stack.old.items) go ≡ go x (reverse stack.new.items)) }
{
    match stack.pop() {
        Some(Value::Part(PartValue::NetAssignment(x))) => Some(x),
        Some(other) => discard(other),
        None => None,
    }
}

/// Takes the top value off the stack: the net assignments, or `None` where it is something else or there is none.
pub fn take_net_assignments(stack: &mut Vec<Value>) -> Option<Items<NetAssignment>>
    ensures { (go : Goes (List NetAssignment)) → MatchOption result (with_net_assignments (reverse stack.old.items) go ≡ None) (λ x. with_net_assignments (reverse stack.old.items) go ≡ go x (reverse stack.new.items)) }
{
    match stack.pop() {
        Some(Value::Part(PartValue::NetAssignments(x))) => Some(x),
        Some(other) => discard(other),
        None => None,
    }
}

/// Takes the top value off the stack: the event, or `None` where it is something else or there is none.
pub fn take_event(stack: &mut Vec<Value>) -> Option<Event>
    ensures { (go : Goes Event) → MatchOption result (with_event (reverse stack.old.items) go ≡ None) (λ x. with_event (reverse stack.old.items) go ≡ go x (reverse stack.new.items)) }
{
    match stack.pop() {
        Some(Value::Part(PartValue::Event(x))) => Some(x),
        Some(other) => discard(other),
        None => None,
    }
}

/// Takes the top value off the stack: the ports, or `None` where it is something else or there is none.
pub fn take_ports(stack: &mut Vec<Value>) -> Option<Items<Port>>
    ensures { (go : Goes (List Port)) → MatchOption result (with_ports (reverse stack.old.items) go ≡ None) (λ x. with_ports (reverse stack.old.items) go ≡ go x (reverse stack.new.items)) }
{
    match stack.pop() {
        Some(Value::Module(ModuleValue::Ports(x))) => Some(x),
        Some(other) => discard(other),
        None => None,
    }
}

/// Takes the top value off the stack: the header, or `None` where it is something else or there is none.
pub fn take_header(stack: &mut Vec<Value>) -> Option<Header>
    ensures { (go : Goes Header) → MatchOption result (with_header (reverse stack.old.items) go ≡ None) (λ x. with_header (reverse stack.old.items) go ≡ go x (reverse stack.new.items)) }
{
    match stack.pop() {
        Some(Value::Module(ModuleValue::Header(x))) => Some(x),
        Some(other) => discard(other),
        None => None,
    }
}

/// Takes the top value off the stack: the item, or `None` where it is something else or there is none.
pub fn take_item(stack: &mut Vec<Value>) -> Option<Item>
    ensures { (go : Goes Item) → MatchOption result (with_item (reverse stack.old.items) go ≡ None) (λ x. with_item (reverse stack.old.items) go ≡ go x (reverse stack.new.items)) }
{
    match stack.pop() {
        Some(Value::Module(ModuleValue::Item(x))) => Some(x),
        Some(other) => discard(other),
        None => None,
    }
}

/// Takes the top value off the stack: the items, or `None` where it is something else or there is none.
pub fn take_items(stack: &mut Vec<Value>) -> Option<Items<Item>>
    ensures { (go : Goes (List Item)) → MatchOption result (with_items (reverse stack.old.items) go ≡ None) (λ x. with_items (reverse stack.old.items) go ≡ go x (reverse stack.new.items)) }
{
    match stack.pop() {
        Some(Value::Module(ModuleValue::Items(x))) => Some(x),
        Some(other) => discard(other),
        None => None,
    }
}

/// Takes the top value off the stack: the module, or `None` where it is something else or there is none.
pub fn take_module(stack: &mut Vec<Value>) -> Option<Module>
    ensures { (go : Goes Module) → MatchOption result (with_module (reverse stack.old.items) go ≡ None) (λ x. with_module (reverse stack.old.items) go ≡ go x (reverse stack.new.items)) }
{
    match stack.pop() {
        Some(Value::Module(ModuleValue::Module(x))) => Some(x),
        Some(other) => discard(other),
        None => None,
    }
}

/// Takes the top value off the stack: the modules, or `None` where it is something else or there is none.
pub fn take_modules(stack: &mut Vec<Value>) -> Option<Items<Module>>
    ensures { (go : Goes (List Module)) → MatchOption result (with_modules (reverse stack.old.items) go ≡ None) (λ x. with_modules (reverse stack.old.items) go ≡ go x (reverse stack.new.items)) }
{
    match stack.pop() {
        Some(Value::Module(ModuleValue::Modules(x))) => Some(x),
        Some(other) => discard(other),
        None => None,
    }
}

/// Takes the top value off the stack: the source, or `None` where it is something else or there is none.
pub fn take_source(stack: &mut Vec<Value>) -> Option<VTree>
    ensures { (go : Goes VTree) → MatchOption result (with_source (reverse stack.old.items) go ≡ None) (λ x. with_source (reverse stack.old.items) go ≡ go x (reverse stack.new.items)) }
{
    match stack.pop() {
        Some(Value::Module(ModuleValue::Source(x))) => Some(x),
        Some(other) => discard(other),
        None => None,
    }
}
