//! The values that lie on the stack while a tree is built, one variant a sort.

ghost use Rattle.std.specs.Prelude.{◌≡◌, ◌∷◌, reverse, IfOk, MatchOption, None, List, Option};
ghost use Rattle.c_stack.specs.Values.{Goes, with_place, with_name, with_declared, with_unary_mark, with_binary_mark, with_assignment_mark, with_step_mark, with_sign, with_type, with_object, with_path, with_expression, with_expressions, with_expression_option, with_initializer, with_initializer_option, with_declarator, with_declarators, with_local, with_simple, with_simple_option, with_for_first, with_label, with_labels, with_labelled, with_group, with_groups, with_statement, with_parts, with_block, with_item, with_items, with_names, with_member, with_members, with_name_option, with_parameter, with_parameters, with_storage, with_function, with_external, with_externals, with_tree};

use c_tree::{
    AssignmentMark, BinaryMark, Block, BlockItem, CTree, Declarator, Expression, External,
    ForFirst, Group, Identifier, Initializer, Label, Local, Member, MemberDeclarator, Object,
    Parameter, Path, ResultType, SignMark, Simple, Statement, StepMark, Storage, TypeName,
    UnaryMark,
};
use sqlite_items::Items;
use src_text::Place;
use std::alloc::AllocError;

/// The labels of a group, and the place of the first one.
#[derive(Drop)]
pub struct Labels {
    pub place: Place,
    pub labels: Items<Label>,
}

/// The result and the name of a function whose parameters are still to come.
#[derive(Drop)]
pub struct FunctionName {
    pub result: ResultType,
    pub name: Identifier,
}

/// What is made of one token.
#[derive(Drop)]
pub enum TokenValue {
    /// A place.
    Place(Place),
    /// An identifier that is used.
    Name(Identifier),
    /// An identifier that is declared.
    Declared(Identifier),
    UnaryMark(UnaryMark),
    BinaryMark(BinaryMark),
    AssignmentMark(AssignmentMark),
    StepMark(StepMark),
    Sign(SignMark),
}

/// Types, expressions and what holds them.
#[derive(Drop)]
pub enum ExpressionValue {
    Type(TypeName),
    Object(Object),
    Path(Path),
    Expression(Expression),
    Expressions(Items<Expression>),
    ExpressionOption(Option<Expression>),
    Initializer(Initializer),
    InitializerOption(Option<Initializer>),
}

/// Declared names.
#[derive(Drop)]
pub enum DeclarationValue {
    Declarator(Declarator),
    Declarators(Items<Declarator>),
    Local(Local),
    /// A declared member.
    Item(MemberDeclarator),
    /// Declared members.
    Items(Items<MemberDeclarator>),
    /// Identifiers that are declared.
    Names(Items<Identifier>),
    NameOption(Option<Identifier>),
}

/// Parts of external declarations.
#[derive(Drop)]
pub enum PartValue {
    Member(Member),
    Members(Items<Member>),
    Parameter(Parameter),
    Parameters(Items<Parameter>),
    Storage(Storage),
    Function(FunctionName),
}

/// Statements and their parts.
#[derive(Drop)]
pub enum StatementValue {
    Simple(Simple),
    SimpleOption(Option<Simple>),
    ForFirst(ForFirst),
    Label(Label),
    Statement(Statement),
    /// The parts of a block.
    Parts(Items<BlockItem>),
    Block(Block),
}

/// Groups of a `switch`.
#[derive(Drop)]
pub enum SwitchValue {
    /// The labels of a group whose statements are still to come.
    Labels(Labels),
    /// A group whose end is still to come.
    Labelled(Group),
    Group(Group),
    Groups(Items<Group>),
}

/// External declarations, and the whole file.
#[derive(Drop)]
pub enum FileValue {
    External(External),
    Externals(Items<External>),
    Tree(CTree),
}

/// A value on the stack.
#[derive(Drop)]
pub enum Value {
    Token(TokenValue),
    Expression(ExpressionValue),
    Declaration(DeclarationValue),
    Part(PartValue),
    Statement(StatementValue),
    Switch(SwitchValue),
    File(FileValue),
}

fn discard<T>(_value: Value) -> Option<T>
    ensures { result ≡ None }
{
    None
}

/// Puts a value on top of the stack.
pub fn put(stack: &mut Vec<Value>, value: Value) -> Result<(), AllocError>
    ensures { IfOk result (λ _. reverse stack.new.items ≡ value ∷ reverse stack.old.items) }
{
    stack.push(value)?;
    Ok(())
}

/// Takes the top value off the stack: the place, or `None` where it is something else or there is none.
pub fn take_place(stack: &mut Vec<Value>) -> Option<Place>
    ensures { (go : Goes Place) → MatchOption result (with_place (reverse stack.old.items) go ≡ None) (λ x. with_place (reverse stack.old.items) go ≡ go x (reverse stack.new.items)) }
{
    match stack.pop() {
        Some(Value::Token(TokenValue::Place(x))) => Some(x),
        Some(other) => discard(other),
        None => None,
    }
}

/// Takes the top value off the stack: the name, or `None` where it is something else or there is none.
pub fn take_name(stack: &mut Vec<Value>) -> Option<Identifier>
    ensures { (go : Goes Identifier) → MatchOption result (with_name (reverse stack.old.items) go ≡ None) (λ x. with_name (reverse stack.old.items) go ≡ go x (reverse stack.new.items)) }
{
    match stack.pop() {
        Some(Value::Token(TokenValue::Name(x))) => Some(x),
        Some(other) => discard(other),
        None => None,
    }
}

/// Takes the top value off the stack: the declared, or `None` where it is something else or there is none.
pub fn take_declared(stack: &mut Vec<Value>) -> Option<Identifier>
    ensures { (go : Goes Identifier) → MatchOption result (with_declared (reverse stack.old.items) go ≡ None) (λ x. with_declared (reverse stack.old.items) go ≡ go x (reverse stack.new.items)) }
{
    match stack.pop() {
        Some(Value::Token(TokenValue::Declared(x))) => Some(x),
        Some(other) => discard(other),
        None => None,
    }
}

/// Takes the top value off the stack: the unary mark, or `None` where it is something else or there is none.
pub fn take_unary_mark(stack: &mut Vec<Value>) -> Option<UnaryMark>
    ensures { (go : Goes UnaryMark) → MatchOption result (with_unary_mark (reverse stack.old.items) go ≡ None) (λ x. with_unary_mark (reverse stack.old.items) go ≡ go x (reverse stack.new.items)) }
{
    match stack.pop() {
        Some(Value::Token(TokenValue::UnaryMark(x))) => Some(x),
        Some(other) => discard(other),
        None => None,
    }
}

/// Takes the top value off the stack: the binary mark, or `None` where it is something else or there is none.
pub fn take_binary_mark(stack: &mut Vec<Value>) -> Option<BinaryMark>
    ensures { (go : Goes BinaryMark) → MatchOption result (with_binary_mark (reverse stack.old.items) go ≡ None) (λ x. with_binary_mark (reverse stack.old.items) go ≡ go x (reverse stack.new.items)) }
{
    match stack.pop() {
        Some(Value::Token(TokenValue::BinaryMark(x))) => Some(x),
        Some(other) => discard(other),
        None => None,
    }
}

/// Takes the top value off the stack: the assignment mark, or `None` where it is something else or there is none.
pub fn take_assignment_mark(stack: &mut Vec<Value>) -> Option<AssignmentMark>
    ensures { (go : Goes AssignmentMark) → MatchOption result (with_assignment_mark (reverse stack.old.items) go ≡ None) (λ x. with_assignment_mark (reverse stack.old.items) go ≡ go x (reverse stack.new.items)) }
{
    match stack.pop() {
        Some(Value::Token(TokenValue::AssignmentMark(x))) => Some(x),
        Some(other) => discard(other),
        None => None,
    }
}

/// Takes the top value off the stack: the step mark, or `None` where it is something else or there is none.
pub fn take_step_mark(stack: &mut Vec<Value>) -> Option<StepMark>
    ensures { (go : Goes StepMark) → MatchOption result (with_step_mark (reverse stack.old.items) go ≡ None) (λ x. with_step_mark (reverse stack.old.items) go ≡ go x (reverse stack.new.items)) }
{
    match stack.pop() {
        Some(Value::Token(TokenValue::StepMark(x))) => Some(x),
        Some(other) => discard(other),
        None => None,
    }
}

/// Takes the top value off the stack: the sign, or `None` where it is something else or there is none.
pub fn take_sign(stack: &mut Vec<Value>) -> Option<SignMark>
    ensures { (go : Goes SignMark) → MatchOption result (with_sign (reverse stack.old.items) go ≡ None) (λ x. with_sign (reverse stack.old.items) go ≡ go x (reverse stack.new.items)) }
{
    match stack.pop() {
        Some(Value::Token(TokenValue::Sign(x))) => Some(x),
        Some(other) => discard(other),
        None => None,
    }
}

/// Takes the top value off the stack: the type, or `None` where it is something else or there is none.
pub fn take_type(stack: &mut Vec<Value>) -> Option<TypeName>
    ensures { (go : Goes TypeName) → MatchOption result (with_type (reverse stack.old.items) go ≡ None) (λ x. with_type (reverse stack.old.items) go ≡ go x (reverse stack.new.items)) }
{
    match stack.pop() {
        Some(Value::Expression(ExpressionValue::Type(x))) => Some(x),
        Some(other) => discard(other),
        None => None,
    }
}

/// Takes the top value off the stack: the object, or `None` where it is something else or there is none.
pub fn take_object(stack: &mut Vec<Value>) -> Option<Object>
    ensures { (go : Goes Object) → MatchOption result (with_object (reverse stack.old.items) go ≡ None) (λ x. with_object (reverse stack.old.items) go ≡ go x (reverse stack.new.items)) }
{
    match stack.pop() {
        Some(Value::Expression(ExpressionValue::Object(x))) => Some(x),
        Some(other) => discard(other),
        None => None,
    }
}

/// Takes the top value off the stack: the path, or `None` where it is something else or there is none.
pub fn take_path(stack: &mut Vec<Value>) -> Option<Path>
    ensures { (go : Goes Path) → MatchOption result (with_path (reverse stack.old.items) go ≡ None) (λ x. with_path (reverse stack.old.items) go ≡ go x (reverse stack.new.items)) }
{
    match stack.pop() {
        Some(Value::Expression(ExpressionValue::Path(x))) => Some(x),
        Some(other) => discard(other),
        None => None,
    }
}

/// Takes the top value off the stack: the expression, or `None` where it is something else or there is none.
pub fn take_expression(stack: &mut Vec<Value>) -> Option<Expression>
    ensures { (go : Goes Expression) → MatchOption result (with_expression (reverse stack.old.items) go ≡ None) (λ x. with_expression (reverse stack.old.items) go ≡ go x (reverse stack.new.items)) }
{
    match stack.pop() {
        Some(Value::Expression(ExpressionValue::Expression(x))) => Some(x),
        Some(other) => discard(other),
        None => None,
    }
}

/// Takes the top value off the stack: the expressions, or `None` where it is something else or there is none.
pub fn take_expressions(stack: &mut Vec<Value>) -> Option<Items<Expression>>
    ensures { (go : Goes (List Expression)) → MatchOption result (with_expressions (reverse stack.old.items) go ≡ None) (λ x. with_expressions (reverse stack.old.items) go ≡ go x (reverse stack.new.items)) }
{
    match stack.pop() {
        Some(Value::Expression(ExpressionValue::Expressions(x))) => Some(x),
        Some(other) => discard(other),
        None => None,
    }
}

/// Takes the top value off the stack: the expression option, or `None` where it is something else or there is none.
pub fn take_expression_option(stack: &mut Vec<Value>) -> Option<Option<Expression>>
    ensures { (go : Goes (Option Expression)) → MatchOption result (with_expression_option (reverse stack.old.items) go ≡ None) (λ x. with_expression_option (reverse stack.old.items) go ≡ go x (reverse stack.new.items)) }
{
    match stack.pop() {
        Some(Value::Expression(ExpressionValue::ExpressionOption(x))) => Some(x),
        Some(other) => discard(other),
        None => None,
    }
}

/// Takes the top value off the stack: the initializer, or `None` where it is something else or there is none.
pub fn take_initializer(stack: &mut Vec<Value>) -> Option<Initializer>
    ensures { (go : Goes Initializer) → MatchOption result (with_initializer (reverse stack.old.items) go ≡ None) (λ x. with_initializer (reverse stack.old.items) go ≡ go x (reverse stack.new.items)) }
{
    match stack.pop() {
        Some(Value::Expression(ExpressionValue::Initializer(x))) => Some(x),
        Some(other) => discard(other),
        None => None,
    }
}

/// Takes the top value off the stack: the initializer option, or `None` where it is something else or there is none.
pub fn take_initializer_option(stack: &mut Vec<Value>) -> Option<Option<Initializer>>
    ensures { (go : Goes (Option Initializer)) → MatchOption result (with_initializer_option (reverse stack.old.items) go ≡ None) (λ x. with_initializer_option (reverse stack.old.items) go ≡ go x (reverse stack.new.items)) }
{
    match stack.pop() {
        Some(Value::Expression(ExpressionValue::InitializerOption(x))) => Some(x),
        Some(other) => discard(other),
        None => None,
    }
}

/// Takes the top value off the stack: the declarator, or `None` where it is something else or there is none.
pub fn take_declarator(stack: &mut Vec<Value>) -> Option<Declarator>
    ensures { (go : Goes Declarator) → MatchOption result (with_declarator (reverse stack.old.items) go ≡ None) (λ x. with_declarator (reverse stack.old.items) go ≡ go x (reverse stack.new.items)) }
{
    match stack.pop() {
        Some(Value::Declaration(DeclarationValue::Declarator(x))) => Some(x),
        Some(other) => discard(other),
        None => None,
    }
}

/// Takes the top value off the stack: the declarators, or `None` where it is something else or there is none.
pub fn take_declarators(stack: &mut Vec<Value>) -> Option<Items<Declarator>>
    ensures { (go : Goes (List Declarator)) → MatchOption result (with_declarators (reverse stack.old.items) go ≡ None) (λ x. with_declarators (reverse stack.old.items) go ≡ go x (reverse stack.new.items)) }
{
    match stack.pop() {
        Some(Value::Declaration(DeclarationValue::Declarators(x))) => Some(x),
        Some(other) => discard(other),
        None => None,
    }
}

/// Takes the top value off the stack: the local, or `None` where it is something else or there is none.
pub fn take_local(stack: &mut Vec<Value>) -> Option<Local>
    ensures { (go : Goes Local) → MatchOption result (with_local (reverse stack.old.items) go ≡ None) (λ x. with_local (reverse stack.old.items) go ≡ go x (reverse stack.new.items)) }
{
    match stack.pop() {
        Some(Value::Declaration(DeclarationValue::Local(x))) => Some(x),
        Some(other) => discard(other),
        None => None,
    }
}

/// Takes the top value off the stack: the simple, or `None` where it is something else or there is none.
pub fn take_simple(stack: &mut Vec<Value>) -> Option<Simple>
    ensures { (go : Goes Simple) → MatchOption result (with_simple (reverse stack.old.items) go ≡ None) (λ x. with_simple (reverse stack.old.items) go ≡ go x (reverse stack.new.items)) }
{
    match stack.pop() {
        Some(Value::Statement(StatementValue::Simple(x))) => Some(x),
        Some(other) => discard(other),
        None => None,
    }
}

/// Takes the top value off the stack: the simple option, or `None` where it is something else or there is none.
pub fn take_simple_option(stack: &mut Vec<Value>) -> Option<Option<Simple>>
    ensures { (go : Goes (Option Simple)) → MatchOption result (with_simple_option (reverse stack.old.items) go ≡ None) (λ x. with_simple_option (reverse stack.old.items) go ≡ go x (reverse stack.new.items)) }
{
    match stack.pop() {
        Some(Value::Statement(StatementValue::SimpleOption(x))) => Some(x),
        Some(other) => discard(other),
        None => None,
    }
}

/// Takes the top value off the stack: the for first, or `None` where it is something else or there is none.
pub fn take_for_first(stack: &mut Vec<Value>) -> Option<ForFirst>
    ensures { (go : Goes ForFirst) → MatchOption result (with_for_first (reverse stack.old.items) go ≡ None) (λ x. with_for_first (reverse stack.old.items) go ≡ go x (reverse stack.new.items)) }
{
    match stack.pop() {
        Some(Value::Statement(StatementValue::ForFirst(x))) => Some(x),
        Some(other) => discard(other),
        None => None,
    }
}

/// Takes the top value off the stack: the label, or `None` where it is something else or there is none.
pub fn take_label(stack: &mut Vec<Value>) -> Option<Label>
    ensures { (go : Goes Label) → MatchOption result (with_label (reverse stack.old.items) go ≡ None) (λ x. with_label (reverse stack.old.items) go ≡ go x (reverse stack.new.items)) }
{
    match stack.pop() {
        Some(Value::Statement(StatementValue::Label(x))) => Some(x),
        Some(other) => discard(other),
        None => None,
    }
}

/// Takes the top value off the stack: the labels, or `None` where it is something else or there is none.
pub fn take_labels(stack: &mut Vec<Value>) -> Option<Labels>
    ensures { (go : Goes Labels) → MatchOption result (with_labels (reverse stack.old.items) go ≡ None) (λ x. with_labels (reverse stack.old.items) go ≡ go x (reverse stack.new.items)) }
{
    match stack.pop() {
        Some(Value::Switch(SwitchValue::Labels(x))) => Some(x),
        Some(other) => discard(other),
        None => None,
    }
}

/// Takes the top value off the stack: the labelled, or `None` where it is something else or there is none.
pub fn take_labelled(stack: &mut Vec<Value>) -> Option<Group>
    ensures { (go : Goes Group) → MatchOption result (with_labelled (reverse stack.old.items) go ≡ None) (λ x. with_labelled (reverse stack.old.items) go ≡ go x (reverse stack.new.items)) }
{
    match stack.pop() {
        Some(Value::Switch(SwitchValue::Labelled(x))) => Some(x),
        Some(other) => discard(other),
        None => None,
    }
}

/// Takes the top value off the stack: the group, or `None` where it is something else or there is none.
pub fn take_group(stack: &mut Vec<Value>) -> Option<Group>
    ensures { (go : Goes Group) → MatchOption result (with_group (reverse stack.old.items) go ≡ None) (λ x. with_group (reverse stack.old.items) go ≡ go x (reverse stack.new.items)) }
{
    match stack.pop() {
        Some(Value::Switch(SwitchValue::Group(x))) => Some(x),
        Some(other) => discard(other),
        None => None,
    }
}

/// Takes the top value off the stack: the groups, or `None` where it is something else or there is none.
pub fn take_groups(stack: &mut Vec<Value>) -> Option<Items<Group>>
    ensures { (go : Goes (List Group)) → MatchOption result (with_groups (reverse stack.old.items) go ≡ None) (λ x. with_groups (reverse stack.old.items) go ≡ go x (reverse stack.new.items)) }
{
    match stack.pop() {
        Some(Value::Switch(SwitchValue::Groups(x))) => Some(x),
        Some(other) => discard(other),
        None => None,
    }
}

/// Takes the top value off the stack: the statement, or `None` where it is something else or there is none.
pub fn take_statement(stack: &mut Vec<Value>) -> Option<Statement>
    ensures { (go : Goes Statement) → MatchOption result (with_statement (reverse stack.old.items) go ≡ None) (λ x. with_statement (reverse stack.old.items) go ≡ go x (reverse stack.new.items)) }
{
    match stack.pop() {
        Some(Value::Statement(StatementValue::Statement(x))) => Some(x),
        Some(other) => discard(other),
        None => None,
    }
}

/// Takes the top value off the stack: the parts, or `None` where it is something else or there is none.
pub fn take_parts(stack: &mut Vec<Value>) -> Option<Items<BlockItem>>
    ensures { (go : Goes (List BlockItem)) → MatchOption result (with_parts (reverse stack.old.items) go ≡ None) (λ x. with_parts (reverse stack.old.items) go ≡ go x (reverse stack.new.items)) }
{
    match stack.pop() {
        Some(Value::Statement(StatementValue::Parts(x))) => Some(x),
        Some(other) => discard(other),
        None => None,
    }
}

/// Takes the top value off the stack: the block, or `None` where it is something else or there is none.
pub fn take_block(stack: &mut Vec<Value>) -> Option<Block>
    ensures { (go : Goes Block) → MatchOption result (with_block (reverse stack.old.items) go ≡ None) (λ x. with_block (reverse stack.old.items) go ≡ go x (reverse stack.new.items)) }
{
    match stack.pop() {
        Some(Value::Statement(StatementValue::Block(x))) => Some(x),
        Some(other) => discard(other),
        None => None,
    }
}

/// Takes the top value off the stack: the item, or `None` where it is something else or there is none.
pub fn take_item(stack: &mut Vec<Value>) -> Option<MemberDeclarator>
    ensures { (go : Goes MemberDeclarator) → MatchOption result (with_item (reverse stack.old.items) go ≡ None) (λ x. with_item (reverse stack.old.items) go ≡ go x (reverse stack.new.items)) }
{
    match stack.pop() {
        Some(Value::Declaration(DeclarationValue::Item(x))) => Some(x),
        Some(other) => discard(other),
        None => None,
    }
}

/// Takes the top value off the stack: the items, or `None` where it is something else or there is none.
pub fn take_items(stack: &mut Vec<Value>) -> Option<Items<MemberDeclarator>>
    ensures { (go : Goes (List MemberDeclarator)) → MatchOption result (with_items (reverse stack.old.items) go ≡ None) (λ x. with_items (reverse stack.old.items) go ≡ go x (reverse stack.new.items)) }
{
    match stack.pop() {
        Some(Value::Declaration(DeclarationValue::Items(x))) => Some(x),
        Some(other) => discard(other),
        None => None,
    }
}

/// Takes the top value off the stack: the names, or `None` where it is something else or there is none.
pub fn take_names(stack: &mut Vec<Value>) -> Option<Items<Identifier>>
    ensures { (go : Goes (List Identifier)) → MatchOption result (with_names (reverse stack.old.items) go ≡ None) (λ x. with_names (reverse stack.old.items) go ≡ go x (reverse stack.new.items)) }
{
    match stack.pop() {
        Some(Value::Declaration(DeclarationValue::Names(x))) => Some(x),
        Some(other) => discard(other),
        None => None,
    }
}

/// Takes the top value off the stack: the member, or `None` where it is something else or there is none.
pub fn take_member(stack: &mut Vec<Value>) -> Option<Member>
    ensures { (go : Goes Member) → MatchOption result (with_member (reverse stack.old.items) go ≡ None) (λ x. with_member (reverse stack.old.items) go ≡ go x (reverse stack.new.items)) }
{
    match stack.pop() {
        Some(Value::Part(PartValue::Member(x))) => Some(x),
        Some(other) => discard(other),
        None => None,
    }
}

/// Takes the top value off the stack: the members, or `None` where it is something else or there is none.
pub fn take_members(stack: &mut Vec<Value>) -> Option<Items<Member>>
    ensures { (go : Goes (List Member)) → MatchOption result (with_members (reverse stack.old.items) go ≡ None) (λ x. with_members (reverse stack.old.items) go ≡ go x (reverse stack.new.items)) }
{
    match stack.pop() {
        Some(Value::Part(PartValue::Members(x))) => Some(x),
        Some(other) => discard(other),
        None => None,
    }
}

/// Takes the top value off the stack: the name option, or `None` where it is something else or there is none.
pub fn take_name_option(stack: &mut Vec<Value>) -> Option<Option<Identifier>>
    ensures { (go : Goes (Option Identifier)) → MatchOption result (with_name_option (reverse stack.old.items) go ≡ None) (λ x. with_name_option (reverse stack.old.items) go ≡ go x (reverse stack.new.items)) }
{
    match stack.pop() {
        Some(Value::Declaration(DeclarationValue::NameOption(x))) => Some(x),
        Some(other) => discard(other),
        None => None,
    }
}

/// Takes the top value off the stack: the parameter, or `None` where it is something else or there is none.
pub fn take_parameter(stack: &mut Vec<Value>) -> Option<Parameter>
    ensures { (go : Goes Parameter) → MatchOption result (with_parameter (reverse stack.old.items) go ≡ None) (λ x. with_parameter (reverse stack.old.items) go ≡ go x (reverse stack.new.items)) }
{
    match stack.pop() {
        Some(Value::Part(PartValue::Parameter(x))) => Some(x),
        Some(other) => discard(other),
        None => None,
    }
}

/// Takes the top value off the stack: the parameters, or `None` where it is something else or there is none.
pub fn take_parameters(stack: &mut Vec<Value>) -> Option<Items<Parameter>>
    ensures { (go : Goes (List Parameter)) → MatchOption result (with_parameters (reverse stack.old.items) go ≡ None) (λ x. with_parameters (reverse stack.old.items) go ≡ go x (reverse stack.new.items)) }
{
    match stack.pop() {
        Some(Value::Part(PartValue::Parameters(x))) => Some(x),
        Some(other) => discard(other),
        None => None,
    }
}

/// Takes the top value off the stack: the storage, or `None` where it is something else or there is none.
pub fn take_storage(stack: &mut Vec<Value>) -> Option<Storage>
    ensures { (go : Goes Storage) → MatchOption result (with_storage (reverse stack.old.items) go ≡ None) (λ x. with_storage (reverse stack.old.items) go ≡ go x (reverse stack.new.items)) }
{
    match stack.pop() {
        Some(Value::Part(PartValue::Storage(x))) => Some(x),
        Some(other) => discard(other),
        None => None,
    }
}

/// Takes the top value off the stack: the function, or `None` where it is something else or there is none.
pub fn take_function(stack: &mut Vec<Value>) -> Option<FunctionName>
    ensures { (go : Goes FunctionName) → MatchOption result (with_function (reverse stack.old.items) go ≡ None) (λ x. with_function (reverse stack.old.items) go ≡ go x (reverse stack.new.items)) }
{
    match stack.pop() {
        Some(Value::Part(PartValue::Function(x))) => Some(x),
        Some(other) => discard(other),
        None => None,
    }
}

/// Takes the top value off the stack: the external, or `None` where it is something else or there is none.
pub fn take_external(stack: &mut Vec<Value>) -> Option<External>
    ensures { (go : Goes External) → MatchOption result (with_external (reverse stack.old.items) go ≡ None) (λ x. with_external (reverse stack.old.items) go ≡ go x (reverse stack.new.items)) }
{
    match stack.pop() {
        Some(Value::File(FileValue::External(x))) => Some(x),
        Some(other) => discard(other),
        None => None,
    }
}

/// Takes the top value off the stack: the externals, or `None` where it is something else or there is none.
pub fn take_externals(stack: &mut Vec<Value>) -> Option<Items<External>>
    ensures { (go : Goes (List External)) → MatchOption result (with_externals (reverse stack.old.items) go ≡ None) (λ x. with_externals (reverse stack.old.items) go ≡ go x (reverse stack.new.items)) }
{
    match stack.pop() {
        Some(Value::File(FileValue::Externals(x))) => Some(x),
        Some(other) => discard(other),
        None => None,
    }
}

/// Takes the top value off the stack: the tree, or `None` where it is something else or there is none.
pub fn take_tree(stack: &mut Vec<Value>) -> Option<CTree>
    ensures { (go : Goes CTree) → MatchOption result (with_tree (reverse stack.old.items) go ≡ None) (λ x. with_tree (reverse stack.old.items) go ≡ go x (reverse stack.new.items)) }
{
    match stack.pop() {
        Some(Value::File(FileValue::Tree(x))) => Some(x),
        Some(other) => discard(other),
        None => None,
    }
}
