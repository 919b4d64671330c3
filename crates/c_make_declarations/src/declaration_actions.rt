//! Actions of declarations (ISO C99, 6.7).

ghost use Rattle.std.specs.Prelude.{IfOk, reverse};
ghost use Rattle.c_stack.specs.Values.{Fits};
ghost use Rattle.c_actions.specs.DeclarationActions.{after_declaration_action};
ghost use Rattle.c_actions.specs.declared.actions.DeclarationAction.TheVariants as declaration_action;

use c_stack::{
    DeclarationValue, ExpressionValue, PartValue, Value, put, take_declarator, take_declarators,
    take_declared, take_expression, take_expressions, take_initializer, take_item, take_items,
    take_member, take_members, take_name, take_name_option, take_names, take_parameter,
    take_parameters, take_place, take_sign, take_type,
};
use c_tree::{
    Call, Declarator, Initializer, IntegerType, Local, Member, MemberDeclarator, Parameter,
    TypeName,
};
use sqlite_items::Items;
use stack_parts::{all_three, all_two};
use std::alloc::{AllocError, Global};

/// `Type = [Sign] "char"`
pub fn make_char_type(stack: &mut Vec<Value>) -> Result<bool, AllocError>
    ensures { IfOk result (λ fits. Fits fits (reverse stack.new.items) (after_declaration_action declaration_action.CharType (reverse stack.old.items))) }
{
    let Some(mark) = take_sign(stack) else {
        return Ok(false);
    };
    put(
        stack,
        Value::Expression(ExpressionValue::Type(TypeName {
            place: mark.place,
            integer: IntegerType::Char(mark.sign),
        })),
    )?;
    Ok(true)
}

/// `Type = [Sign] "short" ["int"]`
pub fn make_short_type(stack: &mut Vec<Value>) -> Result<bool, AllocError>
    ensures { IfOk result (λ fits. Fits fits (reverse stack.new.items) (after_declaration_action declaration_action.ShortType (reverse stack.old.items))) }
{
    let Some(mark) = take_sign(stack) else {
        return Ok(false);
    };
    put(
        stack,
        Value::Expression(ExpressionValue::Type(TypeName {
            place: mark.place,
            integer: IntegerType::Short(mark.sign),
        })),
    )?;
    Ok(true)
}

/// `Type = [Sign] "int" | Sign`
pub fn make_int_type(stack: &mut Vec<Value>) -> Result<bool, AllocError>
    ensures { IfOk result (λ fits. Fits fits (reverse stack.new.items) (after_declaration_action declaration_action.IntType (reverse stack.old.items))) }
{
    let Some(mark) = take_sign(stack) else {
        return Ok(false);
    };
    put(
        stack,
        Value::Expression(ExpressionValue::Type(TypeName {
            place: mark.place,
            integer: IntegerType::Int(mark.sign),
        })),
    )?;
    Ok(true)
}

/// `Type = [Sign] "long" ["long"] ["int"]`
pub fn make_long_type(stack: &mut Vec<Value>) -> Result<bool, AllocError>
    ensures { IfOk result (λ fits. Fits fits (reverse stack.new.items) (after_declaration_action declaration_action.LongType (reverse stack.old.items))) }
{
    let Some(mark) = take_sign(stack) else {
        return Ok(false);
    };
    put(
        stack,
        Value::Expression(ExpressionValue::Type(TypeName {
            place: mark.place,
            integer: IntegerType::Long(mark.sign),
        })),
    )?;
    Ok(true)
}

/// `Init = Expression`
pub fn make_value(stack: &mut Vec<Value>) -> Result<bool, AllocError>
    ensures { IfOk result (λ fits. Fits fits (reverse stack.new.items) (after_declaration_action declaration_action.Value (reverse stack.old.items))) }
{
    let Some(expression) = take_expression(stack) else {
        return Ok(false);
    };
    put(
        stack,
        Value::Expression(ExpressionValue::Initializer(Initializer::Value(expression))),
    )?;
    Ok(true)
}

/// `Init = Call`
pub fn make_call_value(stack: &mut Vec<Value>) -> Result<bool, AllocError>
    ensures { IfOk result (λ fits. Fits fits (reverse stack.new.items) (after_declaration_action declaration_action.CallValue (reverse stack.old.items))) }
{
    let arguments = take_expressions(stack);
    let name = take_name(stack);
    let Some((arguments, name)) = all_two(arguments, name) else {
        return Ok(false);
    };
    put(
        stack,
        Value::Expression(ExpressionValue::Initializer(Initializer::Called(Call {
            name,
            arguments,
        }))),
    )?;
    Ok(true)
}

/// No initializer.
pub fn make_no_initializer(stack: &mut Vec<Value>) -> Result<bool, AllocError>
    ensures { IfOk result (λ fits. Fits fits (reverse stack.new.items) (after_declaration_action declaration_action.NoInitializer (reverse stack.old.items))) }
{
    put(
        stack,
        Value::Expression(ExpressionValue::InitializerOption(None)),
    )?;
    Ok(true)
}

/// An initializer where there may be none.
pub fn make_some_initializer(stack: &mut Vec<Value>) -> Result<bool, AllocError>
    ensures { IfOk result (λ fits. Fits fits (reverse stack.new.items) (after_declaration_action declaration_action.SomeInitializer (reverse stack.old.items))) }
{
    let Some(given) = take_initializer(stack) else {
        return Ok(false);
    };
    put(
        stack,
        Value::Expression(ExpressionValue::InitializerOption(Some(given))),
    )?;
    Ok(true)
}

/// `Decl = ID`
pub fn make_plain_declarator(stack: &mut Vec<Value>) -> Result<bool, AllocError>
    ensures { IfOk result (λ fits. Fits fits (reverse stack.new.items) (after_declaration_action declaration_action.PlainDeclarator (reverse stack.old.items))) }
{
    let Some(name) = take_name(stack) else {
        return Ok(false);
    };
    put(
        stack,
        Value::Declaration(DeclarationValue::Declarator(Declarator::Plain(name))),
    )?;
    Ok(true)
}

/// `Decl = ID "=" Init`
pub fn make_initialized(stack: &mut Vec<Value>) -> Result<bool, AllocError>
    ensures { IfOk result (λ fits. Fits fits (reverse stack.new.items) (after_declaration_action declaration_action.Initialized (reverse stack.old.items))) }
{
    let given = take_initializer(stack);
    let name = take_name(stack);
    let Some((given, name)) = all_two(given, name) else {
        return Ok(false);
    };
    put(
        stack,
        Value::Declaration(DeclarationValue::Declarator(Declarator::Initialized(name, given))),
    )?;
    Ok(true)
}

/// `Decl = ID "[" Expression "]"`
pub fn make_array_declarator(stack: &mut Vec<Value>) -> Result<bool, AllocError>
    ensures { IfOk result (λ fits. Fits fits (reverse stack.new.items) (after_declaration_action declaration_action.ArrayDeclarator (reverse stack.old.items))) }
{
    let len = take_expression(stack);
    let name = take_name(stack);
    let Some((len, name)) = all_two(len, name) else {
        return Ok(false);
    };
    put(
        stack,
        Value::Declaration(DeclarationValue::Declarator(Declarator::Array(name, len))),
    )?;
    Ok(true)
}

/// `Decl = ID "[" Expression "]" "=" "{" Expression { "," Expression } [ "," ] "}"`
pub fn make_initialized_array(stack: &mut Vec<Value>) -> Result<bool, AllocError>
    ensures { IfOk result (λ fits. Fits fits (reverse stack.new.items) (after_declaration_action declaration_action.InitializedArray (reverse stack.old.items))) }
{
    let elements = take_expressions(stack);
    let len = take_expression(stack);
    let name = take_name(stack);
    let Some((elements, len, name)) = all_three(elements, len, name) else {
        return Ok(false);
    };
    put(
        stack,
        Value::Declaration(DeclarationValue::Declarator(Declarator::InitializedArray(
            name, len, elements,
        ))),
    )?;
    Ok(true)
}

/// The first of several declared names.
pub fn make_one_declarator(alloc: Global, stack: &mut Vec<Value>) -> Result<bool, AllocError>
    ensures { IfOk result (λ fits. Fits fits (reverse stack.new.items) (after_declaration_action declaration_action.OneDeclarator (reverse stack.old.items))) }
{
    let Some(declarator_made) = take_declarator(stack) else {
        return Ok(false);
    };
    put(
        stack,
        Value::Declaration(DeclarationValue::Declarators(Items::from_vec(vec![in alloc;
            declarator_made,
        ]?))),
    )?;
    Ok(true)
}

/// One more declared name.
pub fn make_add_declarator(stack: &mut Vec<Value>) -> Result<bool, AllocError>
    ensures { IfOk result (λ fits. Fits fits (reverse stack.new.items) (after_declaration_action declaration_action.AddDeclarator (reverse stack.old.items))) }
{
    let declarator_made = take_declarator(stack);
    let declarators = take_declarators(stack);
    let Some((declarator_made, mut declarators)) = all_two(declarator_made, declarators) else {
        return Ok(false);
    };
    declarators.push(declarator_made)?;
    put(
        stack,
        Value::Declaration(DeclarationValue::Declarators(declarators)),
    )?;
    Ok(true)
}

/// `Local = Type Decl { "," Decl } ";"`
pub fn make_local(stack: &mut Vec<Value>) -> Result<bool, AllocError>
    ensures { IfOk result (λ fits. Fits fits (reverse stack.new.items) (after_declaration_action declaration_action.Local (reverse stack.old.items))) }
{
    let declarators = take_declarators(stack);
    let type_name = take_type(stack);
    let Some((declarators, type_name)) = all_two(declarators, type_name) else {
        return Ok(false);
    };
    put(
        stack,
        Value::Declaration(DeclarationValue::Local(Local {
            constant: None,
            type_name,
            declarators,
        })),
    )?;
    Ok(true)
}

/// `Local = "const" Type Decl { "," Decl } ";"`
pub fn make_const_local(stack: &mut Vec<Value>) -> Result<bool, AllocError>
    ensures { IfOk result (λ fits. Fits fits (reverse stack.new.items) (after_declaration_action declaration_action.ConstLocal (reverse stack.old.items))) }
{
    let declarators = take_declarators(stack);
    let type_name = take_type(stack);
    let place = take_place(stack);
    let Some((declarators, type_name, place)) = all_three(declarators, type_name, place) else {
        return Ok(false);
    };
    put(
        stack,
        Value::Declaration(DeclarationValue::Local(Local {
            constant: Some(place),
            type_name,
            declarators,
        })),
    )?;
    Ok(true)
}

/// `Item = ID`
pub fn make_plain_item(stack: &mut Vec<Value>) -> Result<bool, AllocError>
    ensures { IfOk result (λ fits. Fits fits (reverse stack.new.items) (after_declaration_action declaration_action.PlainItem (reverse stack.old.items))) }
{
    let Some(name) = take_name(stack) else {
        return Ok(false);
    };
    put(
        stack,
        Value::Declaration(DeclarationValue::Item(MemberDeclarator::Plain(name))),
    )?;
    Ok(true)
}

/// `Item = ID "[" Expression "]"`
pub fn make_array_item(stack: &mut Vec<Value>) -> Result<bool, AllocError>
    ensures { IfOk result (λ fits. Fits fits (reverse stack.new.items) (after_declaration_action declaration_action.ArrayItem (reverse stack.old.items))) }
{
    let len = take_expression(stack);
    let name = take_name(stack);
    let Some((len, name)) = all_two(len, name) else {
        return Ok(false);
    };
    put(
        stack,
        Value::Declaration(DeclarationValue::Item(MemberDeclarator::Array(name, len))),
    )?;
    Ok(true)
}

/// The first of several items.
pub fn make_one_item(alloc: Global, stack: &mut Vec<Value>) -> Result<bool, AllocError>
    ensures { IfOk result (λ fits. Fits fits (reverse stack.new.items) (after_declaration_action declaration_action.OneItem (reverse stack.old.items))) }
{
    let Some(item) = take_item(stack) else {
        return Ok(false);
    };
    put(
        stack,
        Value::Declaration(DeclarationValue::Items(Items::from_vec(vec![in alloc; item]?))),
    )?;
    Ok(true)
}

/// One more item.
pub fn make_add_item(stack: &mut Vec<Value>) -> Result<bool, AllocError>
    ensures { IfOk result (λ fits. Fits fits (reverse stack.new.items) (after_declaration_action declaration_action.AddItem (reverse stack.old.items))) }
{
    let item = take_item(stack);
    let items = take_items(stack);
    let Some((item, mut items)) = all_two(item, items) else {
        return Ok(false);
    };
    items.push(item)?;
    put(stack, Value::Declaration(DeclarationValue::Items(items)))?;
    Ok(true)
}

/// The first of several declared names.
pub fn make_one_name(alloc: Global, stack: &mut Vec<Value>) -> Result<bool, AllocError>
    ensures { IfOk result (λ fits. Fits fits (reverse stack.new.items) (after_declaration_action declaration_action.OneName (reverse stack.old.items))) }
{
    let Some(name) = take_declared(stack) else {
        return Ok(false);
    };
    put(
        stack,
        Value::Declaration(DeclarationValue::Names(Items::from_vec(vec![in alloc; name]?))),
    )?;
    Ok(true)
}

/// One more declared name.
pub fn make_add_name(stack: &mut Vec<Value>) -> Result<bool, AllocError>
    ensures { IfOk result (λ fits. Fits fits (reverse stack.new.items) (after_declaration_action declaration_action.AddName (reverse stack.old.items))) }
{
    let name = take_declared(stack);
    let names = take_names(stack);
    let Some((name, mut names)) = all_two(name, names) else {
        return Ok(false);
    };
    names.push(name)?;
    put(stack, Value::Declaration(DeclarationValue::Names(names)))?;
    Ok(true)
}

/// `Member = Type Item { "," Item } ";"`
pub fn make_integer_members(stack: &mut Vec<Value>) -> Result<bool, AllocError>
    ensures { IfOk result (λ fits. Fits fits (reverse stack.new.items) (after_declaration_action declaration_action.IntegerMembers (reverse stack.old.items))) }
{
    let items = take_items(stack);
    let type_name = take_type(stack);
    let Some((items, type_name)) = all_two(items, type_name) else {
        return Ok(false);
    };
    put(
        stack,
        Value::Part(PartValue::Member(Member::Integers(type_name, items))),
    )?;
    Ok(true)
}

/// `Member = "struct" ID ID { "," ID } ";"`
pub fn make_struct_members(stack: &mut Vec<Value>) -> Result<bool, AllocError>
    ensures { IfOk result (λ fits. Fits fits (reverse stack.new.items) (after_declaration_action declaration_action.StructMembers (reverse stack.old.items))) }
{
    let names = take_names(stack);
    let tag = take_name(stack);
    let place = take_place(stack);
    let Some((names, tag, place)) = all_three(names, tag, place) else {
        return Ok(false);
    };
    put(
        stack,
        Value::Part(PartValue::Member(Member::Structs(place, tag, names))),
    )?;
    Ok(true)
}

/// The first of several members.
pub fn make_one_member(alloc: Global, stack: &mut Vec<Value>) -> Result<bool, AllocError>
    ensures { IfOk result (λ fits. Fits fits (reverse stack.new.items) (after_declaration_action declaration_action.OneMember (reverse stack.old.items))) }
{
    let Some(member_made) = take_member(stack) else {
        return Ok(false);
    };
    put(
        stack,
        Value::Part(PartValue::Members(Items::from_vec(vec![in alloc; member_made]?))),
    )?;
    Ok(true)
}

/// One more member.
pub fn make_add_member(stack: &mut Vec<Value>) -> Result<bool, AllocError>
    ensures { IfOk result (λ fits. Fits fits (reverse stack.new.items) (after_declaration_action declaration_action.AddMember (reverse stack.old.items))) }
{
    let member_made = take_member(stack);
    let members = take_members(stack);
    let Some((member_made, mut members)) = all_two(member_made, members) else {
        return Ok(false);
    };
    members.push(member_made)?;
    put(stack, Value::Part(PartValue::Members(members)))?;
    Ok(true)
}

/// No name.
pub fn make_no_name(stack: &mut Vec<Value>) -> Result<bool, AllocError>
    ensures { IfOk result (λ fits. Fits fits (reverse stack.new.items) (after_declaration_action declaration_action.NoName (reverse stack.old.items))) }
{
    put(
        stack,
        Value::Declaration(DeclarationValue::NameOption(None)),
    )?;
    Ok(true)
}

/// A name where there may be none.
pub fn make_some_name(stack: &mut Vec<Value>) -> Result<bool, AllocError>
    ensures { IfOk result (λ fits. Fits fits (reverse stack.new.items) (after_declaration_action declaration_action.SomeName (reverse stack.old.items))) }
{
    let Some(name) = take_declared(stack) else {
        return Ok(false);
    };
    put(
        stack,
        Value::Declaration(DeclarationValue::NameOption(Some(name))),
    )?;
    Ok(true)
}

/// `Param = Type [ ID ]`
pub fn make_parameter(stack: &mut Vec<Value>) -> Result<bool, AllocError>
    ensures { IfOk result (λ fits. Fits fits (reverse stack.new.items) (after_declaration_action declaration_action.Parameter (reverse stack.old.items))) }
{
    let name = take_name_option(stack);
    let type_name = take_type(stack);
    let Some((name, type_name)) = all_two(name, type_name) else {
        return Ok(false);
    };
    put(
        stack,
        Value::Part(PartValue::Parameter(Parameter {
            constant: None,
            type_name,
            name,
        })),
    )?;
    Ok(true)
}

/// `Param = "const" Type [ ID ]`
pub fn make_const_parameter(stack: &mut Vec<Value>) -> Result<bool, AllocError>
    ensures { IfOk result (λ fits. Fits fits (reverse stack.new.items) (after_declaration_action declaration_action.ConstParameter (reverse stack.old.items))) }
{
    let name = take_name_option(stack);
    let type_name = take_type(stack);
    let place = take_place(stack);
    let Some((name, type_name, place)) = all_three(name, type_name, place) else {
        return Ok(false);
    };
    put(
        stack,
        Value::Part(PartValue::Parameter(Parameter {
            constant: Some(place),
            type_name,
            name,
        })),
    )?;
    Ok(true)
}

/// `Params = [ "void" ]`
pub fn make_no_parameters(alloc: Global, stack: &mut Vec<Value>) -> Result<bool, AllocError>
    ensures { IfOk result (λ fits. Fits fits (reverse stack.new.items) (after_declaration_action declaration_action.NoParameters (reverse stack.old.items))) }
{
    put(stack, Value::Part(PartValue::Parameters(Items::new(alloc))))?;
    Ok(true)
}

/// The first of several parameters.
pub fn make_one_parameter(alloc: Global, stack: &mut Vec<Value>) -> Result<bool, AllocError>
    ensures { IfOk result (λ fits. Fits fits (reverse stack.new.items) (after_declaration_action declaration_action.OneParameter (reverse stack.old.items))) }
{
    let Some(parameter) = take_parameter(stack) else {
        return Ok(false);
    };
    put(
        stack,
        Value::Part(PartValue::Parameters(Items::from_vec(vec![in alloc; parameter]?))),
    )?;
    Ok(true)
}

/// One more parameter.
pub fn make_add_parameter(stack: &mut Vec<Value>) -> Result<bool, AllocError>
    ensures { IfOk result (λ fits. Fits fits (reverse stack.new.items) (after_declaration_action declaration_action.AddParameter (reverse stack.old.items))) }
{
    let parameter = take_parameter(stack);
    let parameters = take_parameters(stack);
    let Some((parameter, mut parameters)) = all_two(parameter, parameters) else {
        return Ok(false);
    };
    parameters.push(parameter)?;
    put(stack, Value::Part(PartValue::Parameters(parameters)))?;
    Ok(true)
}
