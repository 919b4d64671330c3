//! Actions of parts of declarations (IEEE 1364-2005, clause 4 and Annex A.2).

ghost use Rattle.std.specs.Prelude.{IfOk, reverse};
ghost use Rattle.v_actions.specs.DeclarationActions.{after_declaration_action};
ghost use Rattle.v_actions.specs.declared.actions.DeclarationAction.TheVariants as DeclarationAction;
ghost use Rattle.v_stack.specs.Values.{Fits};

use sqlite_items::Items;
use stack_parts::{all_three, all_two};
use std::alloc::{AllocError, Global};
use v_stack::{
    DeclareValue, ExprValue, NamesValue, Value, put, take_declarator, take_declarators,
    take_declared, take_declared_names, take_expr, take_expr_option, take_name, take_names,
    take_parameter, take_parameters, take_place, take_range, take_register, take_registers,
};
use v_tree::{
    Declarator, NetKind, ParameterAssignment, ParameterRange, Range, Register, RegisterForm,
};

/// `[ high : low ]`
pub fn make_range(stack: &mut Vec<Value>) -> Result<bool, AllocError>
    ensures { IfOk result (λ fits. Fits fits (reverse stack.new.items) (after_declaration_action DeclarationAction.Range (reverse stack.old.items))) }
{
    let low = take_expr(stack);
    let high = take_expr(stack);
    let place = take_place(stack);
    let Some((low, high, place)) = all_three(low, high, place) else {
        return Ok(false);
    };
    put(
        stack,
        Value::Expr(ExprValue::Range(Range { place, high, low })),
    )?;
    Ok(true)
}

/// A range that is given.
pub fn make_some_range(stack: &mut Vec<Value>) -> Result<bool, AllocError>
    ensures { IfOk result (λ fits. Fits fits (reverse stack.new.items) (after_declaration_action DeclarationAction.SomeRange (reverse stack.old.items))) }
{
    let Some(range) = take_range(stack) else {
        return Ok(false);
    };
    put(stack, Value::Expr(ExprValue::RangeOption(Some(range))))?;
    Ok(true)
}

/// No range.
pub fn make_no_range(stack: &mut Vec<Value>) -> Result<bool, AllocError>
    ensures { IfOk result (λ fits. Fits fits (reverse stack.new.items) (after_declaration_action DeclarationAction.NoRange (reverse stack.old.items))) }
{
    put(stack, Value::Expr(ExprValue::RangeOption(None)))?;
    Ok(true)
}

/// `signed range`
pub fn make_signed_range(stack: &mut Vec<Value>) -> Result<bool, AllocError>
    ensures { IfOk result (λ fits. Fits fits (reverse stack.new.items) (after_declaration_action DeclarationAction.SignedRange (reverse stack.old.items))) }
{
    let Some(range) = take_range(stack) else {
        return Ok(false);
    };
    put(
        stack,
        Value::Declare(DeclareValue::ParameterRange(Some(ParameterRange {
            signed: true,
            range,
        }))),
    )?;
    Ok(true)
}

/// A range without `signed`.
pub fn make_plain_range(stack: &mut Vec<Value>) -> Result<bool, AllocError>
    ensures { IfOk result (λ fits. Fits fits (reverse stack.new.items) (after_declaration_action DeclarationAction.PlainRange (reverse stack.old.items))) }
{
    let Some(range) = take_range(stack) else {
        return Ok(false);
    };
    put(
        stack,
        Value::Declare(DeclareValue::ParameterRange(Some(ParameterRange {
            signed: false,
            range,
        }))),
    )?;
    Ok(true)
}

/// No range of a parameter.
pub fn make_no_parameter_range(stack: &mut Vec<Value>) -> Result<bool, AllocError>
    ensures { IfOk result (λ fits. Fits fits (reverse stack.new.items) (after_declaration_action DeclarationAction.NoParameterRange (reverse stack.old.items))) }
{
    put(stack, Value::Declare(DeclareValue::ParameterRange(None)))?;
    Ok(true)
}

/// `name = value` of a parameter.
pub fn make_parameter(stack: &mut Vec<Value>) -> Result<bool, AllocError>
    ensures { IfOk result (λ fits. Fits fits (reverse stack.new.items) (after_declaration_action DeclarationAction.Parameter (reverse stack.old.items))) }
{
    let value = take_expr(stack);
    let name = take_name(stack);
    let Some((value, name)) = all_two(value, name) else {
        return Ok(false);
    };
    put(
        stack,
        Value::Declare(DeclareValue::Parameter(ParameterAssignment { name, value })),
    )?;
    Ok(true)
}

/// No parameters yet.
pub fn make_no_parameters(alloc: Global, stack: &mut Vec<Value>) -> Result<bool, AllocError>
    ensures { IfOk result (λ fits. Fits fits (reverse stack.new.items) (after_declaration_action DeclarationAction.NoParameters (reverse stack.old.items))) }
{
    put(
        stack,
        Value::Declare(DeclareValue::Parameters(Items::new(alloc))),
    )?;
    Ok(true)
}

/// One more of the parameters.
pub fn make_add_parameter(stack: &mut Vec<Value>) -> Result<bool, AllocError>
    ensures { IfOk result (λ fits. Fits fits (reverse stack.new.items) (after_declaration_action DeclarationAction.AddParameter (reverse stack.old.items))) }
{
    let parameter = take_parameter(stack);
    let parameters = take_parameters(stack);
    let Some((parameter, mut parameters)) = all_two(parameter, parameters) else {
        return Ok(false);
    };
    parameters.push(parameter)?;
    put(stack, Value::Declare(DeclareValue::Parameters(parameters)))?;
    Ok(true)
}

/// No names yet.
pub fn make_no_names(alloc: Global, stack: &mut Vec<Value>) -> Result<bool, AllocError>
    ensures { IfOk result (λ fits. Fits fits (reverse stack.new.items) (after_declaration_action DeclarationAction.NoNames (reverse stack.old.items))) }
{
    put(stack, Value::Names(NamesValue::Names(Items::new(alloc))))?;
    Ok(true)
}

/// One more of the names.
pub fn make_add_name(stack: &mut Vec<Value>) -> Result<bool, AllocError>
    ensures { IfOk result (λ fits. Fits fits (reverse stack.new.items) (after_declaration_action DeclarationAction.AddName (reverse stack.old.items))) }
{
    let name = take_name(stack);
    let names = take_names(stack);
    let Some((name, mut names)) = all_two(name, names) else {
        return Ok(false);
    };
    names.push(name)?;
    put(stack, Value::Names(NamesValue::Names(names)))?;
    Ok(true)
}

/// No declared names yet.
pub fn make_no_declared(alloc: Global, stack: &mut Vec<Value>) -> Result<bool, AllocError>
    ensures { IfOk result (λ fits. Fits fits (reverse stack.new.items) (after_declaration_action DeclarationAction.NoDeclared (reverse stack.old.items))) }
{
    put(
        stack,
        Value::Names(NamesValue::DeclaredNames(Items::new(alloc))),
    )?;
    Ok(true)
}

/// One more of the declared names.
pub fn make_add_declared(stack: &mut Vec<Value>) -> Result<bool, AllocError>
    ensures { IfOk result (λ fits. Fits fits (reverse stack.new.items) (after_declaration_action DeclarationAction.AddDeclared (reverse stack.old.items))) }
{
    let name = take_declared(stack);
    let names = take_declared_names(stack);
    let Some((name, mut names)) = all_two(name, names) else {
        return Ok(false);
    };
    names.push(name)?;
    put(stack, Value::Names(NamesValue::DeclaredNames(names)))?;
    Ok(true)
}

/// A declared name, perhaps with a value.
pub fn make_declarator(stack: &mut Vec<Value>) -> Result<bool, AllocError>
    ensures { IfOk result (λ fits. Fits fits (reverse stack.new.items) (after_declaration_action DeclarationAction.Declarator (reverse stack.old.items))) }
{
    let value = take_expr_option(stack);
    let name = take_name(stack);
    let Some((value, name)) = all_two(value, name) else {
        return Ok(false);
    };
    put(
        stack,
        Value::Names(NamesValue::Declarator(Declarator { name, value })),
    )?;
    Ok(true)
}

/// No declared names with values yet.
pub fn make_no_declarators(alloc: Global, stack: &mut Vec<Value>) -> Result<bool, AllocError>
    ensures { IfOk result (λ fits. Fits fits (reverse stack.new.items) (after_declaration_action DeclarationAction.NoDeclarators (reverse stack.old.items))) }
{
    put(
        stack,
        Value::Names(NamesValue::Declarators(Items::new(alloc))),
    )?;
    Ok(true)
}

/// One more of the declared names with values.
pub fn make_add_declarator(stack: &mut Vec<Value>) -> Result<bool, AllocError>
    ensures { IfOk result (λ fits. Fits fits (reverse stack.new.items) (after_declaration_action DeclarationAction.AddDeclarator (reverse stack.old.items))) }
{
    let declarator = take_declarator(stack);
    let declarators = take_declarators(stack);
    let Some((declarator, mut declarators)) = all_two(declarator, declarators) else {
        return Ok(false);
    };
    declarators.push(declarator)?;
    put(stack, Value::Names(NamesValue::Declarators(declarators)))?;
    Ok(true)
}

/// `wire` of a port.
pub fn make_wire_kind(stack: &mut Vec<Value>) -> Result<bool, AllocError>
    ensures { IfOk result (λ fits. Fits fits (reverse stack.new.items) (after_declaration_action DeclarationAction.WireKind (reverse stack.old.items))) }
{
    put(
        stack,
        Value::Declare(DeclareValue::NetKind(Some(NetKind::Wire))),
    )?;
    Ok(true)
}

/// `reg` of a port.
pub fn make_reg_kind(stack: &mut Vec<Value>) -> Result<bool, AllocError>
    ensures { IfOk result (λ fits. Fits fits (reverse stack.new.items) (after_declaration_action DeclarationAction.RegKind (reverse stack.old.items))) }
{
    put(
        stack,
        Value::Declare(DeclareValue::NetKind(Some(NetKind::Reg))),
    )?;
    Ok(true)
}

/// Neither of both.
pub fn make_no_kind(stack: &mut Vec<Value>) -> Result<bool, AllocError>
    ensures { IfOk result (λ fits. Fits fits (reverse stack.new.items) (after_declaration_action DeclarationAction.NoKind (reverse stack.old.items))) }
{
    put(stack, Value::Declare(DeclareValue::NetKind(None)))?;
    Ok(true)
}

/// `signed`
pub fn make_signed(stack: &mut Vec<Value>) -> Result<bool, AllocError>
    ensures { IfOk result (λ fits. Fits fits (reverse stack.new.items) (after_declaration_action DeclarationAction.Signed (reverse stack.old.items))) }
{
    put(stack, Value::Declare(DeclareValue::Sign(true)))?;
    Ok(true)
}

/// No `signed`.
pub fn make_unsigned(stack: &mut Vec<Value>) -> Result<bool, AllocError>
    ensures { IfOk result (λ fits. Fits fits (reverse stack.new.items) (after_declaration_action DeclarationAction.Unsigned (reverse stack.old.items))) }
{
    put(stack, Value::Declare(DeclareValue::Sign(false)))?;
    Ok(true)
}

/// A register's name alone.
pub fn make_plain_register(stack: &mut Vec<Value>) -> Result<bool, AllocError>
    ensures { IfOk result (λ fits. Fits fits (reverse stack.new.items) (after_declaration_action DeclarationAction.PlainRegister (reverse stack.old.items))) }
{
    let Some(name) = take_name(stack) else {
        return Ok(false);
    };
    put(
        stack,
        Value::Names(NamesValue::Register(Register {
            name,
            form: RegisterForm::Plain,
        })),
    )?;
    Ok(true)
}

/// `name = value` of a register.
pub fn make_initialized_register(stack: &mut Vec<Value>) -> Result<bool, AllocError>
    ensures { IfOk result (λ fits. Fits fits (reverse stack.new.items) (after_declaration_action DeclarationAction.InitializedRegister (reverse stack.old.items))) }
{
    let value = take_expr(stack);
    let name = take_name(stack);
    let Some((value, name)) = all_two(value, name) else {
        return Ok(false);
    };
    put(
        stack,
        Value::Names(NamesValue::Register(Register {
            name,
            form: RegisterForm::Initialized(value),
        })),
    )?;
    Ok(true)
}

/// A name and the range of its words.
pub fn make_memory(stack: &mut Vec<Value>) -> Result<bool, AllocError>
    ensures { IfOk result (λ fits. Fits fits (reverse stack.new.items) (after_declaration_action DeclarationAction.Memory (reverse stack.old.items))) }
{
    let range = take_range(stack);
    let name = take_name(stack);
    let Some((range, name)) = all_two(range, name) else {
        return Ok(false);
    };
    put(
        stack,
        Value::Names(NamesValue::Register(Register {
            name,
            form: RegisterForm::Memory(range),
        })),
    )?;
    Ok(true)
}

/// No registers yet.
pub fn make_no_registers(alloc: Global, stack: &mut Vec<Value>) -> Result<bool, AllocError>
    ensures { IfOk result (λ fits. Fits fits (reverse stack.new.items) (after_declaration_action DeclarationAction.NoRegisters (reverse stack.old.items))) }
{
    put(
        stack,
        Value::Names(NamesValue::Registers(Items::new(alloc))),
    )?;
    Ok(true)
}

/// One more of the registers.
pub fn make_add_register(stack: &mut Vec<Value>) -> Result<bool, AllocError>
    ensures { IfOk result (λ fits. Fits fits (reverse stack.new.items) (after_declaration_action DeclarationAction.AddRegister (reverse stack.old.items))) }
{
    let register = take_register(stack);
    let registers = take_registers(stack);
    let Some((register, mut registers)) = all_two(register, registers) else {
        return Ok(false);
    };
    registers.push(register)?;
    put(stack, Value::Names(NamesValue::Registers(registers)))?;
    Ok(true)
}
