//! Actions of parts of declarations (IEEE 1364-2005, clause 4 and Annex A.2).

ghost use Rattle.std.specs.Prelude.{IfOk, reverse};
ghost use Rattle.v_stack.specs.Values.{Fits};
ghost use Rattle.v_actions.specs.DeclarationActions.{after_declaration_action};

use std::alloc::{AllocError, Global};
use v_actions::DeclarationAction;
use v_make_declarations::{
    make_add_declarator, make_add_declared, make_add_name, make_add_parameter, make_add_register,
    make_declarator, make_initialized_register, make_memory, make_no_declarators, make_no_declared,
    make_no_kind, make_no_names, make_no_parameter_range, make_no_parameters, make_no_range,
    make_no_registers, make_parameter, make_plain_range, make_plain_register, make_range,
    make_reg_kind, make_signed, make_signed_range, make_some_range, make_unsigned, make_wire_kind,
};
use v_stack::Value;

/// Makes a part of a declaration.
pub fn act_declare(
    alloc: Global,
    stack: &mut Vec<Value>,
    action: DeclarationAction,
) -> Result<bool, AllocError>
    ensures { IfOk result (λ fits. Fits fits (reverse stack.new.items) (after_declaration_action action (reverse stack.old.items))) }
{
    match action {
        DeclarationAction::Range => make_range(stack),
        DeclarationAction::SomeRange => make_some_range(stack),
        DeclarationAction::NoRange => make_no_range(stack),
        DeclarationAction::SignedRange => make_signed_range(stack),
        DeclarationAction::PlainRange => make_plain_range(stack),
        DeclarationAction::NoParameterRange => make_no_parameter_range(stack),
        DeclarationAction::Parameter => make_parameter(stack),
        DeclarationAction::NoParameters => make_no_parameters(alloc, stack),
        DeclarationAction::AddParameter => make_add_parameter(stack),
        DeclarationAction::NoNames => make_no_names(alloc, stack),
        DeclarationAction::AddName => make_add_name(stack),
        DeclarationAction::NoDeclared => make_no_declared(alloc, stack),
        DeclarationAction::AddDeclared => make_add_declared(stack),
        DeclarationAction::Declarator => make_declarator(stack),
        DeclarationAction::NoDeclarators => make_no_declarators(alloc, stack),
        DeclarationAction::AddDeclarator => make_add_declarator(stack),
        DeclarationAction::WireKind => make_wire_kind(stack),
        DeclarationAction::RegKind => make_reg_kind(stack),
        DeclarationAction::NoKind => make_no_kind(stack),
        DeclarationAction::Signed => make_signed(stack),
        DeclarationAction::Unsigned => make_unsigned(stack),
        DeclarationAction::PlainRegister => make_plain_register(stack),
        DeclarationAction::InitializedRegister => make_initialized_register(stack),
        DeclarationAction::Memory => make_memory(stack),
        DeclarationAction::NoRegisters => make_no_registers(alloc, stack),
        DeclarationAction::AddRegister => make_add_register(stack),
    }
}
