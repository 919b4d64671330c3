//! Actions of declarations (ISO C99, 6.7).

ghost use Rattle.std.specs.Prelude.{IfOk, reverse};
ghost use Rattle.c_stack.specs.Values.{Fits};
ghost use Rattle.c_actions.specs.DeclarationActions.{after_declaration_action};

use c_actions::DeclarationAction;
use c_make_declarations::{
    make_add_declarator, make_add_item, make_add_member, make_add_name, make_add_parameter,
    make_array_declarator, make_array_item, make_call_value, make_char_type, make_const_local,
    make_const_parameter, make_initialized, make_initialized_array, make_int_type,
    make_integer_members, make_local, make_long_type, make_no_initializer, make_no_name,
    make_no_parameters, make_one_declarator, make_one_item, make_one_member, make_one_name,
    make_one_parameter, make_parameter, make_plain_declarator, make_plain_item, make_short_type,
    make_some_initializer, make_some_name, make_struct_members, make_value,
};
use c_stack::Value;
use std::alloc::{AllocError, Global};

/// Carries out an action of declarations.
pub fn act_declaration(
    alloc: Global,
    stack: &mut Vec<Value>,
    action: DeclarationAction,
) -> Result<bool, AllocError>
    ensures { IfOk result (λ fits. Fits fits (reverse stack.new.items) (after_declaration_action action (reverse stack.old.items))) }
{
    match action {
        DeclarationAction::CharType => make_char_type(stack),
        DeclarationAction::ShortType => make_short_type(stack),
        DeclarationAction::IntType => make_int_type(stack),
        DeclarationAction::LongType => make_long_type(stack),
        DeclarationAction::Value => make_value(stack),
        DeclarationAction::CallValue => make_call_value(stack),
        DeclarationAction::NoInitializer => make_no_initializer(stack),
        DeclarationAction::SomeInitializer => make_some_initializer(stack),
        DeclarationAction::PlainDeclarator => make_plain_declarator(stack),
        DeclarationAction::Initialized => make_initialized(stack),
        DeclarationAction::ArrayDeclarator => make_array_declarator(stack),
        DeclarationAction::InitializedArray => make_initialized_array(stack),
        DeclarationAction::OneDeclarator => make_one_declarator(alloc, stack),
        DeclarationAction::AddDeclarator => make_add_declarator(stack),
        DeclarationAction::Local => make_local(stack),
        DeclarationAction::ConstLocal => make_const_local(stack),
        DeclarationAction::PlainItem => make_plain_item(stack),
        DeclarationAction::ArrayItem => make_array_item(stack),
        DeclarationAction::OneItem => make_one_item(alloc, stack),
        DeclarationAction::AddItem => make_add_item(stack),
        DeclarationAction::OneName => make_one_name(alloc, stack),
        DeclarationAction::AddName => make_add_name(stack),
        DeclarationAction::IntegerMembers => make_integer_members(stack),
        DeclarationAction::StructMembers => make_struct_members(stack),
        DeclarationAction::OneMember => make_one_member(alloc, stack),
        DeclarationAction::AddMember => make_add_member(stack),
        DeclarationAction::NoName => make_no_name(stack),
        DeclarationAction::SomeName => make_some_name(stack),
        DeclarationAction::Parameter => make_parameter(stack),
        DeclarationAction::ConstParameter => make_const_parameter(stack),
        DeclarationAction::NoParameters => make_no_parameters(alloc, stack),
        DeclarationAction::OneParameter => make_one_parameter(alloc, stack),
        DeclarationAction::AddParameter => make_add_parameter(stack),
    }
}
