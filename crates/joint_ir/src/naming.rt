//! The names of properties, and the limits that name them.

ghost use Rattle.std.specs.Prelude.{◌≡◌, ◌<◌, ◌^◌, ◌++◌, OnOk, IfOk, length, string_bytes, map};
ghost use Rattle.std.specs.List.{position_from};
ghost use Rattle.joint_ir.specs.Naming.{kind_text, property_name as name_of, has_limit as has_limit_of, is_limited_by as is_limited, limit_named, limits_of};

use crate::bounds::{Limit, LimitList};
use crate::program::{CProgram, Prop, PropId, PropKind};
use sqlite_items::Items;
use src_text::Name;
use std::alloc::{AllocError, Global};

/// A limit for the loop or the function whose `unwind` or `recursion` property has this name.
#[derive(Drop)]
pub struct NamedLimit {
    /// `FUNCTION.unwind.NUMBER` or `FUNCTION.recursion.1`.
    pub name: Name,
    /// In turns, or in activations at one time.
    pub count: u32,
}

/// Limits by the names of properties.
pub type NamedLimitList = Items<NamedLimit>;

/// The word for a kind of property.
pub fn kind_name(kind: PropKind) -> &'static str
    ensures { result.now ≡ kind_text kind }
{
    match kind {
        PropKind::Assertion => "assertion",
        PropKind::Overflow => "overflow",
        PropKind::Division => "division",
        PropKind::Shift => "shift",
        PropKind::Bounds => "bounds",
        PropKind::Unwind => "unwind",
        PropKind::Recursion => "recursion",
        PropKind::Frame => "frame",
    }
}

/// Puts the name of a property, `FUNCTION.KIND.NUMBER`, at the end of a text.
pub fn push_name(text: &mut String, prop: &Prop) -> Result<(), AllocError>
    ensures { OnOk result (string_bytes text.new ≡ string_bytes text.old ++ name_of prop.now) }
{
    let function = prop.function.text();
    let kind = kind_name(prop.kind);
    let number = prop.number;
    write!(text, "{function}.{kind}.{number}")
}

fn has_limit(kind: PropKind) -> bool
    ensures { result ≡ has_limit_of kind }
{
    matches!(kind, PropKind::Unwind | PropKind::Recursion)
}

fn is_limited_by(alloc: Global, name: &Name, prop: &Prop) -> Result<bool, AllocError>
    ensures { IfOk result (λ yes. yes ≡ is_limited name.now prop.now) }
{
    if !has_limit(prop.kind) {
        return Ok(false);
    }
    let mut text = String::new(alloc);
    push_name(&mut text, prop)?;
    Ok(text.as_str() == name.text())
}

/// The property that an entry names, if there is one.
fn named(alloc: Global, props: &[Prop], name: &Name) -> Result<Option<u32>, AllocError>
    requires { length props.now < 2 ^ 32 }
    ensures { IfOk result (λ at. at ≡ position_from (is_limited name.now) 0 props.now) }
{
    for (i, prop) in props.iter().enumerate() {
        if is_limited_by(alloc, name, prop)? {
            return Ok(Some(i as u32));
        }
    }
    Ok(None)
}

/// The limits of the loops and functions that a list names, in the order of the list. An entry that names none has no
/// effect.
pub fn limits(
    alloc: Global,
    program: &CProgram,
    named_limits: &NamedLimitList,
) -> Result<LimitList, AllocError>
    requires { length program.now.props < 2 ^ 32 }
    ensures { IfOk result (λ limits. limits ≡ limits_of program.now named_limits.now) }
{
    let mut limits = LimitList::new(alloc);
    for entry in named_limits.as_slice() {
        if let Some(at) = named(alloc, program.props.as_slice(), &entry.name)? {
            limits.push(Limit {
                prop: PropId(at),
                count: entry.count,
            })?;
        }
    }
    Ok(limits)
}
