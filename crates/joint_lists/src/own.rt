//! Where a function's own objects end: its parameters, and what its body declares.

ghost use Rattle.std.specs.Prelude.{◌≡◌};
ghost use Rattle.joint_ir.specs.WellFormed.{declared_in, declared_in_loop};
ghost use Rattle.joint_lists.specs.Own.{behind_all, own_end as end_of, declared_items, declared_option, declared_cases};

use joint_ir::{Function, Group, SNode, TLoop, TStmt};
use sqlite_items::Boxed;

/// The place in `locals` behind a function's own objects, which begin at its first parameter.
pub fn own_end(function: &Function, body: &TStmt) -> usize
    ensures { result ≡ end_of function.now body.now }
{
    behind(body, function.first as usize + function.params as usize)
}

/// The place behind what a statement declares, and at least `at`.
#[cycle(own)]
fn behind(s: &TStmt, at: usize) -> usize
    ensures { result ≡ behind_all at (declared_in s.now.node) }
{
    match &s.node {
        SNode::Block(items) => behind_items(items.as_slice(), at),
        SNode::Declare(x, _) => at.max(*x as usize + 1),
        SNode::If(_, body, other) => {
            let own = behind(body.get(), at);
            behind_option(other, own)
        }
        SNode::Loop(one) => behind_loop(one, at),
        SNode::Switch(_, groups) => behind_cases(groups.as_slice(), at),
        SNode::Store(_, _)
        | SNode::Update(_, _)
        | SNode::Call(_)
        | SNode::Break
        | SNode::Continue
        | SNode::Return(_)
        | SNode::Assert(_, _)
        | SNode::Assume(_)
        | SNode::SetInputs
        | SNode::NextFrame(_) => at,
    }
}

/// The same for statements, one after another.
#[cycle(own)]
fn behind_items(items: &[TStmt], at: usize) -> usize
    ensures { result ≡ behind_all at (declared_items items.now) }
{
    let mut end = at;
    for s in items {
        end = behind(s, end);
    }
    end
}

/// The same for a statement that may be left out.
#[cycle(own)]
fn behind_option(other: &Option<Boxed<TStmt>>, at: usize) -> usize
    ensures { result ≡ behind_all at (declared_option other.now) }
{
    match other {
        None => at,
        Some(s) => behind(s.get(), at),
    }
}

/// The same for a loop, whose last part declares nothing.
#[cycle(own)]
fn behind_loop(one: &TLoop, at: usize) -> usize
    ensures { result ≡ behind_all at (declared_in_loop one.now) }
{
    let heads = behind_items(one.heads.as_slice(), at);
    behind(one.body.get(), heads)
}

/// The same for the groups of a switch.
#[cycle(own)]
fn behind_cases(groups: &[Group], at: usize) -> usize
    ensures { result ≡ behind_all at (declared_cases groups.now) }
{
    let mut end = at;
    for group in groups {
        end = behind_items(group.body.as_slice(), end);
    }
    end
}
