//! Where control enters a switch, and where it goes behind one (C99 6.8.4.2).

ghost use Rattle.std.specs.Prelude.{◌≡◌};
ghost use Rattle.std.specs.List.{list_any};
ghost use Rattle.joint_ir.specs.declared.stmt.Group.{out-Group};
ghost use Rattle.joint_ir.specs.Statements.{is_case as is_case_of, is_default as is_default_of};
ghost use Rattle.joint_lists.specs.Lists.{case_with, entered_case};

use joint_ir::{Group, Label};

fn is_case(label: Label, n: i128) -> bool
    ensures { result ≡ is_case_of n label }
{
    match label {
        Label::Case(m) => m == n,
        Label::Default => false,
    }
}

fn is_default(label: Label) -> bool
    ensures { result ≡ is_default_of label }
{
    match label {
        Label::Case(_) => false,
        Label::Default => true,
    }
}

fn has_case(group: &Group, n: i128) -> bool
    ensures { result ≡ list_any (is_case_of n) (out-Group group.now).labels }
{
    let labels = group.labels.as_slice();
    labels.iter().any(|label| is_case(*label, n))
}

fn has_default(group: &Group) -> bool
    ensures { result ≡ list_any is_default_of (out-Group group.now).labels }
{
    let labels = group.labels.as_slice();
    labels.iter().any(|label| is_default(*label))
}

/// The first group with a label of this value.
fn case_of(groups: &[Group], n: i128) -> Option<usize>
    ensures { result ≡ case_with (is_case_of n) groups.now }
{
    for (i, group) in groups.iter().enumerate() {
        if has_case(group, n) {
            return Some(i);
        }
    }
    None
}

/// The first group with the label `default`.
fn default_of(groups: &[Group]) -> Option<usize>
    ensures { result ≡ case_with is_default_of groups.now }
{
    for (i, group) in groups.iter().enumerate() {
        if has_default(group) {
            return Some(i);
        }
    }
    None
}

/// The group where control enters a switch: that of the value, else that of `default`.
pub fn entry(groups: &[Group], n: i128) -> Option<usize>
    ensures { result ≡ entered_case n groups.now }
{
    match case_of(groups, n) {
        Some(i) => Some(i),
        None => default_of(groups),
    }
}
