//! From the productions of a parse tree to its actions.

ghost use Rattle.std.specs.Prelude.{◌≡◌, IfOk, slice_index};
ghost use Rattle.ll_actions.specs.Steps.{steps_of};

use ll_parse::Placed;
use std::alloc::{AllocError, Global};

/// An action of a parse tree, and how many tokens come before it.
#[derive(Clone, Copy, Debug, PartialEq, Eq)]
pub struct Step {
    pub action: u16,
    pub token: u32,
}

/// The actions of a parse tree, in the order of the text. A mark is 0 for a production without an action, and otherwise
/// one more than the number of its action.
pub fn steps(alloc: Global, marks: &[u16], placed: &[Placed]) -> Result<Vec<Step>, AllocError>
    ensures { IfOk result (λ v. v.items ≡ steps_of marks.now placed.now) }
{
    let mut steps = Vec::new(alloc);
    for production in placed {
        let mark = mark_of(marks, production.production);
        if mark > 0 {
            steps.push(Step {
                action: mark - 1,
                token: production.place,
            })?;
        }
    }
    Ok(steps)
}

fn mark_of(marks: &[u16], production: u16) -> u16
    ensures { result ≡ slice_index marks.now production }
{
    match marks.get(production as usize) {
        Some(mark) => *mark,
        None => 0,
    }
}
