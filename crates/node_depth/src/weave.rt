//! From the steps of a tree to its nodes, each after those inside it.

ghost use Rattle.std.specs.Prelude.{◌≡◌, ◌+◌, ◌<◌, ◌^◌, [], ◌∷◌, ◌++◌, IfOk, drop, reverse};
ghost use Rattle.node_depth.specs.Nodes.{count, Deep};
ghost use Rattle.node_depth.specs.Weaves.{Look, weave_of, woven};
ghost use Rattle.node_depth.specs.Pass.{gathered, wrapped, count_under, held, step_of, run, total, beside};

use crate::depth::{Node, first_deeper};
use ll_actions::Step;
use std::alloc::{AllocError, Global};

/// What an action makes of the trees of the values that it takes.
#[derive(Clone, Copy)]
pub struct Weave {
    /// How many values it takes off the stack.
    pub takes: u8,
    /// How many nested nodes it puts over their trees.
    pub nodes: u8,
    /// Whether its value begins at the token right before it, and not where the first of the values does that begins at a
    /// token.
    pub own: bool,
}

impl Weave {
    const PLAIN: Weave = Weave {
        takes: 0,
        nodes: 0,
        own: false,
    };
}

/// A value: the number of its first token, where it has one, and how many trees it has side by side.
#[derive(Clone, Copy)]
struct Part {
    first: Option<u32>,
    count: usize,
}

impl Part {
    /// The two as one, this one before the other.
    fn beside(self, after: Part) -> Part
        requires { self.count + after.count < 2 ^ 64 }
        ensures { result ≡ beside self after }
    {
        Part {
            first: self.first.or(after.first),
            count: self.count + after.count,
        }
    }
}

/// Takes this many values off the stack, or those that there are, as one.
fn take_parts(parts: &mut Vec<Part>, takes: u8) -> Part
    requires { total (reverse parts.old.items) < 2 ^ 64 }
    ensures whole { result ≡ gathered takes (reverse parts.old.items) }
    ensures rest { reverse parts.new.items ≡ drop takes (reverse parts.old.items) }
{
    let mut whole = Part {
        first: None,
        count: 0,
    };
    for _done in 0..takes {
        if let Some(part) = parts.pop() {
            whole = part.beside(whole);
        }
    }
    whole
}

/// Lists nested nodes over so many trees, and says how many trees there are then.
fn push_nodes(
    nodes: &mut Vec<Node>,
    nested: u8,
    place: u32,
    inside: usize,
) -> Result<usize, AllocError>
    ensures nodes { IfOk result (λ _. nodes.new.items ≡ nodes.old.items ++ wrapped nested place inside) }
    ensures count { IfOk result (λ c. c ≡ count_under nested inside) }
{
    let mut count = inside;
    for _done in 0..nested {
        nodes.push(Node {
            inside: count,
            place,
        })?;
        count = 1;
    }
    Ok(count)
}

/// Does what an action does that has this many tokens before it.
fn weave_step(
    parts: &mut Vec<Part>,
    nodes: &mut Vec<Node>,
    weave: Weave,
    token: u32,
) -> Result<(), AllocError>
    requires { total (reverse parts.old.items) < 2 ^ 64 }
    ensures { IfOk result (λ _. held parts.new.items nodes.new.items ≡ step_of weave token (held parts.old.items nodes.old.items)) }
{
    let whole = take_parts(parts, weave.takes);
    let first = if weave.own {
        Some(token.saturating_sub(1))
    } else {
        whole.first
    };
    let count = push_nodes(nodes, weave.nodes, first.unwrap_or(0), whole.count)?;
    parts.push(Part { first, count })?;
    Ok(())
}

fn weave_at(weaves: &[Weave], action: u16) -> Weave
    ensures { result ≡ weave_of weaves.now action }
{
    match weaves.get(action as usize) {
        Some(weave) => *weave,
        None => Weave::PLAIN,
    }
}

/// The nodes of the trees that the steps make, each after those inside it.
fn nodes_of(alloc: Global, weaves: &[Weave], steps: &[Step]) -> Result<Vec<Node>, AllocError>
    ensures { IfOk result (λ v. v.items ≡ (run weaves.now steps.now (held [] [])).nodes) }
{
    let mut parts: Vec<Part> = Vec::new(alloc);
    let mut nodes: Vec<Node> = Vec::new(alloc);
    for step in steps {
        let weave = weave_at(weaves, step.action);
        weave_step(&mut parts, &mut nodes, weave, step.token)?;
    }
    Ok(nodes)
}

/// The place, as the number of a token, of the first node that stands deeper than the limit in the tree that the steps
/// make. The weaves are those of the actions, in the order of their numbers.
pub fn too_deep(
    alloc: Global,
    weaves: &[Weave],
    steps: &[Step],
    limit: u16,
) -> Result<Option<u32>, AllocError>
    ensures { IfOk result (λ r. (l : Look) → woven weaves.now steps.now [] ≡ l ∷ [] → count l.trees ≡ 1 → Deep limit l.trees r) }
{
    let nodes = nodes_of(alloc, weaves, steps)?;
    first_deeper(alloc, &nodes, limit)
}

#[cfg(test)]
mod tests {
    use super::*;
    use std::test::Fail;

    /// A number, an operator over the two before it, an open parenthesis, a sum in parentheses, and a double node.
    static WEAVES: [Weave; 5] = [
        Weave {
            takes: 0,
            nodes: 1,
            own: true,
        },
        Weave {
            takes: 2,
            nodes: 1,
            own: false,
        },
        Weave {
            takes: 0,
            nodes: 0,
            own: true,
        },
        Weave {
            takes: 2,
            nodes: 1,
            own: false,
        },
        Weave {
            takes: 1,
            nodes: 2,
            own: false,
        },
    ];

    fn at(token: u32) -> Step {
        Step { action: 0, token }
    }

    fn over(action: u16) -> Step {
        Step { action, token: 99 }
    }

    #[test]
    fn the_place_is_the_first_token_of_the_first_node_too_deep(
        rt: HostRuntime,
    ) -> Result<(), Fail> {
        // 1 + 2 + 3 grouped to the left, and to the right
        let left = [at(1), at(3), over(1), at(5), over(1)];
        let right = [at(1), at(3), at(5), over(1), over(1)];
        // (1 + 2), whose first token is the parenthesis
        let group = [
            Step {
                action: 2,
                token: 1,
            },
            at(2),
            at(4),
            over(1),
            over(3),
        ];
        // two nodes over a number
        let double = [at(7), over(4)];
        let rows: [(&[Step], u16, Option<u32>); 10] = [
            (&left, 3, None),
            (&left, 2, Some(0)),
            (&right, 3, None),
            (&right, 2, Some(2)),
            (&right, 1, Some(0)),
            (&group, 2, Some(1)),
            (&group, 1, Some(1)),
            (&group, 0, Some(0)),
            (&double, 3, None),
            (&double, 2, Some(6)),
        ];
        for (steps, limit, expected) in rows {
            assert_eq!(rt; too_deep(rt.alloc(), &WEAVES, steps, limit)?, expected);
        }
        Ok(())
    }
}
