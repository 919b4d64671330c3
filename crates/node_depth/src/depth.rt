//! The first node of a list that stands too deep.

ghost use Rattle.std.specs.Prelude.{◌≡◌, ℕ, [], ◌∷◌, IfOk, reverse};
ghost use Rattle.node_depth.specs.Nodes.{Trees, count, post, Deep};
ghost use Rattle.node_depth.specs.Scan.{copies, keep, scan};

use std::alloc::{AllocError, Global};

/// A node of a tree: how many nodes stand in it directly, and the number of its first token.
#[derive(Clone, Copy)]
pub struct Node {
    pub inside: usize,
    pub place: u32,
}

fn push_copies(levels: &mut Vec<u32>, level: u32, count: usize) -> Result<(), AllocError>
    ensures { IfOk result (λ _. reverse levels.new.items ≡ copies count level (reverse levels.old.items)) }
{
    for _done in 0..count {
        levels.push(level)?;
    }
    Ok(())
}

/// The lesser of the best place so far and this one, where it is that of a node of level 1.
fn kept(best: Option<u32>, level: u32, place: u32) -> Option<u32>
    ensures { result ≡ keep level place best }
{
    if level != 1 {
        return best;
    }
    match best {
        Some(least) => Some(least.min(place)),
        None => Some(place),
    }
}

/// The place of the first node that stands deeper than the limit, where the list has each node of a tree after those
/// inside it.
pub fn first_deeper(alloc: Global, nodes: &[Node], limit: u16) -> Result<Option<u32>, AllocError>
    ensures { IfOk result (λ r. (f : Trees) → nodes.now ≡ post f → count f ≡ 1 → Deep limit f r) }
{
    scanned(alloc, nodes, u32::from(limit) + 1)
}

/// The least place of a node of level 1, where the last node's level is this one.
fn scanned(alloc: Global, nodes: &[Node], level: u32) -> Result<Option<u32>, AllocError>
    ensures { IfOk result (λ r. r ≡ scan (level ∷ []) None (reverse nodes.now)) }
{
    let mut levels: Vec<u32> = Vec::new(alloc);
    levels.push(level)?;
    let mut best = None;
    let mut at = nodes.len();
    'nodes: while at > 0 {
        at -= 1;
        let node = nodes[at];
        let Some(level) = levels.pop() else {
            return Ok(best);
        };
        best = kept(best, level, node.place);
        push_copies(&mut levels, level.saturating_sub(1), node.inside)?;
    }
    Ok(best)
}
