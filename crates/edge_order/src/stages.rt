//! Numbers for the nodes, such that no edge leads to a lower one, and only an edge of a ring stays on its number.
//!
//! The search goes along a path of edges; the nodes on it that lead to one another are one ring (H. N. Gabow, Path-based
//! depth-first search for strong and biconnected components, 2000). Nothing is promised of the numbers here: whoever
//! takes them checks them.

ghost use Rattle.std.specs.Prelude.{◌≡◌, ◌<◌, ◌^◌, length, IfOk, vec_len};

use std::alloc::{AllocError, Global};

/// Where a node stands in the search.
#[derive(Clone, Copy)]
enum Visit {
    Unseen,
    /// Its place among the nodes that wait for the end of their ring.
    Waiting(usize),
    /// The stage of its ring.
    Closed(u32),
}

/// A node on the path, and how many of its edges were followed.
#[derive(Clone, Copy)]
struct Step {
    node: u32,
    followed: usize,
}

#[derive(Drop)]
struct Search {
    visits: Vec<Visit>,
    path: Vec<Step>,
    waiting: Vec<u32>,
    /// Where each ring of the path begins among the waiting ones.
    rings: Vec<usize>,
    stage: u32,
}

impl Search {
    fn note(&mut self, node: u32, visit: Visit)
        ensures { vec_len self.new.visits ≡ vec_len self.old.visits }
    {
        if (node as usize) < self.visits.len() {
            self.visits[node as usize] = visit;
        }
    }

    fn visit(&self, node: u32) -> Visit {
        self.visits
            .get(node as usize)
            .copied()
            .unwrap_or(Visit::Unseen)
    }

    fn enter(&mut self, node: u32) -> Result<(), AllocError>
        ensures { vec_len self.new.visits ≡ vec_len self.old.visits }
    {
        let place = self.waiting.len();
        self.note(node, Visit::Waiting(place));
        self.rings.push(place)?;
        self.waiting.push(node)?;
        self.path.push(Step { node, followed: 0 })?;
        Ok(())
    }

    /// Makes one ring of all rings that begin behind a place.
    fn join(&mut self, place: usize)
        ensures { vec_len self.new.visits ≡ vec_len self.old.visits }
    {
        for _ in 0..self.rings.len() {
            match self.rings.last() {
                Some(start) if *start > place => {
                    let _ = self.rings.pop();
                }
                _ => return,
            }
        }
    }

    /// Ends the last ring, which begins at a place.
    fn close(&mut self, place: usize)
        ensures { vec_len self.new.visits ≡ vec_len self.old.visits }
    {
        let _ = self.rings.pop();
        for _ in place..self.waiting.len() {
            if let Some(node) = self.waiting.pop() {
                let stage = self.stage;
                self.note(node, Visit::Closed(stage));
            }
        }
        self.stage = self.stage.saturating_sub(1);
    }

    fn leave(&mut self, node: u32)
        ensures { vec_len self.new.visits ≡ vec_len self.old.visits }
    {
        if let Visit::Waiting(place) = self.visit(node) {
            if self.rings.last().copied() == Some(place) {
                self.close(place);
            }
        }
    }

    fn follow(&mut self, to: u32) -> Result<(), AllocError>
        ensures { vec_len self.new.visits ≡ vec_len self.old.visits }
    {
        match self.visit(to) {
            Visit::Unseen => self.enter(to)?,
            Visit::Waiting(place) => self.join(place),
            Visit::Closed(_) => {}
        }
        Ok(())
    }

    /// Goes along all paths from a node. Each turn follows an edge or ends a node.
    fn explore(&mut self, graph: &[Vec<u32>], root: u32) -> Result<(), AllocError>
        ensures { vec_len self.new.visits ≡ vec_len self.old.visits }
    {
        self.enter(root)?;
        for _ in 0..u64::MAX {
            let Some(step) = self.path.pop() else {
                return Ok(());
            };
            match target(graph, step) {
                Some(to) => {
                    let followed = step.followed.saturating_add(1);
                    self.path.push(Step {
                        node: step.node,
                        followed,
                    })?;
                    self.follow(to)?;
                }
                None => self.leave(step.node),
            }
        }
        Ok(())
    }
}

/// Where the next edge of a step leads.
fn target(graph: &[Vec<u32>], step: Step) -> Option<u32> {
    let targets = graph.get(step.node as usize)?;
    targets.get(step.followed).copied()
}

fn stage(visit: Visit) -> u32 {
    match visit {
        Visit::Closed(stage) => stage,
        _ => 0,
    }
}

/// A stage for each node.
pub fn find_stages(alloc: Global, graph: &[Vec<u32>]) -> Result<Vec<u32>, AllocError>
    requires { length graph.now < 2 ^ 32 }
    ensures { IfOk result (λ stages. vec_len stages ≡ length graph.now) }
{
    let count = graph.len() as u32;
    let mut search = Search {
        visits: vec![in alloc; Visit::Unseen; graph.len()]?,
        path: Vec::new(alloc),
        waiting: Vec::new(alloc),
        rings: Vec::new(alloc),
        stage: count,
    };
    for root in 0..count {
        if let Visit::Unseen = search.visit(root) {
            search.explore(graph, root)?;
        }
    }
    let visits = search.visits;
    visits.iter().map(|visit| stage(*visit)).collect(alloc)
}
