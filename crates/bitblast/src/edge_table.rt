//! The edges of many words, one word after the other in one vector.

ghost use Rattle.std.specs.Prelude.{◌≡◌, ◌<◌, ◌≤◌, ◌↔◌, [], IsTrue, IfOk, OnOk, length, replicate, slice_set};
ghost use Rattle.bitblast.specs.Wires.{IsMade, edges_at};

use gate_net::Edge;
use std::alloc::{AllocError, Global};
use std::marker::Model;

/// Where the edges of a word stand.
#[derive(Clone, Copy)]
struct Span {
    start: usize,
    width: u8,
}

/// Words by their places. A word without edges isn't made yet.
#[derive(Drop)]
pub struct EdgeTable {
    edges: Vec<Edge>,
    spans: Vec<Span>,
}

impl Model for EdgeTable {
    ghost use Rattle.std.specs.Prelude.{List, length};
    ghost use Rattle.arrayvec.specs.ArrayVec.{ArrayVec};
    ghost use Rattle.gate_net.specs.declared.net.Edge.{Edge as Edged};
    ghost use Rattle.bitblast.specs.Table.{AreWithin, words_at};

    ghost Value = { List (ArrayVec Edged) };

    ghost view = { λ t. words_at t.edges.items t.spans.items };

    ghost invariant = { λ t. AreWithin (length t.edges.items) t.spans.items };
}

impl EdgeTable {
    /// So many words, none of them made.
    pub fn new(alloc: Global, words: u32) -> Result<EdgeTable, AllocError>
        ensures { IfOk result (λ t. t ≡ replicate words (record { items = [] })) }
    {
        let span = Span { start: 0, width: 0 };
        let spans = vec![in alloc; span; words as usize]?;
        Ok(EdgeTable {
            edges: Vec::new(alloc),
            spans,
        })
    }

    /// The edges of the word at a place.
    pub fn edges_of(&self, at: u32) -> &[Edge]
        requires { at < length self.now }
        ensures value { result.now ≡ edges_at self.now at }
        ensures within { length result.now ≤ 128 }
    {
        let span = self.spans[at as usize];
        &self.edges[span.start..span.start + span.width as usize]
    }

    /// Puts the edges of a word at a place.
    pub fn put(&mut self, at: u32, word: &[Edge]) -> Result<(), AllocError>
        requires there { at < length self.old }
        requires width { length word.now ≤ 128 }
        ensures { OnOk result (self.new ≡ slice_set self.old at (record { items = word.now })) }
    {
        let start = self.edges.len();
        self.edges.extend_from_slice(word)?;
        self.spans[at as usize] = Span {
            start,
            width: word.len() as u8,
        };
        Ok(())
    }
}
