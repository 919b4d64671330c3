//! A flat Verilog module: its signals, and terms for what settles and for what a clock edge makes of them.

use sqlite_items::Items;
use src_text::Name;
use word_eqs::{TermIds, Terms};

/// What gives a signal its value.
#[derive(Clone, Copy, Debug, PartialEq, Eq)]
pub enum Role {
    /// An input of the top module other than the clock.
    Input,
    /// The clock, which reads 0.
    Clock,
    /// A variable or memory that clocked processes assign, or that keeps its first value.
    Register,
    /// What settles from registers and inputs.
    Wire,
}

/// A signal of the flat module.
#[derive(Drop)]
pub struct Signal {
    /// Its dotted path, which begins with the top's name.
    pub path: Name,
    /// The number of bits of a word, from 1 to 64.
    pub bits: u8,
    /// Whether it is declared signed.
    pub signed: bool,
    /// The index of its lowest bit.
    pub low: u32,
    /// The number of words of a memory, and 0 for what is no memory.
    pub words: u32,
    pub role: Role,
}

/// Signals, in flat order.
pub type SignalList = Items<Signal>;

/// For each register its first value, or none where any value may stand there.
pub type FirstList = Items<Option<u64>>;

/// An unknown word of 1 to 64 bits: what a division by zero or a read out of range gives.
#[derive(Clone, Copy, Debug, PartialEq, Eq)]
pub struct Site {
    pub bits: u8,
}

/// The places at which unknown words are drawn, in the order of the draws.
pub type SiteList = Items<Site>;

/// A module with its instances made flat. Flat order is: the top's ports in the order of its header, its other signals
/// in text order, then each of its instances in text order with the same rule.
#[derive(Drop)]
pub struct FlatModule {
    pub top: Name,
    /// The paths of the instances below the top, in flat order.
    pub instances: Items<Name>,
    /// In flat order.
    pub signals: SignalList,
    /// The first value of each register word, by register in flat order and by index, where it has one.
    pub firsts: FirstList,
    /// Terms over the register words, then the inputs, then the unknown words of `settle_sites`.
    pub settle_terms: Terms,
    /// Each wire in flat order, as a term of `settle_terms`.
    pub settled: TermIds,
    /// Terms over the register words, then the inputs, then the wires, then the unknown words of `edge_sites`.
    pub edge_terms: Terms,
    /// Each register word after a clock edge, as a term of `edge_terms`.
    pub next: TermIds,
    /// What one settling weighs, in gates.
    pub settle_weight: u64,
    /// What one clock edge weighs, in gates.
    pub edge_weight: u64,
    /// The unknown words of a settling, in the order in which they are drawn.
    pub settle_sites: SiteList,
    /// The unknown words of a clock edge, in the order in which they are drawn.
    pub edge_sites: SiteList,
}
