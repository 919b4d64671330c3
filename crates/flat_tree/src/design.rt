//! Signals, drivers and processes of a flat module.

use crate::expr::FlatExpr;
use sqlite_items::Items;
use src_text::{Name, Place};
use v_views::{Sort, Stmt, Target};

/// A port, a wire, a register or a memory of some instance (clause 4).
#[derive(Drop)]
pub struct FlatSignal {
    /// Its name, after those of the instances round it, with dots between.
    pub path: Name,
    /// 0 for the top, else 1 more than the place in the list of instances.
    pub instance: u32,
    /// Where it is declared first.
    pub place: Place,
    /// The bits of a word, from 1 to 64.
    pub bits: u8,
    pub signed: bool,
    /// The low end of its range.
    pub low: u32,
    /// The words of a memory, and 0 for what is none.
    pub words: u32,
    pub sort: Sort,
    /// The first value of each word, where there is one.
    pub firsts: Items<Option<u64>>,
}

/// What a combinational process waits for (9.7.5).
#[derive(Drop)]
pub enum Sense {
    /// `@*`
    All,
    /// The numbers of the signals that its list names.
    Listed(Items<u32>),
}

/// What settles nets and combinational registers.
#[derive(Drop)]
pub enum Work<E> {
    /// An `assign`, or a wire's value (6.1).
    Assign(Target<E>, E),
    /// A port connection, which is a continuous assignment (12.3.9.2), and whether what is connected is a plain name.
    Connect(Target<E>, E, bool),
    /// A process without `posedge` (9.9.2).
    Comb(Sense, Stmt<E>),
}

/// A driver. It begins at its place and stands in the text of its instance.
#[derive(Drop)]
pub struct Driver<E> {
    pub instance: u32,
    pub place: Place,
    pub work: Work<E>,
}

/// A process that waits for `posedge` (9.9.2).
#[derive(Drop)]
pub struct Clocked<E> {
    pub instance: u32,
    pub place: Place,
    /// The number of the signal after `posedge`, and the place of its name.
    pub clock: u32,
    pub clock_place: Place,
    pub body: Stmt<E>,
}

/// A whole design: its top's name, the paths of its other instances, and all signals, drivers and clocked processes, by
/// instance and in the order of the text.
#[derive(Drop)]
pub struct Design<E> {
    pub top: Name,
    pub instances: Items<Name>,
    pub signals: Items<FlatSignal>,
    pub drivers: Items<Driver<E>>,
    pub clocked: Items<Clocked<E>>,
}

/// A target whose indexes are flat expressions.
pub type FlatTarget = Target<FlatExpr>;

/// A statement over flat expressions.
pub type FlatStmt = Stmt<FlatExpr>;

/// What a driver of a flat module does.
pub type FlatWork = Work<FlatExpr>;

/// A driver of a flat module.
pub type FlatDriver = Driver<FlatExpr>;

/// A clocked process of a flat module.
pub type FlatClocked = Clocked<FlatExpr>;

/// A flat module.
pub type FlatTree = Design<FlatExpr>;
