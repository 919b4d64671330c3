//! A C program and a Verilog module that are bound to each other.

use crate::module::FlatModule;
use crate::program::CProgram;
use sqlite_items::Items;

/// A member of the mirror, by its number, and the signal that it mirrors, by its place in `signals`.
#[derive(Clone, Copy, Debug, PartialEq, Eq)]
pub struct Link {
    pub member: u32,
    pub signal: u32,
}

/// Which signal each member of the mirror is bound to.
pub type LinkList = Items<Link>;

/// What binds a program's mirror to a module.
#[derive(Drop)]
pub struct Binding {
    pub links: LinkList,
}

/// A program and a module that run together.
#[derive(Drop)]
pub struct Pair {
    pub program: CProgram,
    pub module: FlatModule,
    pub binding: Binding,
}
