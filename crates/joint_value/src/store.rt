//! The numbers that C's objects hold.

ghost use Rattle.std.specs.Prelude.{◌≡◌, ◌+◌, ◌≤◌, [], ◌∷◌, ◌++◌, length, slice_index_or, IfOk, OnOk, OnErr, pos};
ghost use Rattle.joint_ir.specs.States.{rows_of, row_at, put as put_of, put_at, first_rows, filled_up, element_count as element_count_of};
ghost use Rattle.joint_value.specs.Elements.{row_items, part_of, replaced};

use joint_ir::{Slot, Var};
use std::alloc::{AllocError, Global};
use std::marker::Model;

/// Objects, one row of elements for each. An object that is no array has one element, and a struct none.
#[derive(Drop)]
pub struct Rows {
    rows: Vec<Vec<i128>>,
}

impl Model for Rows {
    ghost use Rattle.std.specs.Prelude.{List, ℤ};
    ghost use Rattle.joint_value.specs.Elements.{row_items};

    ghost Value = { List (List ℤ) };

    ghost view = { λ r. row_items r.rows.items };
}

impl Rows {
    /// No objects.
    pub fn new(alloc: Global) -> Rows
        ensures { result ≡ [] }
    {
        Rows {
            rows: Vec::new(alloc),
        }
    }

    /// Objects with these elements.
    pub fn from_vec(rows: Vec<Vec<i128>>) -> Rows
        ensures { result ≡ row_items rows.items }
    {
        Rows { rows }
    }

    /// The elements of all objects.
    pub fn as_slice(&self) -> &[Vec<i128>]
        ensures { row_items result.now ≡ self.now }
    {
        self.rows.as_slice()
    }

    /// Objects at their first elements: the first values, and zeros to the end (C99 6.7.8, paragraphs 10 and 21).
    pub fn first(alloc: Global, vars: &[Var]) -> Result<Rows, AllocError>
        ensures { IfOk result (λ rows. rows ≡ first_rows vars.now) }
    {
        let mut rows = Rows::new(alloc);
        for var in vars {
            rows.push(first_row(alloc, var)?)?;
        }
        Ok(rows)
    }

    /// One more object. Where memory is wanting, nothing changes.
    pub fn push(&mut self, row: Vec<i128>) -> Result<(), AllocError>
        ensures ok { OnOk result (self.new ≡ self.old ++ row.items ∷ []) }
        ensures err { OnErr result (self.new ≡ self.old) }
    {
        self.rows.push(row)?;
        Ok(())
    }

    /// Copies of the objects from a place on, up to another one.
    pub fn part(&self, alloc: Global, first: usize, end: usize) -> Result<Rows, AllocError>
        requires { first ≤ end }
        ensures { IfOk result (λ rows. rows ≡ part_of first end self.now) }
    {
        let mut rows = Rows::new(alloc);
        let stop = end.min(self.len());
        for i in first..stop {
            rows.push(Vec::from_slice(alloc, self.row(i))?)?;
        }
        Ok(rows)
    }

    /// Puts objects in place of those from one on.
    pub fn put_back(&mut self, first: usize, others: Rows)
        requires { first + length others ≤ length self.old }
        ensures { self.new ≡ replaced first others self.old }
    {
        let mut others = others;
        let rows = &mut self.rows;
        let end = first + others.rows.len();
        rows[first..end].swap_with_slice(&mut others.rows);
    }

    /// The number of objects.
    pub fn len(&self) -> usize
        ensures { result ≡ length self.now }
    {
        self.rows.len()
    }

    /// The elements of an object, and none where there is no such object.
    pub fn row(&self, at: usize) -> &[i128]
        ensures { result.now ≡ row_at self.now at }
    {
        match self.rows.get(at) {
            None => &[],
            Some(row) => row.as_slice(),
        }
    }

    /// Sets an element of an object, where there is one.
    pub fn set(&mut self, at: usize, element: usize, number: i128)
        ensures { self.new ≡ put_at self.old at element number }
    {
        if at < self.rows.len() {
            let row = &mut self.rows[at];
            if element < row.len() {
                row[element] = number;
            }
        }
    }
}

/// The first elements of an object.
fn first_row(alloc: Global, var: &Var) -> Result<Vec<i128>, AllocError>
    ensures { IfOk result (λ row. row.items ≡ filled_up var.now.firsts (element_count_of var.now.length)) }
{
    let count = if var.length == 0 { 1 } else { var.length };
    let firsts = var.firsts.as_slice();
    let mut row = Vec::new(alloc);
    for k in 0..count {
        row.push(at(firsts, k as usize))?;
    }
    Ok(row)
}

/// The objects of a run at one moment: those of file scope, the locals of all functions, and the members of the mirror.
#[derive(Drop)]
pub struct Store {
    globals: Rows,
    locals: Rows,
    members: Rows,
}

impl Model for Store {
    ghost use Rattle.joint_ir.specs.States as states;

    ghost Value = { states.Store };

    ghost view = { λ s. record { globals = s.globals; locals = s.locals; members = s.members } };
}

impl Store {
    /// A store of these objects.
    pub fn new(globals: Rows, locals: Rows, members: Rows) -> Store
        ensures { result ≡ record { globals = globals; locals = locals; members = members } }
    {
        Store {
            globals,
            locals,
            members,
        }
    }

    /// The objects of file scope, in text order.
    pub fn globals(&self) -> &Rows
        ensures { result.now ≡ self.now.globals }
    {
        &self.globals
    }

    /// The locals of all functions, in text order.
    pub fn locals(&self) -> &Rows
        ensures { result.now ≡ self.now.locals }
    {
        &self.locals
    }

    /// The members of the mirror, in depth-first order.
    pub fn members(&self) -> &Rows
        ensures { result.now ≡ self.now.members }
    {
        &self.members
    }

    /// Puts locals in place of those from one on.
    pub fn put_back(&mut self, first: usize, others: Rows)
        requires { first + length others ≤ length self.old.locals }
        ensures { self.new ≡ record { globals = self.old.globals; locals = replaced first others self.old.locals; members = self.old.members } }
    {
        self.locals.put_back(first, others);
    }

    /// Puts other members in, and gives those that stood.
    pub fn replace_members(&mut self, members: Rows) -> Rows
        ensures given { result ≡ self.old.members }
        ensures store { self.new ≡ record { globals = self.old.globals; locals = self.old.locals; members = members } }
    {
        std::mem::replace(&mut self.members, members)
    }

    /// The number of elements of an object; `bound` has one, the number of frames.
    pub fn length(&self, frames: u32, slot: Slot) -> usize
        ensures { result ≡ length (rows_of frames self.now slot) }
    {
        match slot {
            Slot::Global(i) => self.globals.row(i as usize).len(),
            Slot::Local(i) => self.locals.row(i as usize).len(),
            Slot::Member(i) => self.members.row(i as usize).len(),
            Slot::BoundValue => 1,
        }
    }

    /// An element of an object, and 0 where there is none; `bound` holds the number of frames.
    pub fn element(&self, frames: u32, slot: Slot, index: usize) -> i128
        ensures { result ≡ slice_index_or (rows_of frames self.now slot) index (pos 0) }
    {
        match slot {
            Slot::Global(i) => at(self.globals.row(i as usize), index),
            Slot::Local(i) => at(self.locals.row(i as usize), index),
            Slot::Member(i) => at(self.members.row(i as usize), index),
            Slot::BoundValue => { if index == 0 { frames as i128 } else { 0 } }
        }
    }

    /// Sets an element of an object, where there is one; `bound` stays.
    pub fn put(&mut self, slot: Slot, element: usize, number: i128)
        ensures { self.new ≡ put_of self.old slot element number }
    {
        match slot {
            Slot::Global(i) => self.globals.set(i as usize, element, number),
            Slot::Local(i) => self.locals.set(i as usize, element, number),
            Slot::Member(i) => self.members.set(i as usize, element, number),
            Slot::BoundValue => {}
        }
    }
}

/// An element of a row, and 0 where there is none.
fn at(row: &[i128], index: usize) -> i128
    ensures { result ≡ slice_index_or row.now index (pos 0) }
{
    if index < row.len() { row[index] } else { 0 }
}
