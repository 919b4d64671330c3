//! The results of a sound log from its inputs alone: for an arena that has the last one no longer.
ghost use Rattle.std.specs.Prelude.{◌≡◌, ℕ, ◌++◌, ◌∷◌, ◌<◌, ◌≤◌, [], Some, length, slice_set, IfOk, OnOk, IsTrue, ◌↔◌};
ghost use Rattle.std.specs.List.{HoldsAt};
ghost use Rattle.std.specs.Option.{option_map};
ghost use Rattle.clause_arena.specs.Clause.{Clauses, clause_at};
ghost use Rattle.res_log.specs.Log.{chain, result_of, input, book_before, IsSound, EndsEmpty};
ghost use Rattle.res_log.specs.Origins.{book_of};

use crate::origins::{Origin, is_there, origins};
use crate::{ChainStep, Log};
use clause_arena::{ClauseArena, ClauseId, Lit, resolvent};
use std::alloc::{AllocError, Global};
use std::marker::Model;

/// The clause of each id that has one.
#[derive(Drop)]
struct Book {
    clauses: Vec<Option<Vec<Lit>>>,
}

impl Model for Book {
    ghost use Rattle.std.specs.Prelude.{map};
    ghost use Rattle.std.specs.Option.{option_map};
    ghost use Rattle.clause_arena.specs.Clause.{Clauses};

    ghost Value = { Clauses };

    ghost view = { λ a. map (option_map (λ c. c.items)) a.clauses.items };
}

impl Book {
    fn new(alloc: Global) -> Book
        ensures { result ≡ [] }
    {
        Book {
            clauses: Vec::new(alloc),
        }
    }

    fn push(&mut self, clause: Option<Vec<Lit>>) -> Result<(), AllocError>
        ensures { OnOk result (self.new ≡ self.old ++ option_map (λ c. c.items) clause ∷ []) }
    {
        self.clauses.push(clause)?;
        Ok(())
    }

    fn clause(&self, id: ClauseId) -> Option<&[Lit]>
        ensures { option_map (λ c. c.now) result ≡ clause_at self.now id.0 }
    {
        match self.clauses.get(id.0 as usize) {
            Some(Some(clause)) => Some(clause.as_slice()),
            _ => None,
        }
    }

    fn enter(&mut self, id: ClauseId, clause: Option<Vec<Lit>>)
        requires { id.0 < length self.old }
        ensures { self.new ≡ slice_set self.old id.0 (option_map (λ c. c.items) clause) }
    {
        self.clauses[id.0 as usize] = clause;
    }
}

/// The clause that is there by the table.
fn clause_by(
    alloc: Global,
    arena: &ClauseArena,
    table: &[Origin],
    id: ClauseId,
) -> Result<Option<Vec<Lit>>, AllocError>
    ensures { IfOk result (λ clause. option_map (λ c. c.items) clause ≡ book_of arena.now.clauses table.now id.0) }
{
    if !is_there(table, id) || !arena.is_live(id) {
        return Ok(None);
    }
    Ok(Some(Vec::from_slice(alloc, arena.lits(id))?))
}

/// The book of the inputs.
fn inputs(alloc: Global, arena: &ClauseArena, log: &Log) -> Result<Book, AllocError>
    ensures len { IfOk result (λ book. length book ≡ length arena.now.clauses) }
    ensures clauses { IfOk result (λ book. (id : ℕ) → clause_at book id ≡ input arena.now.clauses log.now id) }
{
    let table = origins(alloc, arena, log, 0)?;
    let mut book = Book::new(alloc);
    for id in 0..arena.count() {
        book.push(clause_by(alloc, arena, &table, ClauseId(id))?)?;
    }
    Ok(book)
}

fn chain_result(
    alloc: Global,
    book: &Book,
    first: &[Lit],
    rest: &[ChainStep],
) -> Result<Option<Vec<Lit>>, AllocError>
    ensures { IfOk result (λ found. option_map (λ c. c.items) found ≡ chain (clause_at book.now) rest.now first.now) }
{
    let mut current: Vec<Lit> = Vec::from_slice(alloc, first)?;
    for link in rest {
        let Some(clause) = book.clause(link.clause) else {
            return Ok(None);
        };
        let Some(next) = resolvent(alloc, &current, clause, link.pivot)? else {
            return Ok(None);
        };
        current = next;
    }
    Ok(Some(current))
}

/// The result of step `k` over the book.
fn step_result(
    alloc: Global,
    book: &Book,
    log: &Log,
    k: u64,
) -> Result<Option<Vec<Lit>>, AllocError>
    requires { k < length log.now }
    ensures { IfOk result (λ found. HoldsAt (λ s. option_map (λ c. c.items) found ≡ result_of (clause_at book.now) s) log.now k) }
{
    let rest = log.rest(k);
    if rest.is_empty() {
        return Ok(None);
    }
    let Some(first) = book.clause(log.first(k)) else {
        return Ok(None);
    };
    chain_result(alloc, book, first, rest)
}

/// The book of the inputs and of the first `n` steps.
fn book_after(alloc: Global, arena: &ClauseArena, log: &Log, n: u64) -> Result<Book, AllocError>
    requires place { n ≤ length log.now }
    requires sound { IsSound arena.now.clauses log.now }
    ensures { IfOk result (λ book. (id : ℕ) → clause_at book id ≡ book_before arena.now.clauses log.now n id) }
{
    let mut book = inputs(alloc, arena, log)?;
    for k in 0..n {
        let result = step_result(alloc, &book, log, k)?;
        book.enter(log.derived(k), result);
    }
    Ok(book)
}

/// Whether the last result of a sound log is the empty clause.
pub fn is_last_empty(alloc: Global, arena: &ClauseArena, log: &Log) -> Result<bool, AllocError>
    requires some { 0 < length log.now }
    requires sound { IsSound arena.now.clauses log.now }
    ensures { IfOk result (λ empty. IsTrue empty ↔ EndsEmpty arena.now.clauses log.now) }
{
    let last = log.len() - 1;
    let book = book_after(alloc, arena, log, last)?;
    match step_result(alloc, &book, log, last)? {
        Some(result) => Ok(result.is_empty()),
        None => Ok(false),
    }
}
