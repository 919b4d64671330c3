//! What `initial` processes and declarations write before the first frame.

ghost use Rattle.std.specs.Prelude.{◌≡◌, flat_map, IfOk};
ghost use Rattle.elab_names.specs.Names.{find_in};
ghost use Rattle.elab_names.specs.declared.constant.Worth.TheVariants.{Value};
ghost use Rattle.elab_loops.specs.Loops.{with_turn as with_turn_of};
ghost use Rattle.elab_firsts.specs.Writes.{word_write as word_write_of, target_writes as target_writes_of, loop_writes as loop_writes_of, stmt_writes as stmt_writes_of, form_writes as form_writes_of, register_writes as register_writes_of, value_writes as value_writes_of, declarator_writes as declarator_writes_of, port_writes as port_writes_of, header_writes as header_writes_of, item_writes as item_writes_of, module_writes as module_writes_of, write_at as write_at_of, first_of as first_of_of};

use crate::values::{FirstWrite, write_of};
use bits_core::Word;
use elab_flat::expression::known;
use elab_loops::{integer_number, taken_turns, with_turn};
use elab_names::constant::Worth;
use elab_names::names::Turn;
use elab_names::scope::Names;
use sqlite_items::Items;
use std::alloc::{AllocError, Global};
use v_tree::{
    Declarator, Expr, ForHead, Header, Identifier, Item, Module, Port, Register, RegisterForm,
    Selection, Stmt, Target,
};

fn word_write(
    alloc: Global,
    names: &Names,
    turns: &[Turn],
    x: &Identifier,
    e: &Expr,
    s: &Selection,
) -> Result<Items<FirstWrite>, AllocError>
    ensures { IfOk result (λ l. l ≡ word_write_of names.now turns.now x.now e.now s.now) }
{
    match s {
        Selection::Index(i) => {
            let word = known(alloc, names, turns, 4095, i.get())?;
            let writes = write_of(alloc, names, turns, &names.find(&x.name), word, e)?;
            Ok(writes)
        }
        Selection::Range(_, _) => Ok(Items::new(alloc)),
        Selection::Up(_, _) => Ok(Items::new(alloc)),
        Selection::Down(_, _) => Ok(Items::new(alloc)),
    }
}

fn target_writes(
    alloc: Global,
    names: &Names,
    turns: &[Turn],
    t: &Target,
    e: &Expr,
) -> Result<Items<FirstWrite>, AllocError>
    ensures { IfOk result (λ l. l ≡ target_writes_of names.now turns.now t.now e.now) }
{
    match t {
        Target::Name(x) => {
            let writes = write_of(alloc, names, turns, &names.find(&x.name), 0, e)?;
            Ok(writes)
        }
        Target::Select(x, s) => {
            let writes = word_write(alloc, names, turns, x, e, s)?;
            Ok(writes)
        }
        Target::Concatenation(_, _) => Ok(Items::new(alloc)),
    }
}

/// What a copy of a statement of an `initial` writes.
#[cycle(stmt)]
fn stmt_writes(
    alloc: Global,
    names: &Names,
    turns: &[Turn],
    s: &Stmt,
) -> Result<Items<FirstWrite>, AllocError>
    ensures { IfOk result (λ l. l ≡ stmt_writes_of names.now s.now turns.now) }
{
    match s {
        Stmt::Block(_, _, body) => {
            let writes = stmts_writes(alloc, names, turns, body.as_slice())?;
            Ok(writes)
        }
        Stmt::For(_, head, body) => {
            let writes = loop_writes(alloc, names, turns, head, body.get())?;
            Ok(writes)
        }
        Stmt::Assignment(a) => {
            let writes = target_writes(alloc, names, turns, &a.target, &a.value)?;
            Ok(writes)
        }
        Stmt::Empty(_) => Ok(Items::new(alloc)),
        Stmt::If(_, _, _) => Ok(Items::new(alloc)),
        Stmt::IfElse(_, _, _, _) => Ok(Items::new(alloc)),
        Stmt::Case(_, _, _, _) => Ok(Items::new(alloc)),
    }
}

#[cycle(stmt)]
fn stmts_writes(
    alloc: Global,
    names: &Names,
    turns: &[Turn],
    body: &[Stmt],
) -> Result<Items<FirstWrite>, AllocError>
    ensures { IfOk result (λ l. l ≡ flat_map (λ s. stmt_writes_of names.now s turns.now) body.now) }
{
    let mut writes = Items::new(alloc);
    for s in body {
        let more = stmt_writes(alloc, names, turns, s)?;
        writes.append(more)?;
    }
    Ok(writes)
}

#[cycle(stmt)]
fn loop_writes(
    alloc: Global,
    names: &Names,
    turns: &[Turn],
    head: &ForHead,
    body: &Stmt,
) -> Result<Items<FirstWrite>, AllocError>
    ensures { IfOk result (λ l. l ≡ loop_writes_of names.now (stmt_writes_of names.now body.now) turns.now head.now) }
{
    let integer = integer_number(&names.find(&head.start.name.name));
    let taken = taken_turns(alloc, names, turns, integer, head)?;
    let writes = turns_writes(alloc, names, turns, integer, taken.as_slice(), body)?;
    Ok(writes)
}

#[cycle(stmt)]
fn turns_writes(
    alloc: Global,
    names: &Names,
    turns: &[Turn],
    integer: usize,
    values: &[Word],
    body: &Stmt,
) -> Result<Items<FirstWrite>, AllocError>
    ensures { IfOk result (λ l. l ≡ flat_map (λ v. stmt_writes_of names.now body.now (with_turn_of turns.now integer (Value v))) values.now) }
{
    let mut writes = Items::new(alloc);
    for value in values {
        let more = turn_writes(alloc, names, turns, integer, *value, body)?;
        writes.append(more)?;
    }
    Ok(writes)
}

#[cycle(stmt)]
fn turn_writes(
    alloc: Global,
    names: &Names,
    turns: &[Turn],
    integer: usize,
    value: Word,
    body: &Stmt,
) -> Result<Items<FirstWrite>, AllocError>
    ensures { IfOk result (λ l. l ≡ stmt_writes_of names.now body.now (with_turn_of turns.now integer (Value value))) }
{
    let inside = with_turn(alloc, turns, integer, Worth::Value(value))?;
    let writes = stmt_writes(alloc, names, inside.as_slice(), body)?;
    Ok(writes)
}

fn form_writes(
    alloc: Global,
    names: &Names,
    x: &Identifier,
    form: &RegisterForm,
) -> Result<Items<FirstWrite>, AllocError>
    ensures { IfOk result (λ l. l ≡ form_writes_of names.now x.now form.now) }
{
    match form {
        RegisterForm::Plain => Ok(Items::new(alloc)),
        RegisterForm::Initialized(e) => {
            let writes = write_of(alloc, names, &[], &names.find(&x.name), 0, e)?;
            Ok(writes)
        }
        RegisterForm::Memory(_) => Ok(Items::new(alloc)),
    }
}

fn registers_writes(
    alloc: Global,
    names: &Names,
    registers: &[Register],
) -> Result<Items<FirstWrite>, AllocError>
    ensures { IfOk result (λ l. l ≡ flat_map (register_writes_of names.now) registers.now) }
{
    let mut writes = Items::new(alloc);
    for r in registers {
        let more = form_writes(alloc, names, &r.name, &r.form)?;
        writes.append(more)?;
    }
    Ok(writes)
}

fn value_writes(
    alloc: Global,
    names: &Names,
    x: &Identifier,
    value: &Option<Expr>,
) -> Result<Items<FirstWrite>, AllocError>
    ensures { IfOk result (λ l. l ≡ value_writes_of names.now x.now value.now) }
{
    match value {
        None => Ok(Items::new(alloc)),
        Some(e) => {
            let writes = write_of(alloc, names, &[], &names.find(&x.name), 0, e)?;
            Ok(writes)
        }
    }
}

fn port_writes(
    alloc: Global,
    names: &Names,
    declarators: &[Declarator],
) -> Result<Items<FirstWrite>, AllocError>
    ensures { IfOk result (λ l. l ≡ flat_map (declarator_writes_of names.now) declarators.now) }
{
    let mut writes = Items::new(alloc);
    for d in declarators {
        let more = value_writes(alloc, names, &d.name, &d.value)?;
        writes.append(more)?;
    }
    Ok(writes)
}

fn ports_writes(
    alloc: Global,
    names: &Names,
    ports: &[Port],
) -> Result<Items<FirstWrite>, AllocError>
    ensures { IfOk result (λ l. l ≡ flat_map (port_writes_of names.now) ports.now) }
{
    let mut writes = Items::new(alloc);
    for p in ports {
        let more = port_writes(alloc, names, p.names.as_slice())?;
        writes.append(more)?;
    }
    Ok(writes)
}

fn header_writes(
    alloc: Global,
    names: &Names,
    header: &Header,
) -> Result<Items<FirstWrite>, AllocError>
    ensures { IfOk result (λ l. l ≡ header_writes_of names.now header.now) }
{
    match header {
        Header::Absent => Ok(Items::new(alloc)),
        Header::Empty => Ok(Items::new(alloc)),
        Header::Names(_) => Ok(Items::new(alloc)),
        Header::Ports(ports) => {
            let writes = ports_writes(alloc, names, ports.as_slice())?;
            Ok(writes)
        }
    }
}

fn item_writes(alloc: Global, names: &Names, i: &Item) -> Result<Items<FirstWrite>, AllocError>
    ensures { IfOk result (λ l. l ≡ item_writes_of names.now i.now) }
{
    match i {
        Item::Reg(d) => {
            let writes = registers_writes(alloc, names, d.registers.as_slice())?;
            Ok(writes)
        }
        Item::Initial(_, body) => {
            let writes = stmt_writes(alloc, names, &[], body)?;
            Ok(writes)
        }
        _ => Ok(Items::new(alloc)),
    }
}

fn items_writes(
    alloc: Global,
    names: &Names,
    items: &[Item],
) -> Result<Items<FirstWrite>, AllocError>
    ensures { IfOk result (λ l. l ≡ flat_map (item_writes_of names.now) items.now) }
{
    let mut writes = Items::new(alloc);
    for i in items {
        let more = item_writes(alloc, names, i)?;
        writes.append(more)?;
    }
    Ok(writes)
}

/// The first values of a module's registers, in the order of the text: the last one of a word holds.
pub fn module_writes(
    alloc: Global,
    names: &Names,
    m: &Module,
) -> Result<Items<FirstWrite>, AllocError>
    ensures { IfOk result (λ l. l ≡ module_writes_of names.now m.now) }
{
    let mut writes = header_writes(alloc, names, &m.header)?;
    let more = items_writes(alloc, names, m.items.as_slice())?;
    writes.append(more)?;
    Ok(writes)
}

fn write_at(signal: u32, word: u32, w: FirstWrite) -> Option<u64>
    ensures { result ≡ write_at_of signal word w }
{
    if w.signal == signal && w.word == word {
        Some(w.value)
    } else {
        None
    }
}

/// The first value of a word: what the last write to it says.
pub fn first_of(writes: &[FirstWrite], signal: u32, word: u32) -> Option<u64>
    ensures { result ≡ first_of_of writes.now signal word }
{
    let mut found = None;
    for w in writes {
        found = write_at(signal, word, *w).or(found);
    }
    found
}
