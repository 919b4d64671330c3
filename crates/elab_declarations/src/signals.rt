//! Ports, wires, registers, memories, loop variables and instances (IEEE 1364-2005, 4.2, 4.8, 4.9, 12.1.2 and 12.3.3).

ghost use Rattle.std.specs.Prelude.{◌≡◌, ◌+◌, IfOk, OnOk, IfSome};
ghost use Rattle.elab_declarations.specs.Shapes.{IsShape};
ghost use Rattle.elab_declarations.specs.Signals.{entry_of as entry_of_of, port_sort as port_sort_of, port_form as port_form_of, net_form as net_form_of, register_form as register_form_of, with_listed, with_signal, stage_after as stage_after_of, may_follow as may_follow_of, with_directed, directed_at as directed_at_of, completed_sort as completed_sort_of, completed as completed_of, with_completed, with_item, with_integer, with_instance};

use crate::shapes::{memory_shape, shape_of};
use elab_names::names::{Entry, Shape, SignalEntry, Sort};
use elab_names::scope::Names;
use name_table::Table;
use src_text::Name;
use std::alloc::{AllocError, Global};
use v_tree::{DirectionKind, NetKind, Range, RegisterForm};

/// What a declaration says of a signal.
#[derive(Clone, Copy, Debug)]
pub struct SignalForm {
    pub sort: Sort,
    pub signed: bool,
    pub memory: bool,
    /// None where an offence leaves it open.
    pub shape: Option<Shape>,
}

/// How far a port is declared whose name the header merely lists (12.3.3).
#[derive(Clone, Copy, Debug)]
pub enum Stage {
    /// The header lists it.
    Listed,
    /// A direction item that says neither `wire` nor `reg`; one of those may follow.
    Directed,
    /// Nothing may follow.
    Whole,
}

/// A port whose name the header lists: its number in flat order, and how far it is declared.
#[derive(Clone, Copy, Debug)]
pub struct ListedPort {
    pub number: u32,
    pub stage: Stage,
}

/// What the declarations of a module have made so far.
#[derive(Drop)]
pub struct Declared {
    pub names: Names,
    /// The ports of a header that lists names.
    pub ports: Table<ListedPort>,
    /// The number in flat order of the next signal.
    pub next: u32,
}

fn entry_of(number: u32, form: SignalForm) -> Entry
    ensures { result ≡ entry_of_of number form }
{
    Entry::Signal(SignalEntry {
        number,
        sort: form.sort,
        signed: form.signed,
        memory: form.memory,
        shape: form.shape,
    })
}

fn port_sort(direction: DirectionKind, net: Option<NetKind>) -> Sort
    ensures { result ≡ port_sort_of direction net }
{
    match direction {
        DirectionKind::Input => Sort::Input,
        DirectionKind::Output => match net {
            None => Sort::Net,
            Some(NetKind::Wire) => Sort::Net,
            Some(NetKind::Reg) => Sort::Reg,
        },
    }
}

/// The form of the ports of a declaration, in the header or in an item.
pub fn port_form(
    alloc: Global,
    names: &Names,
    direction: DirectionKind,
    net: Option<NetKind>,
    signed: bool,
    range: &Option<Range>,
) -> Result<SignalForm, AllocError>
    ensures { IfOk result (λ f. f ≡ port_form_of names.now direction net signed range.now) }
{
    let shape = shape_of(alloc, names, range)?;
    Ok(SignalForm {
        sort: port_sort(direction, net),
        signed,
        memory: false,
        shape,
    })
}

/// The form of the wires of a declaration.
pub fn net_form(
    alloc: Global,
    names: &Names,
    signed: bool,
    range: &Option<Range>,
) -> Result<SignalForm, AllocError>
    ensures { IfOk result (λ f. f ≡ net_form_of names.now signed range.now) }
{
    let shape = shape_of(alloc, names, range)?;
    Ok(SignalForm {
        sort: Sort::Net,
        signed,
        memory: false,
        shape,
    })
}

/// The form of a register or a memory of a declaration whose range has this shape.
pub fn register_form(
    alloc: Global,
    names: &Names,
    signed: bool,
    word: Option<Shape>,
    form: &RegisterForm,
) -> Result<SignalForm, AllocError>
    requires { IfSome word IsShape }
    ensures { IfOk result (λ f. f ≡ register_form_of names.now signed word form.now) }
{
    match form {
        RegisterForm::Plain | RegisterForm::Initialized(_) => Ok(SignalForm {
            sort: Sort::Reg,
            signed,
            memory: false,
            shape: word,
        }),
        RegisterForm::Memory(range) => {
            let shape = memory_shape(alloc, names, word, range)?;
            Ok(SignalForm {
                sort: Sort::Reg,
                signed,
                memory: true,
                shape,
            })
        }
    }
}

/// One more; past the greatest number there is no memory for what it would count.
fn after(n: u32) -> Result<u32, AllocError>
    ensures { IfOk result (λ m. m ≡ n + 1) }
{
    match n.checked_add(1) {
        None => Err(AllocError),
        Some(m) => Ok(m),
    }
}

/// A name that the header lists has the next number. A second time it has none. On want of memory, here and below, what is
/// declared is as some of the steps before left it.
pub fn list_port(d: &mut Declared, name: &Name) -> Result<(), AllocError>
    ensures { OnOk result (d.new ≡ with_listed name.now d.old) }
{
    match d.ports.find(name) {
        Some(_) => {}
        None => {
            let next = after(d.next)?;
            let port = ListedPort {
                number: d.next,
                stage: Stage::Listed,
            };
            d.ports.put(name, port)?;
            d.next = next;
        }
    }
    Ok(())
}

/// A signal with the next number.
pub fn declare_signal(d: &mut Declared, form: SignalForm, name: &Name) -> Result<(), AllocError>
    ensures { OnOk result (d.new ≡ with_signal form name.now d.old) }
{
    let next = after(d.next)?;
    d.names.declare(name, entry_of(d.next, form))?;
    d.next = next;
    Ok(())
}

fn stage_after(net: Option<NetKind>) -> Stage
    ensures { result ≡ stage_after_of net }
{
    match net {
        None => Stage::Directed,
        Some(_) => Stage::Whole,
    }
}

fn direct_at(
    d: &mut Declared,
    form: SignalForm,
    net: Option<NetKind>,
    name: &Name,
    number: u32,
) -> Result<(), AllocError>
    ensures { OnOk result (d.new ≡ directed_at_of form net name.now number d.old) }
{
    d.names.declare(name, entry_of(number, form))?;
    let stage = stage_after(net);
    d.ports.put(name, ListedPort { number, stage })?;
    Ok(())
}

/// A name in a direction item: a port with the number that it has in the header (12.3.3).
pub fn direct_port(
    d: &mut Declared,
    form: SignalForm,
    net: Option<NetKind>,
    name: &Name,
) -> Result<(), AllocError>
    ensures { OnOk result (d.new ≡ with_directed form net name.now d.old) }
{
    match d.ports.find(name) {
        None => declare_signal(d, form, name),
        Some(port) => direct_at(d, form, net, name, port.number),
    }
}

/// The number of a port that one `wire` or `reg` may follow.
pub fn may_follow(port: Option<ListedPort>) -> Option<u32>
    ensures { result ≡ may_follow_of port }
{
    match port {
        None => None,
        Some(p) => match p.stage {
            Stage::Directed => Some(p.number),
            Stage::Listed | Stage::Whole => None,
        },
    }
}

fn completed_sort(first: Sort, second: Sort) -> Sort
    ensures { result ≡ completed_sort_of first second }
{
    match first {
        Sort::Net => second,
        Sort::Input => Sort::Input,
        Sort::Reg => Sort::Reg,
    }
}

fn completed(first: Option<Entry>, number: u32, form: SignalForm) -> Entry
    ensures { result ≡ completed_of first number form }
{
    match first {
        Some(Entry::Signal(s)) => Entry::Signal(SignalEntry {
            number: s.number,
            sort: completed_sort(s.sort, form.sort),
            signed: s.signed,
            memory: s.memory,
            shape: s.shape,
        }),
        _ => entry_of(number, form),
    }
}

fn complete(d: &mut Declared, form: SignalForm, name: &Name, number: u32) -> Result<(), AllocError>
    ensures { OnOk result (d.new ≡ with_completed form name.now number d.old) }
{
    let first = d.names.find(name);
    d.names.declare(name, completed(first, number, form))?;
    let stage = Stage::Whole;
    d.ports.put(name, ListedPort { number, stage })?;
    Ok(())
}

/// A name in a `wire` or `reg` item: the rest of a port's declaration, or a signal with the next number (12.3.3).
pub fn declare_item(d: &mut Declared, form: SignalForm, name: &Name) -> Result<(), AllocError>
    ensures { OnOk result (d.new ≡ with_item form name.now d.old) }
{
    match may_follow(d.ports.find(name)) {
        None => declare_signal(d, form, name),
        Some(number) => complete(d, form, name, number),
    }
}

/// A loop variable: its number is how many names were declared before it (4.8).
pub fn declare_integer(d: &mut Declared, name: &Name) -> Result<(), AllocError>
    ensures { OnOk result (d.new ≡ with_integer name.now d.old) }
{
    let number = d.names.len();
    d.names.declare(name, Entry::Integer(number))?;
    Ok(())
}

/// The name of an instance (12.1.2).
pub fn declare_instance(d: &mut Declared, name: &Name) -> Result<(), AllocError>
    ensures { OnOk result (d.new ≡ with_instance name.now d.old) }
{
    d.names.declare(name, Entry::Instance)?;
    Ok(())
}
