//! Ports, and their second declarations (IEEE 1364-2005, 12.3.3).

ghost use Rattle.std.specs.Prelude.{◌≡◌, OnOk};
ghost use Rattle.elab_offences.specs.Noted.{Notes};
ghost use Rattle.elab_declaration_offences.specs.Ports.{is_input_reg as is_input_reg_of, port_offences, is_output_reg as is_output_reg_of, port_value_offences, listed_at as listed_at_of, listed_offences, unlisted_at as unlisted_at_of, directed_offences, shapes_differ as shapes_differ_of, is_reg as is_reg_of, forms_differ as forms_differ_of, second_differs as second_differs_of, second_at as second_at_of, item_offences, item_value_at as item_value_at_of, item_value_offences, bare_at as bare_at_of, bare_offences};

use crate::names::declared_again;
use elab_declarations::signals::{Declared, ListedPort, SignalForm, Stage, may_follow};
use elab_names::names::{Entry, Shape, SignalEntry, Sort};
use elab_offences::rules::at_if;
use offence_order::First;
use src_text::{Kind, Place};
use v_starts::expr_start;
use v_tree::{Direction, DirectionKind, Expr, Identifier, NetKind};

fn is_input_reg(direction: DirectionKind, net: Option<NetKind>) -> bool
    ensures { result ≡ is_input_reg_of direction net }
{
    match (direction, net) {
        (DirectionKind::Input, Some(NetKind::Reg)) => true,
        _ => false,
    }
}

/// Ports of a declaration, in the header or in an item: an input is no register. It is told at `input`.
pub fn port(first: &mut First, direction: Direction, net: Option<NetKind>)
    ensures { Notes first.old first.new (port_offences direction net) }
{
    at_if(
        first,
        is_input_reg(direction.kind, net),
        direction.place,
        Kind::VPort,
    );
}

fn is_output_reg(direction: DirectionKind, net: Option<NetKind>) -> bool
    ensures { result ≡ is_output_reg_of direction net }
{
    match (direction, net) {
        (DirectionKind::Output, Some(NetKind::Reg)) => true,
        _ => false,
    }
}

/// The value of a port in the header: only an output that is a register has one. It is told at the value.
pub fn port_value(
    first: &mut First,
    direction: DirectionKind,
    net: Option<NetKind>,
    value: &Option<Expr>,
)
    ensures { Notes first.old first.new (port_value_offences direction net value.now) }
{
    match value {
        None => {}
        Some(e) => at_if(
            first,
            !is_output_reg(direction, net),
            expr_start(e),
            Kind::VPort,
        ),
    }
}

fn listed_at(first: &mut First, place: Place, before: Option<ListedPort>)
    ensures { Notes first.old first.new (listed_at_of place before) }
{
    match before {
        None => {}
        Some(_) => first.note(place, Kind::VRedeclared),
    }
}

/// A name that the header lists, by what it listed before.
pub fn listed(first: &mut First, d: &Declared, x: &Identifier)
    ensures { Notes first.old first.new (listed_offences d.now x.now) }
{
    let before = d.ports.find(&x.name);
    listed_at(first, x.place, before);
}

fn unlisted_at(first: &mut First, place: Place, listed: Option<ListedPort>)
    ensures { Notes first.old first.new (unlisted_at_of place listed) }
{
    match listed {
        None => first.note(place, Kind::VPort),
        Some(_) => {}
    }
}

/// A name in a direction item that begins at a place: the header lists it, and nothing has declared it.
pub fn directed(first: &mut First, d: &Declared, place: Place, x: &Identifier)
    ensures { Notes first.old first.new (directed_offences d.now place x.now) }
{
    let found = d.ports.find(&x.name);
    unlisted_at(first, place, found);
    declared_again(first, &d.names, x);
}

fn shapes_differ(a: Option<Shape>, b: Option<Shape>) -> bool
    ensures { result ≡ shapes_differ_of a b }
{
    match (a, b) {
        (Some(a), Some(b)) => a.bits != b.bits || a.low != b.low,
        _ => false,
    }
}

fn is_reg(sort: Sort) -> bool
    ensures { result ≡ is_reg_of sort }
{
    match sort {
        Sort::Reg => true,
        Sort::Input | Sort::Net => false,
    }
}

fn forms_differ(s: SignalEntry, form: SignalForm) -> bool
    ensures { result ≡ forms_differ_of s form }
{
    let input_reg = match s.sort {
        Sort::Input => is_reg(form.sort),
        Sort::Net | Sort::Reg => false,
    };
    (s.signed != form.signed || form.memory) || (shapes_differ(s.shape, form.shape) || input_reg)
}

fn second_differs(port: &Option<Entry>, form: SignalForm) -> bool
    ensures { result ≡ second_differs_of port.now form }
{
    match port {
        Some(Entry::Signal(s)) => forms_differ(*s, form),
        _ => false,
    }
}

fn second_at(
    first: &mut First,
    place: Place,
    follows: Option<u32>,
    entry: &Option<Entry>,
    form: SignalForm,
)
    ensures { Notes first.old first.new (second_at_of place follows entry.now form) }
{
    match follows {
        None => match entry {
            None => {}
            Some(_) => first.note(place, Kind::VRedeclared),
        },
        Some(_) => at_if(first, second_differs(entry, form), place, Kind::VPort),
    }
}

/// A name in a `wire` or `reg` item: it completes a port as that is declared, or is new. It is told at the name.
pub fn item(first: &mut First, d: &Declared, form: SignalForm, x: &Identifier)
    ensures { Notes first.old first.new (item_offences d.now form x.now) }
{
    let follows = may_follow(d.ports.find(&x.name));
    let entry = d.names.find(&x.name);
    second_at(first, x.place, follows, &entry, form);
}

fn item_value_at(first: &mut First, follows: Option<u32>, value: &Option<Expr>)
    ensures { Notes first.old first.new (item_value_at_of follows value.now) }
{
    match follows {
        None => {}
        Some(_) => match value {
            None => {}
            Some(e) => first.note(expr_start(e), Kind::VPort),
        },
    }
}

/// The value of a name in a `wire` item: a port has none. It is told at the value.
pub fn item_value(first: &mut First, d: &Declared, x: &Identifier, value: &Option<Expr>)
    ensures { Notes first.old first.new (item_value_offences d.now x.now value.now) }
{
    let follows = may_follow(d.ports.find(&x.name));
    item_value_at(first, follows, value);
}

fn bare_at(first: &mut First, place: Place, port: Option<ListedPort>)
    ensures { Notes first.old first.new (bare_at_of place port) }
{
    match port {
        None => {}
        Some(p) => match p.stage {
            Stage::Listed => first.note(place, Kind::VPort),
            Stage::Directed | Stage::Whole => {}
        },
    }
}

/// A name of the header, by what is declared after all items: a direction item has to be there. It is told at the name.
pub fn bare(first: &mut First, d: &Declared, x: &Identifier)
    ensures { Notes first.old first.new (bare_offences d.now x.now) }
{
    let port = d.ports.find(&x.name);
    bare_at(first, x.place, port);
}
