//! What an instance gives for the parameters of its module (IEEE 1364-2005, 12.2.2).

ghost use Rattle.std.specs.Prelude.{◌≡◌, [], IfOk, OnOk, map, flat_map};
ghost use Rattle.elab_declarations.specs.Values.{given_constant as given_constant_of};
ghost use Rattle.elab_declarations.specs.Overrides.{name_of, names_in, item_names, with_number, numbered, parameter_numbers as parameter_numbers_of, given_or_own as given_or_own_of, at_number as at_number_of, given_for as given_for_of, with_given, given_by_name, connections_given as connections_given_of, overrides_of as overrides_of_of};

use crate::values::given_constant;
use elab_names::constant::Constant;
use elab_names::scope::Names;
use name_table::Table;
use sqlite_items::Items;
use src_text::Name;
use std::alloc::{AllocError, Global};
use v_tree::{
    Connections, Expr, Item, Module, NamedConnection, ParameterAssignment, ParameterDeclaration,
};

/// What an instance gives for a parameter.
#[derive(Clone, Copy, Debug)]
pub enum Given {
    /// Nothing: its own value holds.
    Own,
    /// This, where no offence leaves it open.
    Instead(Option<Constant>),
}

/// What stands in `#( .. )` of an instance, as constants; None where an offence leaves one open.
#[derive(Drop)]
pub enum Overrides {
    Absent,
    /// The numbers of the module's parameters, and values by number (12.2.2.1).
    Ordered(Table<usize>, Items<Option<Constant>>),
    /// Values by name (12.2.2.2).
    Named(Table<Option<Constant>>),
}

fn add_name(numbers: &mut Table<usize>, name: &Name) -> Result<(), AllocError>
    ensures { OnOk result (numbers.new ≡ with_number numbers.old name.now) }
{
    match numbers.find(name) {
        Some(_) => {}
        None => {
            let next = numbers.len();
            numbers.put(name, next)?;
        }
    }
    Ok(())
}

fn add_each(
    numbers: &mut Table<usize>,
    parameters: &[ParameterAssignment],
) -> Result<(), AllocError>
    ensures { OnOk result (numbers.new ≡ numbered numbers.old (map name_of parameters.now)) }
{
    for p in parameters {
        add_name(numbers, &p.name.name)?;
    }
    Ok(())
}

fn add_declaration(numbers: &mut Table<usize>, d: &ParameterDeclaration) -> Result<(), AllocError>
    ensures { OnOk result (numbers.new ≡ numbered numbers.old (names_in d.now)) }
{
    add_each(numbers, d.parameters.as_slice())?;
    Ok(())
}

fn add_declarations(
    numbers: &mut Table<usize>,
    declarations: &[ParameterDeclaration],
) -> Result<(), AllocError>
    ensures { OnOk result (numbers.new ≡ numbered numbers.old (flat_map names_in declarations.now)) }
{
    for d in declarations {
        add_declaration(numbers, d)?;
    }
    Ok(())
}

fn add_item(numbers: &mut Table<usize>, item: &Item) -> Result<(), AllocError>
    ensures { OnOk result (numbers.new ≡ numbered numbers.old (item_names item.now)) }
{
    match item {
        Item::Parameter(d) => add_declaration(numbers, d),
        Item::LocalParameter(_) => Ok(()),
        Item::Port(_) | Item::Net(_) | Item::Reg(_) | Item::Integer(_) => Ok(()),
        Item::Assign(_) | Item::Always(_) | Item::Initial(_, _) | Item::Instances(_) => Ok(()),
    }
}

fn add_items(numbers: &mut Table<usize>, items: &[Item]) -> Result<(), AllocError>
    ensures { OnOk result (numbers.new ≡ numbered numbers.old (flat_map item_names items.now)) }
{
    for item in items {
        add_item(numbers, item)?;
    }
    Ok(())
}

/// The numbers of the parameters of a module, from 0 on, those of its header first; `localparam`s have none.
pub fn parameter_numbers(alloc: Global, m: &Module) -> Result<Table<usize>, AllocError>
    ensures { IfOk result (λ t. t ≡ parameter_numbers_of m.now) }
{
    let mut numbers = Table::new(alloc);
    add_declarations(&mut numbers, m.parameters.as_slice())?;
    add_items(&mut numbers, m.items.as_slice())?;
    Ok(numbers)
}

fn constants_of(
    alloc: Global,
    outer: &Names,
    es: &[Expr],
) -> Result<Items<Option<Constant>>, AllocError>
    ensures { IfOk result (λ l. l ≡ map (given_constant_of outer.now) es.now) }
{
    let mut constants = Items::new(alloc);
    for e in es {
        let c = given_constant(alloc, outer, e)?;
        constants.push(c)?;
    }
    Ok(constants)
}

fn add_given(
    alloc: Global,
    outer: &Names,
    given: &mut Table<Option<Constant>>,
    c: &NamedConnection,
) -> Result<(), AllocError>
    ensures { OnOk result (given.new ≡ with_given outer.now c.now given.old) }
{
    match &c.value {
        None => {}
        Some(e) => {
            let constant = given_constant(alloc, outer, e)?;
            given.put(&c.name.name, constant)?;
        }
    }
    Ok(())
}

fn constants_by_name(
    alloc: Global,
    outer: &Names,
    cs: &[NamedConnection],
) -> Result<Table<Option<Constant>>, AllocError>
    ensures { IfOk result (λ t. t ≡ given_by_name outer.now cs.now []) }
{
    let mut given = Table::new(alloc);
    for c in cs {
        add_given(alloc, outer, &mut given, c)?;
    }
    Ok(given)
}

fn connections_given(
    alloc: Global,
    outer: &Names,
    m: &Module,
    connections: &Connections,
) -> Result<Overrides, AllocError>
    ensures { IfOk result (λ o. o ≡ connections_given_of outer.now m.now connections.now) }
{
    match connections {
        Connections::Absent => Ok(Overrides::Absent),
        Connections::Ordered(es) => {
            let numbers = parameter_numbers(alloc, m)?;
            let values = constants_of(alloc, outer, es.as_slice())?;
            Ok(Overrides::Ordered(numbers, values))
        }
        Connections::Named(cs) => {
            let values = constants_by_name(alloc, outer, cs.as_slice())?;
            Ok(Overrides::Named(values))
        }
    }
}

/// What stands in `#( .. )` of an instance of a module, by the names of the module in which the instance stands.
pub fn overrides_of(
    alloc: Global,
    outer: &Names,
    m: &Module,
    overrides: &Option<Connections>,
) -> Result<Overrides, AllocError>
    ensures { IfOk result (λ o. o ≡ overrides_of_of outer.now m.now overrides.now) }
{
    match overrides {
        None => Ok(Overrides::Absent),
        Some(connections) => connections_given(alloc, outer, m, connections),
    }
}

fn given_or_own(found: Option<Option<Constant>>) -> Given
    ensures { result ≡ given_or_own_of found }
{
    match found {
        None => Given::Own,
        Some(c) => Given::Instead(c),
    }
}

fn at_number(values: &[Option<Constant>], n: Option<usize>) -> Given
    ensures { result ≡ at_number_of values.now n }
{
    match n {
        None => Given::Own,
        Some(n) => given_or_own(values.get(n).copied()),
    }
}

/// What is given for the parameter of a name.
pub fn given_for(overrides: &Overrides, name: &Name) -> Given
    ensures { result ≡ given_for_of overrides.now name.now }
{
    match overrides {
        Overrides::Absent => Given::Own,
        Overrides::Ordered(numbers, values) => at_number(values.as_slice(), numbers.find(name)),
        Overrides::Named(values) => given_or_own(values.find(name)),
    }
}
