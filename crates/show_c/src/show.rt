//! Prints the parts of a tree that the rows are about.

use c_tree::{
    Block, BlockItem, CTree, Declarator, Expression, External, Group, Initializer, Statement,
};
use sqlite_items::Items;
use src_text::{Name, Place};
use std::io;

/// Prints a line for each external declaration: what it is, with the place of its name.
pub fn show<R: Print>(rt: &R, tree: &CTree) -> io::Result<()> {
    for external in tree.externals.as_slice() {
        show_external(rt, external)?;
    }
    Ok(())
}

fn show_name<R: Print>(rt: &R, what: &str, name: &Name, place: Place) -> io::Result<()> {
    let text = name.text();
    println!(rt; "  {what} {text} at {}:{}", place.line, place.column)
}

fn show_external<R: Print>(rt: &R, external: &External) -> io::Result<()> {
    match external {
        External::Struct(_, tag, _) => show_name(rt, "struct", &tag.name, tag.place),
        External::Mirror(_, _, name) => show_name(rt, "mirror", &name.name, name.place),
        External::Bound(_, _, name) => show_name(rt, "bound", &name.name, name.place),
        External::Function(head) => show_name(rt, "function", &head.name.name, head.name.place),
        External::Definition(head, block) => {
            show_name(rt, "definition", &head.name.name, head.name.place)?;
            show_block(rt, block)
        }
        External::Objects(globals) => show_objects(rt, globals.declarators.as_slice()),
    }
}

fn show_objects<R: Print>(rt: &R, declarators: &[Declarator]) -> io::Result<()> {
    for declarator in declarators {
        match declarator {
            Declarator::Plain(name) => show_name(rt, "object", &name.name, name.place)?,
            Declarator::Initialized(name, Initializer::Value(value)) => {
                show_name(rt, "object", &name.name, name.place)?;
                show_value(rt, value)?;
            }
            Declarator::Initialized(name, _) => {
                show_name(rt, "object with a call", &name.name, name.place)?;
            }
            Declarator::Array(name, len) => {
                show_name(rt, "array", &name.name, name.place)?;
                show_value(rt, len)?;
            }
            Declarator::InitializedArray(name, len, _) => {
                show_name(rt, "array with elements", &name.name, name.place)?;
                show_value(rt, len)?;
            }
        }
    }
    Ok(())
}

fn show_value<R: Print>(rt: &R, value: &Expression) -> io::Result<()> {
    print!(rt; "   ")?;
    show_expression(rt, value)?;
    println!(rt; "")
}

/// A literal with its place, and an operator between its operands, in parentheses.
fn show_expression<R: Print>(rt: &R, value: &Expression) -> io::Result<()> {
    match value {
        Expression::Integer(place, spelled) => {
            let text = spelled.text();
            print!(rt; " {text} at {}:{}", place.line, place.column)
        }
        Expression::Binary(left, mark, right) => {
            print!(rt; " (")?;
            show_expression(rt, left.get())?;
            print!(rt; " {:?}", mark.operator)?;
            show_expression(rt, right.get())?;
            print!(rt; " )")
        }
        Expression::Unary(mark, operand) => {
            print!(rt; " {:?}", mark.operator)?;
            show_expression(rt, operand.get())
        }
        Expression::Parentheses(_, inside) => {
            print!(rt; " [")?;
            show_expression(rt, inside.get())?;
            print!(rt; " ]")
        }
        _ => print!(rt; " .."),
    }
}

fn show_block<R: Print>(rt: &R, block: &Block) -> io::Result<()> {
    for item in block.items.as_slice() {
        match item {
            BlockItem::Local(local) => show_objects(rt, local.declarators.as_slice())?,
            BlockItem::Statement(Statement::Switch(_, _, groups)) => {
                show_groups(rt, groups.as_slice())?;
            }
            BlockItem::Statement(Statement::If(_, _, inner)) => {
                let holds = matches!(inner.get(), Statement::IfElse(_, _, _, _));
                println!(rt; "    if over if else: {holds}")?;
            }
            BlockItem::Statement(_) => println!(rt; "    statement")?,
        }
    }
    Ok(())
}

/// How many labels and statements each group has.
fn show_groups<R: Print>(rt: &R, groups: &[Group]) -> io::Result<()> {
    for group in groups {
        let labels = group.labels.len();
        let statements = group.body.len();
        println!(rt; "    group of {labels} labels, {statements} statements")?;
    }
    Ok(())
}
