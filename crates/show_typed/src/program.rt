//! Prints a typed program: its properties, objects, mirror and functions.

use crate::expressions::print_type;
use crate::statements::print_statement;
use joint_ir::{CProgram, Function, IntType, Member, Prop, Var, naming};
use std::io;

/// A program, each list from number 0 on.
pub fn print_program<R: Print + AllocGlobal>(rt: &R, program: &CProgram) -> io::Result<()> {
    for (number, prop) in program.props.as_slice().iter().enumerate() {
        print_property(rt, number, prop)?;
    }
    print_objects(rt, "global", program.globals.as_slice())?;
    print_objects(rt, "local", program.locals.as_slice())?;
    if let Some(mirror) = &program.mirror {
        println!(rt; "mirror {}", mirror.name.text())?;
        for (number, member) in mirror.members.as_slice().iter().enumerate() {
            print_member(rt, number, member)?;
        }
    }
    for (number, function) in program.functions.as_slice().iter().enumerate() {
        print_function(rt, number, function)?;
    }
    println!(rt; "main is function{}", program.main)
}

fn print_property<R: Print + AllocGlobal>(rt: &R, number: usize, prop: &Prop) -> io::Result<()> {
    let mut name = String::new(rt.alloc());
    naming::push_name(&mut name, prop)?;
    println!(rt; "{{{number}}} {name} line {}", prop.line)
}

fn print_objects<R: Print>(rt: &R, kind: &str, objects: &[Var]) -> io::Result<()> {
    for (number, object) in objects.iter().enumerate() {
        print!(rt; "{kind}{number} ")?;
        if object.constant {
            print!(rt; "const ")?;
        }
        print_type(rt, object.ty)?;
        print!(rt; " {}", object.name.text())?;
        print_length(rt, object.length)?;
        for first in object.firsts.as_slice() {
            print!(rt; " {first}")?;
        }
        println!(rt; "")?;
    }
    Ok(())
}

fn print_length<R: Print>(rt: &R, length: u32) -> io::Result<()> {
    if length == 0 {
        return Ok(());
    }
    print!(rt; "[{length}]")
}

fn print_result<R: Print>(rt: &R, ty: Option<IntType>) -> io::Result<()> {
    match ty {
        None => print!(rt; "void"),
        Some(ty) => print_type(rt, ty),
    }
}

fn print_member<R: Print>(rt: &R, number: usize, member: &Member) -> io::Result<()> {
    print!(rt; "member{number} ")?;
    match member.ty {
        None => print!(rt; "struct")?,
        Some(ty) => print_type(rt, ty)?,
    }
    print!(rt; " {}", member.path.text())?;
    print_length(rt, member.length)?;
    println!(rt; "")
}

fn print_function<R: Print>(rt: &R, number: usize, function: &Function) -> io::Result<()> {
    print!(rt; "function{number} ")?;
    print_result(rt, function.result)?;
    print!(rt; " {}", function.name.text())?;
    match &function.body {
        None => println!(rt; " without body"),
        Some(body) => {
            println!(rt;
                " with {} parameters from local{}",
                function.params, function.first
            )?;
            print_statement(rt, 0, body)
        }
    }
}
