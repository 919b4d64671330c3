//! The external declarations of a file, one after another (C99 6.9).

ghost use Rattle.std.specs.Prelude.{◌≡◌, ◌<◌, [], length, IfOk, OnOk};
ghost use Rattle.std.specs.List.{list_any};
ghost use Rattle.c_functions.specs.Tables.{function_number as function_number_of};
ghost use Rattle.c_types.specs.Externals.{file_known, FileGoes, with_struct_of, struct_offences_of, with_mirror_of, mirror_offences_of, with_bound_of, bound_offences_of, with_declaration, with_definition, with_objects, declaration_offences_of, definition_offences_of, objects_offences_of, external_known, external_offences, externals_known, externals_offences};
ghost use Rattle.c_types.specs.Files.{defines_main as defines_main_of, has_main as has_main_in, no_main_offences, main_name, at_start, c_offences, program_of, program_with};
ghost use Rattle.c_types.specs.Ends.{IsTypedFile, IsStart};

use c_functions::declarations::declaration;
use c_functions::definitions::{Made, definition};
use c_functions::heads::is_main;
use c_functions::table::{Table, function_number, tabulate};
use c_names::scope::Scopes;
use c_objects::objects;
use c_statements::walk::Typer;
use c_structs::{Structs, declare_bound};
use c_tree::{Block, CTree, External, FunctionHead, Globals, Identifier, Member, TypeName};
use c_words::Notes;
use joint_ir::{CProgram, VarList};
use offence_order::Offence;
use sqlite_items::Items;
use src_text::{Kind, Name};
use std::alloc::{AllocError, Global};

/// What is known between two external declarations.
#[derive(Drop)]
pub struct FileTyper {
    pub typer: Typer,
    pub made: Made,
    /// The file-scope objects so far.
    pub globals: VarList,
    pub structs: Structs,
}

/// A file that was gone through: what is wrong first, and its program, which stands only where nothing is.
#[derive(Drop)]
pub struct Typed {
    pub first: Option<Offence>,
    pub program: CProgram,
}

fn structure(file: &mut FileTyper, tag: &Identifier, members: &[Member]) -> Result<(), AllocError>
    ensures { OnOk result (FileGoes file.old file.new (struct_offences_of tag.now members.now (file_known file.old)) (with_struct_of tag.now members.now (file_known file.old))) }
{
    let alloc = file.typer.alloc;
    file.structs.declare(
        alloc,
        &file.typer.scopes,
        &mut file.typer.notes,
        tag,
        members,
    )?;
    Ok(())
}

fn mirror(file: &mut FileTyper, tag: &Identifier, name: &Identifier) -> Result<(), AllocError>
    ensures { OnOk result (FileGoes file.old file.new (mirror_offences_of tag.now name.now (file_known file.old)) (with_mirror_of tag.now name.now (file_known file.old))) }
{
    let alloc = file.typer.alloc;
    file.structs.mirror(
        alloc,
        &mut file.typer.scopes,
        &mut file.typer.notes,
        tag,
        name,
    )?;
    Ok(())
}

fn bound(file: &mut FileTyper, ty: &TypeName, name: &Identifier) -> Result<(), AllocError>
    ensures { OnOk result (FileGoes file.old file.new (bound_offences_of ty.now name.now (file_known file.old)) (with_bound_of name.now (file_known file.old))) }
{
    declare_bound(&mut file.typer.scopes, &mut file.typer.notes, ty, name)?;
    Ok(())
}

fn function(file: &mut FileTyper, names: &Scopes, head: &FunctionHead) -> Result<(), AllocError>
    requires { 0 < length file.old.typer.scopes }
    ensures { OnOk result (FileGoes file.old file.new (declaration_offences_of names.now head.now (file_known file.old)) (with_declaration names.now head.now (file_known file.old))) }
{
    declaration(&mut file.typer, names, head)?;
    Ok(())
}

fn defined(
    file: &mut FileTyper,
    names: &Scopes,
    head: &FunctionHead,
    body: &Block,
) -> Result<(), AllocError>
    requires { 0 < length file.old.typer.scopes }
    ensures { OnOk result (FileGoes file.old file.new (definition_offences_of names.now head.now body.now (file_known file.old)) (with_definition names.now head.now body.now (file_known file.old))) }
{
    definition(&mut file.typer, names, &mut file.made, head, body)?;
    Ok(())
}

fn globals(file: &mut FileTyper, declared: &Globals) -> Result<(), AllocError>
    ensures { OnOk result (FileGoes file.old file.new (objects_offences_of declared.now (file_known file.old)) (with_objects declared.now (file_known file.old))) }
{
    objects(&mut file.typer, &mut file.globals, declared)?;
    Ok(())
}

fn external(file: &mut FileTyper, names: &Scopes, x: &External) -> Result<(), AllocError>
    requires { 0 < length file.old.typer.scopes }
    ensures { OnOk result (FileGoes file.old file.new (external_offences names.now x.now (file_known file.old)) (external_known names.now x.now (file_known file.old))) }
{
    match x {
        External::Struct(_, tag, members) => {
            structure(file, tag, members.as_slice())?;
            Ok(())
        }
        External::Mirror(_, tag, name) => {
            mirror(file, tag, name)?;
            Ok(())
        }
        External::Bound(_, ty, name) => {
            bound(file, ty, name)?;
            Ok(())
        }
        External::Function(head) => {
            function(file, names, head)?;
            Ok(())
        }
        External::Definition(head, body) => {
            defined(file, names, head, body)?;
            Ok(())
        }
        External::Objects(declared) => {
            globals(file, declared)?;
            Ok(())
        }
    }
}

fn externals(file: &mut FileTyper, names: &Scopes, xs: &[External]) -> Result<(), AllocError>
    requires { 0 < length file.old.typer.scopes }
    ensures { OnOk result (FileGoes file.old file.new (externals_offences names.now xs.now (file_known file.old)) (externals_known names.now xs.now (file_known file.old))) }
{
    for x in xs {
        external(file, names, x)?;
    }
    Ok(())
}

fn defines_main(x: &External) -> bool
    ensures { result ≡ defines_main_of x.now }
{
    match x {
        External::Definition(head, _) => is_main(&head.name.name),
        _ => false,
    }
}

fn has_main(xs: &[External]) -> bool
    ensures { result ≡ has_main_in xs.now }
{
    xs.iter().any(|x| defines_main(x))
}

fn note_main(file: &mut FileTyper, tree: &CTree)
    ensures { FileGoes file.old file.new (no_main_offences tree.now) (file_known file.old) }
{
    if !has_main(tree.externals.as_slice()) {
        file.typer.notes.offence(tree.end, Kind::CNoMain);
    }
}

fn main_number(alloc: Global, names: &Scopes) -> Result<u32, AllocError>
    ensures { IfOk result (λ n. n ≡ function_number_of names.now main_name) }
{
    let name = Name::new(alloc, "main")?;
    Ok(function_number(names, &name))
}

fn program(file: FileTyper, main: u32) -> Typed
    ensures first { result.first ≡ file.typer.notes.first }
    ensures program { result.program ≡ program_with (file_known file) main }
{
    let FileTyper {
        typer,
        made,
        globals,
        structs,
    } = file;
    let Typer {
        alloc: _,
        signatures: _,
        scopes: _,
        locals,
        notes,
    } = typer;
    let Made { functions, props } = made;
    Typed {
        first: notes.first,
        program: CProgram {
            functions,
            globals,
            locals,
            mirror: structs.into_mirror(),
            props,
            main,
        },
    }
}

/// The names of a file's functions, and what is known before its first external declaration.
fn start(alloc: Global, xs: &[External]) -> Result<(Scopes, FileTyper), AllocError>
    ensures { IfOk result (λ s. IsStart xs.now s.0 s.1) }
{
    let Table {
        names,
        signatures,
        functions,
    } = tabulate(alloc, xs)?;
    let typer = Typer {
        alloc,
        signatures,
        scopes: Scopes::new(alloc),
        locals: Items::new(alloc),
        notes: Notes::new(alloc),
    };
    let made = Made {
        functions,
        props: Items::new(alloc),
    };
    let file = FileTyper {
        typer,
        made,
        globals: Items::new(alloc),
        structs: Structs::new(alloc),
    };
    Ok((names, file))
}

/// A file, gone through.
pub fn run(alloc: Global, tree: &CTree) -> Result<Typed, AllocError>
    ensures { IfOk result (λ t. IsTypedFile tree.now t) }
{
    let xs = tree.externals.as_slice();
    let (names, mut file) = start(alloc, xs)?;
    externals(&mut file, &names, xs)?;
    note_main(&mut file, tree);
    let main = main_number(alloc, &names)?;
    Ok(program(file, main))
}
