//! Parameters (IEEE 1364-2005, 4.10 and 12.2).

ghost use Rattle.std.specs.Prelude.{◌≡◌, IfOk, OnOk, IfSome};
ghost use Rattle.elab_declarations.specs.Shapes.{IsShape};
ghost use Rattle.std.specs.Prelude.{Some};
ghost use Rattle.elab_declarations.specs.declared.parameters.ParameterForm.TheVariants.{Ranged};
ghost use Rattle.elab_declarations.specs.Parameters.{converted as converted_of, unconverted as unconverted_of, parameter_of as parameter_of_of, form_of as form_of_of, IsForm, value_given as value_given_of, with_parameter, with_parameters, parameters_declared, localparams_declared};

use crate::overrides::{Given, Overrides, given_for};
use crate::shapes::range_shape;
use crate::values::given_constant;
use elab_names::constant::Constant;
use elab_names::names::{Entry, ParameterEntry, Shape};
use elab_names::scope::Names;
use std::alloc::{AllocError, Global};
use v_tree::{Expr, ParameterAssignment, ParameterDeclaration, ParameterRange};

/// What stands before the names of a declaration of parameters.
#[derive(Clone, Copy, Debug)]
pub enum ParameterForm {
    /// No range.
    Plain,
    /// Whether `signed` stands there, and the shape of the range where no offence leaves it open.
    Ranged(bool, Option<Shape>),
}

fn converted(signed: bool, s: Shape, c: Constant) -> ParameterEntry
    requires { IsShape s }
    ensures { result ≡ converted_of signed s c }
{
    ParameterEntry {
        constant: Constant {
            word: c.word.resize(s.bits, c.signed),
            signed,
        },
        low: s.low,
    }
}

fn converted_or_open(signed: bool, shape: Option<Shape>, c: Constant) -> Option<ParameterEntry>
    requires { IfSome shape IsShape }
    ensures { result ≡ parameter_of_of (Ranged signed shape) (Some c) }
{
    match shape {
        None => None,
        Some(s) => Some(converted(signed, s, c)),
    }
}

fn parameter_of(form: ParameterForm, value: Option<Constant>) -> Option<ParameterEntry>
    requires { IsForm form }
    ensures { result ≡ parameter_of_of form value }
{
    match value {
        None => None,
        Some(c) => match form {
            ParameterForm::Plain => Some(ParameterEntry {
                constant: c,
                low: 0,
            }),
            ParameterForm::Ranged(signed, shape) => converted_or_open(signed, shape, c),
        },
    }
}

fn form_of(
    alloc: Global,
    names: &Names,
    r: &Option<ParameterRange>,
) -> Result<ParameterForm, AllocError>
    ensures value { IfOk result (λ f. f ≡ form_of_of names.now r.now) }
    ensures form { IfOk result IsForm }
{
    match r {
        None => Ok(ParameterForm::Plain),
        Some(r) => {
            let shape = range_shape(alloc, names, &r.range)?;
            Ok(ParameterForm::Ranged(r.signed, shape))
        }
    }
}

fn value_given(
    alloc: Global,
    names: &Names,
    given: Given,
    e: &Expr,
) -> Result<Option<Constant>, AllocError>
    ensures { IfOk result (λ c. c ≡ value_given_of names.now given e.now) }
{
    match given {
        Given::Own => given_constant(alloc, names, e),
        Given::Instead(c) => Ok(c),
    }
}

fn declare_parameter(
    alloc: Global,
    names: &mut Names,
    form: ParameterForm,
    given: Given,
    p: &ParameterAssignment,
) -> Result<(), AllocError>
    requires { IsForm form }
    ensures { OnOk result (names.new ≡ with_parameter form given p.now names.old) }
{
    let value = value_given(alloc, names, given, &p.value)?;
    let entry = Entry::Parameter(parameter_of(form, value));
    names.declare(&p.name.name, entry)?;
    Ok(())
}

fn declare_each(
    alloc: Global,
    names: &mut Names,
    overrides: &Overrides,
    form: ParameterForm,
    parameters: &[ParameterAssignment],
) -> Result<(), AllocError>
    requires { IsForm form }
    ensures { OnOk result (names.new ≡ with_parameters overrides.now form parameters.now names.old) }
{
    for p in parameters {
        let given = given_for(overrides, &p.name.name);
        declare_parameter(alloc, names, form, given, p)?;
    }
    Ok(())
}

/// The parameters of `parameter ..;` are declared. A value that the instance gives stands in place of a parameter's own
/// (12.2). On want of memory the names are as some of the steps before left them.
pub fn declare_parameters(
    alloc: Global,
    names: &mut Names,
    overrides: &Overrides,
    d: &ParameterDeclaration,
) -> Result<(), AllocError>
    ensures { OnOk result (names.new ≡ parameters_declared overrides.now d.now names.old) }
{
    let form = form_of(alloc, names, &d.range)?;
    declare_each(alloc, names, overrides, form, d.parameters.as_slice())?;
    Ok(())
}

/// The parameters of `localparam ..;` are declared; no instance gives their values (4.10.2).
pub fn declare_localparams(
    alloc: Global,
    names: &mut Names,
    d: &ParameterDeclaration,
) -> Result<(), AllocError>
    ensures { OnOk result (names.new ≡ localparams_declared d.now names.old) }
{
    declare_parameters(alloc, names, &Overrides::Absent, d)?;
    Ok(())
}
