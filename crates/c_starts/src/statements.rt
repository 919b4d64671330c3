//! Where statements begin (C99 6.8).

ghost use Rattle.std.specs.Prelude.{◌≡◌};
ghost use Rattle.c_tree.specs.Starts.{label_start as label_place, simple_start as simple_place, statement_start as statement_place};

use crate::expressions::{call_start, path_start};
use c_tree::{Label, Simple, Statement};
use src_text::Place;

/// The place of the first token of an assignment or a call.
pub fn simple_start(simple: &Simple) -> Place
    ensures { result ≡ simple_place simple.now }
{
    match simple {
        Simple::Assign(path, _) => path_start(path),
        Simple::Update(path, _, _) => path_start(path),
        Simple::StepAfter(path, _) => path_start(path),
        Simple::StepBefore(mark, _) => mark.place,
        Simple::Called(call) => call_start(call),
    }
}

/// The place of a label's word.
pub fn label_start(label: &Label) -> Place
    ensures { result ≡ label_place label.now }
{
    match label {
        Label::Case(place, _) => *place,
        Label::Default(place) => *place,
    }
}

/// The place of a statement's first token.
#[tactic(auto, using(crate::proofs::Equations::if_start, crate::proofs::Equations::if_else_start, crate::proofs::Equations::while_start, crate::proofs::Equations::do_start, crate::proofs::Equations::for_start))]
pub fn statement_start(statement: &Statement) -> Place
    ensures { result ≡ statement_place statement.now }
{
    match statement {
        Statement::Compound(place, _) => *place,
        Statement::Empty(place) => *place,
        Statement::Simple(simple) => simple_start(simple),
        Statement::If(place, _, _) => *place,
        Statement::IfElse(place, _, _, _) => *place,
        Statement::While(place, _, _) => *place,
        Statement::Do(place, _, _) => *place,
        Statement::For(place, _, _, _, _) => *place,
        Statement::Switch(place, _, _) => *place,
        Statement::Break(place) => *place,
        Statement::Continue(place) => *place,
        Statement::Return(place, _) => *place,
        Statement::Assert(place, _) => *place,
        Statement::CproverAssert(place, _) => *place,
        Statement::CproverAssume(place, _) => *place,
    }
}
