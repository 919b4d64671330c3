//! Statements, typed one after another (C99 6.8).

ghost use Rattle.std.specs.Prelude.{◌≡◌, ◌++◌, ◌<◌, [], length, IfOk, OnOk};
ghost use Rattle.c_tree.specs.Starts.{simple_start, path_start};
ghost use Rattle.c_statements.specs.Statements.{again_offences, declared_name as declared_name_of, pending as pending_in, value_typed, value_offences, value_sites, declarator_typed, declarator_offences, declarator_known, local_typed, local_offences, local_known, first_typed, first_offences, first_known, with_local, assert_typed, simple_stmt, condition_typed, condition_offences, condition_sites, step_typed, step_offences, step_sites, return_typed, return_offences, wrong_return, jump_offences, in_a_loop as in_a_loop_of, in_a_switch as in_a_switch_of, own as with_own, id_of, after_expression, option_init_typed, option_init_offences, option_init_sites, while_typed as while_typed_of, do_typed as do_typed_of, for_typed as for_typed_of};
ghost use Rattle.c_statements.specs.Switches.{labels_typed, labels_offences};
ghost use Rattle.c_statements.specs.Arrays.{declared_length, length_offences};
ghost use Rattle.c_statements.specs.Known.{more, enter as enter_of, leave_scope, with_scopes};
ghost use Rattle.c_statements.specs.Moves.{known_of, Goes};
ghost use Rattle.c_statements.specs.Walks.{AreDeclared, IsStmt, AreItems, IsItem, AreStmts, AreCases};
ghost use Rattle.c_names.specs.Scope.{declared_in};
ghost use Rattle.c_words.specs.Marks.{number_of};
ghost use Rattle.c_expressions.specs.Expressions.{typed_of, offences_in};
ghost use Rattle.c_statements.specs.Simple.{simple_sites, simple_offences};
ghost use Rattle.c_statements.specs.Calls.{init_typed, init_offences, init_sites};

use crate::arrays::{array_length, elements, note_excess, read_length};
use crate::calls::{Signature, initial};
use crate::labels::read_labels;
use crate::simple::simple;
use c_expressions::expressions::{converted_to, expression};
use c_names::scope::{Entry, Scopes, Target};
use c_tree::{
    BlockItem, Declarator, Expression, ForFirst, Group, Identifier, Initializer, Label, Local,
    Path, Simple, Statement,
};
use c_words::{INT, Notes, named, number, promoted};
use joint_ir::{
    Group as TypedGroup, GroupList, IntType, LabelList, PropId, PropKind, SNode, Slot, TExpr,
    TInit, TLoop, TStmt, TStmtList, Var, VarList,
};
use sqlite_items::{Boxed, Items};
use src_text::{Kind, Place};
use std::alloc::{AllocError, Global};

/// What is known at a place of a file.
#[derive(Drop)]
pub struct Typer {
    pub alloc: Global,
    /// Of all functions of the file, by number.
    pub signatures: Items<Signature>,
    pub scopes: Scopes,
    /// The parameters and automatic variables so far, in text order.
    pub locals: VarList,
    pub notes: Notes,
}

/// What stands round a statement.
#[derive(Clone, Copy, Debug, PartialEq, Eq)]
pub struct Around {
    /// What its function gives; None for `void`.
    pub result: Option<IntType>,
    pub in_loop: bool,
    pub may_break: bool,
}

fn in_a_loop(around: Around) -> Around
    ensures { result ≡ in_a_loop_of around }
{
    Around {
        result: around.result,
        in_loop: true,
        may_break: true,
    }
}

fn in_a_switch(around: Around) -> Around
    ensures { result ≡ in_a_switch_of around }
{
    Around {
        result: around.result,
        in_loop: around.in_loop,
        may_break: true,
    }
}

fn path_place(path: &Path) -> Place
    ensures { result ≡ path_start path.now }
{
    match path {
        Path::Object(o) => o.name.place,
        Path::Element(o, _, _) => o.name.place,
    }
}

fn start(s: &Simple) -> Place
    ensures { result ≡ simple_start s.now }
{
    match s {
        Simple::Assign(path, _) => path_place(path),
        Simple::Update(path, _, _) => path_place(path),
        Simple::StepAfter(path, _) => path_place(path),
        Simple::StepBefore(mark, _) => mark.place,
        Simple::Called(call) => call.name.place,
    }
}

fn declared_name(d: &Declarator) -> &Identifier
    ensures { result.now ≡ declared_name_of d.now }
{
    match d {
        Declarator::Plain(name) => name,
        Declarator::Initialized(name, _) => name,
        Declarator::Array(name, _) => name,
        Declarator::InitializedArray(name, _, _) => name,
    }
}

fn while_typed(alloc: Global, unwind: PropId, c: TExpr, body: TStmt) -> Result<SNode, AllocError>
    ensures { IfOk result (λ n. n ≡ while_typed_of unwind c body) }
{
    Ok(SNode::Loop(TLoop {
        tests_first: true,
        heads: Items::new(alloc),
        cond: Some(Boxed::new(alloc, c)?),
        step: None,
        body: Boxed::new(alloc, body)?,
        unwind,
    }))
}

fn do_typed(alloc: Global, unwind: PropId, c: TExpr, body: TStmt) -> Result<SNode, AllocError>
    ensures { IfOk result (λ n. n ≡ do_typed_of unwind c body) }
{
    Ok(SNode::Loop(TLoop {
        tests_first: false,
        heads: Items::new(alloc),
        cond: Some(Boxed::new(alloc, c)?),
        step: None,
        body: Boxed::new(alloc, body)?,
        unwind,
    }))
}

fn boxed_condition(alloc: Global, c: Option<TExpr>) -> Result<Option<Boxed<TExpr>>, AllocError>
    ensures { IfOk result (λ x. x ≡ c) }
{
    match c {
        None => Ok(None),
        Some(c) => Ok(Some(Boxed::new(alloc, c)?)),
    }
}

fn boxed_step(alloc: Global, s: Option<TStmt>) -> Result<Option<Boxed<TStmt>>, AllocError>
    ensures { IfOk result (λ x. x ≡ s) }
{
    match s {
        None => Ok(None),
        Some(s) => Ok(Some(Boxed::new(alloc, s)?)),
    }
}

fn for_typed(
    alloc: Global,
    unwind: PropId,
    heads: TStmtList,
    c: Option<TExpr>,
    s: Option<TStmt>,
    body: TStmt,
) -> Result<SNode, AllocError>
    ensures { IfOk result (λ n. n ≡ for_typed_of unwind heads c s body) }
{
    let cond = boxed_condition(alloc, c)?;
    let step = boxed_step(alloc, s)?;
    Ok(SNode::Loop(TLoop {
        tests_first: true,
        heads,
        cond,
        step,
        body: Boxed::new(alloc, body)?,
        unwind,
    }))
}

impl Typer {
    /// A property of a statement's own.
    pub fn own(&mut self, kind: PropKind, place: Place) -> Result<PropId, AllocError>
        ensures id { IfOk result (λ i. i ≡ id_of (known_of self.old)) }
        ensures goes { OnOk result (Goes self.old self.new [] (with_own kind place (known_of self.old))) }
    {
        let id = PropId(number(self.notes.sites.len()));
        self.notes.site(kind, place)?;
        Ok(id)
    }

    fn value(&mut self, e: &Expression) -> Result<TExpr, AllocError>
        ensures typed { IfOk result (λ t. t ≡ typed_of self.old.scopes (length self.old.notes.sites) e.now) }
        ensures goes { OnOk result (Goes self.old self.new (offences_in self.old.scopes e.now) (after_expression e.now (known_of self.old))) }
    {
        let t = expression(self.alloc, &self.scopes, &mut self.notes, e)?;
        Ok(t)
    }

    fn alone(&mut self, s: &Simple) -> Result<TStmt, AllocError>
        ensures typed { IfOk result (λ t. t ≡ simple_stmt (known_of self.old) s.now) }
        ensures goes { OnOk result (Goes self.old self.new (simple_offences self.old.signatures self.old.scopes s.now) (more (known_of self.old) (simple_sites self.old.scopes s.now))) }
    {
        let node = simple(
            self.alloc,
            self.signatures.as_slice(),
            &self.scopes,
            &mut self.notes,
            s,
        )?;
        Ok(TStmt {
            place: start(s),
            node,
        })
    }

    fn condition(&mut self, c: &Option<Expression>) -> Result<Option<TExpr>, AllocError>
        ensures typed { IfOk result (λ t. t ≡ condition_typed (known_of self.old) c.now) }
        ensures goes { OnOk result (Goes self.old self.new (condition_offences (known_of self.old) c.now) (more (known_of self.old) (condition_sites (known_of self.old) c.now))) }
    {
        match c {
            None => Ok(None),
            Some(e) => {
                let t = self.value(e)?;
                Ok(Some(t))
            }
        }
    }

    fn last(&mut self, s: &Option<Simple>) -> Result<Option<TStmt>, AllocError>
        ensures typed { IfOk result (λ t. t ≡ step_typed (known_of self.old) s.now) }
        ensures goes { OnOk result (Goes self.old self.new (step_offences (known_of self.old) s.now) (more (known_of self.old) (step_sites (known_of self.old) s.now))) }
    {
        match s {
            None => Ok(None),
            Some(s) => {
                let t = self.alone(s)?;
                Ok(Some(t))
            }
        }
    }

    /// What an object is set to, if anything.
    fn option(&mut self, ty: IntType, i: &Option<Initializer>) -> Result<TInit, AllocError>
        ensures typed { IfOk result (λ t. t ≡ option_init_typed self.old.signatures self.old.scopes (length self.old.notes.sites) ty i.now) }
        ensures goes { OnOk result (Goes self.old self.new (option_init_offences self.old.signatures self.old.scopes i.now) (more (known_of self.old) (option_init_sites self.old.scopes i.now))) }
    {
        match i {
            None => Ok(TInit::Free),
            Some(i) => {
                let t = self.init(ty, i)?;
                Ok(t)
            }
        }
    }

    fn init(&mut self, ty: IntType, i: &Initializer) -> Result<TInit, AllocError>
        ensures typed { IfOk result (λ t. t ≡ init_typed self.old.signatures self.old.scopes (length self.old.notes.sites) ty i.now) }
        ensures goes { OnOk result (Goes self.old self.new (init_offences self.old.signatures self.old.scopes i.now) (more (known_of self.old) (init_sites self.old.scopes i.now))) }
    {
        let t = initial(
            self.alloc,
            self.signatures.as_slice(),
            &self.scopes,
            &mut self.notes,
            ty,
            i,
        )?;
        Ok(t)
    }

    fn jump(&mut self, place: Place, allowed: bool)
        ensures { Goes self.old self.new (jump_offences place allowed) (known_of self.old) }
    {
        if !allowed {
            self.notes.offence(place, Kind::CJump);
        }
    }

    fn note_return(&mut self, place: Place, wanted: Option<IntType>, given: bool)
        ensures { Goes self.old self.new (wrong_return place wanted given) (known_of self.old) }
    {
        if wanted.is_some() != given {
            self.notes.offence(place, Kind::CReturn);
        }
    }

    fn give_back(
        &mut self,
        place: Place,
        wanted: Option<IntType>,
        i: &Option<Initializer>,
    ) -> Result<SNode, AllocError>
        ensures typed { IfOk result (λ t. t ≡ return_typed (known_of self.old) wanted i.now) }
        ensures goes { OnOk result (Goes self.old self.new (return_offences place wanted i.now ++ option_init_offences self.old.signatures self.old.scopes i.now) (more (known_of self.old) (option_init_sites self.old.scopes i.now))) }
    {
        self.note_return(place, wanted, i.is_some());
        match i {
            None => Ok(SNode::Return(None)),
            Some(i) => {
                let t = self.init(wanted.unwrap_or(INT), i)?;
                Ok(SNode::Return(Some(t)))
            }
        }
    }

    fn again(&mut self, place: Place, before: Option<Entry>)
        ensures { Goes self.old self.new (again_offences place before) (known_of self.old) }
    {
        if before.is_some() {
            self.notes.offence(place, Kind::CRedeclared);
        }
    }

    /// A name that is declared and means nothing yet.
    pub fn begin(&mut self, name: &Identifier) -> Result<(), AllocError>
        ensures { OnOk result (Goes self.old self.new (again_offences name.now.place (declared_in self.old.scopes name.now.name)) (with_scopes (known_of self.old) (pending_in (known_of self.old) name.now))) }
    {
        let before = self.scopes.find_inner(&name.name);
        self.again(name.place, before);
        self.scopes.declare(&name.name, Entry::Pending)?;
        Ok(())
    }

    /// The length of a declared array; 0 for what is no array.
    fn measure(&mut self, d: &Declarator) -> Result<u32, AllocError>
        ensures length { IfOk result (λ n. n ≡ declared_length d.now) }
        ensures goes { OnOk result (Goes self.old self.new (length_offences self.old.scopes d.now) (known_of self.old)) }
    {
        match d {
            Declarator::Plain(_) | Declarator::Initialized(_, _) => Ok(0),
            Declarator::Array(_, n) => {
                let c = read_length(self.alloc, &self.scopes, &mut self.notes, n)?;
                Ok(array_length(c))
            }
            Declarator::InitializedArray(_, n, es) => {
                let c = read_length(self.alloc, &self.scopes, &mut self.notes, n)?;
                note_excess(&mut self.notes, c, es.as_slice());
                Ok(array_length(c))
            }
        }
    }

    /// What a declarator sets its object to.
    fn declared_value(&mut self, ty: IntType, d: &Declarator) -> Result<TInit, AllocError>
        ensures typed { IfOk result (λ t. t ≡ value_typed self.old.signatures self.old.scopes (length self.old.notes.sites) ty d.now) }
        ensures goes { OnOk result (Goes self.old self.new (value_offences self.old.signatures self.old.scopes d.now) (more (known_of self.old) (value_sites self.old.scopes d.now))) }
    {
        match d {
            Declarator::Plain(_) | Declarator::Array(_, _) => Ok(TInit::Free),
            Declarator::Initialized(_, i) => {
                let t = self.init(ty, i)?;
                Ok(t)
            }
            Declarator::InitializedArray(_, _, es) => {
                let es = es.as_slice();
                let ts = elements(self.alloc, &self.scopes, &mut self.notes, ty, es)?;
                Ok(TInit::Values(ts))
            }
        }
    }

    /// The object of a name whose initializer was seen.
    pub fn finish(
        &mut self,
        ty: IntType,
        count: u32,
        constant: bool,
        name: &Identifier,
    ) -> Result<u32, AllocError>
        ensures slot { IfOk result (λ n. n ≡ number_of (length self.old.locals)) }
        ensures goes { OnOk result (Goes self.old self.new [] (with_local (known_of self.old) ty count constant name.now)) }
    {
        let slot = number(self.locals.len());
        self.locals.push(Var {
            name: name.name.clone()?,
            ty,
            length: count,
            firsts: Items::new(self.alloc),
            constant,
        })?;
        let target = Target {
            slot: Slot::Local(slot),
            ty,
            length: count,
            constant,
        };
        self.scopes.declare(&name.name, Entry::Object(target))?;
        Ok(slot)
    }

    fn declarator(
        &mut self,
        ty: IntType,
        constant: bool,
        d: &Declarator,
    ) -> Result<TStmt, AllocError>
        ensures typed { IfOk result (λ t. t ≡ declarator_typed ty (known_of self.old) d.now) }
        ensures goes { OnOk result (Goes self.old self.new (declarator_offences (known_of self.old) d.now) (declarator_known ty constant d.now (known_of self.old))) }
    {
        let name = declared_name(d);
        let count = self.measure(d)?;
        self.begin(name)?;
        let init = self.declared_value(ty, d)?;
        let slot = self.finish(ty, count, constant, name)?;
        Ok(TStmt {
            place: name.place,
            node: SNode::Declare(slot, init),
        })
    }

    fn declarators(
        &mut self,
        ty: IntType,
        constant: bool,
        ds: &[Declarator],
    ) -> Result<TStmtList, AllocError>
        ensures { IfOk result (λ ts. AreDeclared ty constant self.old self.new ds.now ts) }
    {
        let mut typed = Items::new(self.alloc);
        for d in ds {
            let t = self.declarator(ty, constant, d)?;
            typed.push(t)?;
        }
        Ok(typed)
    }

    /// One declaration for each declared name.
    fn local(&mut self, l: &Local) -> Result<TStmtList, AllocError>
        ensures typed { IfOk result (λ ts. ts ≡ local_typed (known_of self.old) l.now) }
        ensures goes { OnOk result (Goes self.old self.new (local_offences (known_of self.old) l.now) (local_known l.now (known_of self.old))) }
    {
        let ty = named(l.type_name.integer);
        let constant = l.constant.is_some();
        let ts = self.declarators(ty, constant, l.declarators.as_slice())?;
        Ok(ts)
    }

    /// The first part of a `for`.
    fn first(&mut self, first: &ForFirst) -> Result<TStmtList, AllocError>
        ensures typed { IfOk result (λ ts. ts ≡ first_typed (known_of self.old) first.now) }
        ensures goes { OnOk result (Goes self.old self.new (first_offences (known_of self.old) first.now) (first_known first.now (known_of self.old))) }
    {
        match first {
            ForFirst::Nothing => Ok(Items::new(self.alloc)),
            ForFirst::Local(l) => {
                let ts = self.local(l)?;
                Ok(ts)
            }
            ForFirst::Simple(s) => {
                let t = self.alone(s)?;
                let ts = Items::from_vec(vec![in self.alloc; t]?);
                Ok(ts)
            }
        }
    }

    /// The labels of a group of a `switch`.
    fn labels(
        &mut self,
        ty: IntType,
        seen: &mut LabelList,
        labels: &[Label],
    ) -> Result<LabelList, AllocError>
        ensures typed { IfOk result (λ ls. ls ≡ labels_typed ty labels.now) }
        ensures seen { OnOk result (seen.new ≡ seen.old ++ labels_typed ty labels.now) }
        ensures goes { OnOk result (Goes self.old self.new (labels_offences self.old.scopes ty seen.old labels.now) (known_of self.old)) }
    {
        let ls = read_labels(self.alloc, &self.scopes, &mut self.notes, ty, seen, labels)?;
        Ok(ls)
    }

    /// Begins a scope.
    pub fn enter(&mut self) -> Result<(), AllocError>
        ensures { OnOk result (Goes self.old self.new [] (enter_of (known_of self.old))) }
    {
        self.scopes.enter()?;
        Ok(())
    }

    /// Leaves a block: what was declared in it is known no more.
    pub fn leave(&mut self)
        requires { 1 < length self.old.scopes }
        ensures { Goes self.old self.new [] (leave_scope (known_of self.old)) }
    {
        self.scopes.leave();
    }

    /// A statement.
    #[cycle(walk)]
    pub fn statement(&mut self, around: Around, s: &Statement) -> Result<TStmt, AllocError>
        requires { 0 < length self.old.scopes }
        ensures { IfOk result (λ t. IsStmt around self.old self.new s.now t) }
    {
        match s {
            Statement::Compound(place, items) => {
                self.enter()?;
                let ts = self.items(around, items.as_slice())?;
                self.leave();
                Ok(TStmt {
                    place: *place,
                    node: SNode::Block(ts),
                })
            }
            Statement::Empty(place) => Ok(TStmt {
                place: *place,
                node: SNode::Block(Items::new(self.alloc)),
            }),
            Statement::Simple(x) => {
                let t = self.alone(x)?;
                Ok(t)
            }
            Statement::If(place, c, a) => {
                let x = self.value(c)?;
                let t = self.statement(around, a.get())?;
                Ok(TStmt {
                    place: *place,
                    node: SNode::If(Boxed::new(self.alloc, x)?, Boxed::new(self.alloc, t)?, None),
                })
            }
            Statement::IfElse(place, c, a, b) => {
                let x = self.value(c)?;
                let t = self.statement(around, a.get())?;
                let u = self.statement(around, b.get())?;
                let other = Boxed::new(self.alloc, u)?;
                Ok(TStmt {
                    place: *place,
                    node: SNode::If(
                        Boxed::new(self.alloc, x)?,
                        Boxed::new(self.alloc, t)?,
                        Some(other),
                    ),
                })
            }
            Statement::While(place, c, a) => {
                let id = self.own(PropKind::Unwind, *place)?;
                let x = self.value(c)?;
                let t = self.statement(in_a_loop(around), a.get())?;
                let node = while_typed(self.alloc, id, x, t)?;
                Ok(TStmt {
                    place: *place,
                    node,
                })
            }
            Statement::For(place, head, c, last, a) => {
                self.enter()?;
                let id = self.own(PropKind::Unwind, *place)?;
                let heads = self.first(head)?;
                let x = self.condition(c)?;
                let step = self.last(last)?;
                let t = self.statement(in_a_loop(around), a.get())?;
                self.leave();
                let node = for_typed(self.alloc, id, heads, x, step, t)?;
                Ok(TStmt {
                    place: *place,
                    node,
                })
            }
            Statement::Break(place) => {
                self.jump(*place, around.may_break);
                Ok(TStmt {
                    place: *place,
                    node: SNode::Break,
                })
            }
            Statement::Continue(place) => {
                self.jump(*place, around.in_loop);
                Ok(TStmt {
                    place: *place,
                    node: SNode::Continue,
                })
            }
            Statement::Return(place, i) => {
                let node = self.give_back(*place, around.result, i)?;
                Ok(TStmt {
                    place: *place,
                    node,
                })
            }
            Statement::Assert(place, e) => {
                let t = self.assertion(*place, e)?;
                Ok(t)
            }
            Statement::CproverAssert(place, e) => {
                let t = self.assertion(*place, e)?;
                Ok(t)
            }
            Statement::CproverAssume(place, e) => {
                let x = self.value(e)?;
                Ok(TStmt {
                    place: *place,
                    node: SNode::Assume(Boxed::new(self.alloc, x)?),
                })
            }
            Statement::Do(place, a, c) => {
                let id = self.own(PropKind::Unwind, *place)?;
                let t = self.statement(in_a_loop(around), a.get())?;
                let x = self.value(c)?;
                let node = do_typed(self.alloc, id, x, t)?;
                Ok(TStmt {
                    place: *place,
                    node,
                })
            }
            Statement::Switch(place, e, groups) => {
                let x = self.value(e)?;
                let ty = promoted(x.ty);
                let test = converted_to(self.alloc, ty, x)?;
                let cases = self.cases(in_a_switch(around), ty, groups.as_slice())?;
                Ok(TStmt {
                    place: *place,
                    node: SNode::Switch(Boxed::new(self.alloc, test)?, cases),
                })
            }
        }
    }

    /// The parts of a block.
    #[cycle(walk)]
    pub fn items(&mut self, around: Around, items: &[BlockItem]) -> Result<TStmtList, AllocError>
        requires { 0 < length self.old.scopes }
        ensures { IfOk result (λ ts. AreItems around self.old self.new items.now ts) }
    {
        let mut typed = Items::new(self.alloc);
        for x in items {
            let ts = self.item(around, x)?;
            typed.append(ts)?;
        }
        Ok(typed)
    }

    /// The groups of a `switch` over a type.
    #[cycle(walk)]
    fn cases(
        &mut self,
        around: Around,
        ty: IntType,
        groups: &[Group],
    ) -> Result<GroupList, AllocError>
        requires { 0 < length self.old.scopes }
        ensures { IfOk result (λ ts. AreCases around ty self.old self.new groups.now ts) }
    {
        let mut seen = Items::new(self.alloc);
        let mut typed = Items::new(self.alloc);
        for g in groups {
            let labels = self.labels(ty, &mut seen, g.labels.as_slice())?;
            let body = self.statements(around, g.body.as_slice())?;
            typed.push(TypedGroup { labels, body })?;
        }
        Ok(typed)
    }

    #[cycle(walk)]
    fn statements(&mut self, around: Around, xs: &[Statement]) -> Result<TStmtList, AllocError>
        requires { 0 < length self.old.scopes }
        ensures { IfOk result (λ ts. AreStmts around self.old self.new xs.now ts) }
    {
        let mut typed = Items::new(self.alloc);
        for x in xs {
            let t = self.statement(around, x)?;
            typed.push(t)?;
        }
        Ok(typed)
    }

    #[cycle(walk)]
    fn item(&mut self, around: Around, x: &BlockItem) -> Result<TStmtList, AllocError>
        requires { 0 < length self.old.scopes }
        ensures { IfOk result (λ ts. IsItem around self.old self.new x.now ts) }
    {
        match x {
            BlockItem::Local(l) => {
                let ts = self.local(l)?;
                Ok(ts)
            }
            BlockItem::Statement(s) => {
                let t = self.statement(around, s)?;
                let ts = Items::from_vec(vec![in self.alloc; t]?);
                Ok(ts)
            }
        }
    }

    fn assertion(&mut self, place: Place, e: &Expression) -> Result<TStmt, AllocError>
        ensures typed { IfOk result (λ t. t ≡ assert_typed place (known_of self.old) e.now) }
        ensures goes { OnOk result (Goes self.old self.new (offences_in self.old.scopes e.now) (after_expression e.now (with_own PropKind.Assertion place (known_of self.old)))) }
    {
        let id = self.own(PropKind::Assertion, place)?;
        let x = self.value(e)?;
        Ok(TStmt {
            place,
            node: SNode::Assert(Boxed::new(self.alloc, x)?, id),
        })
    }
}
