//! Activations of functions: what begins one, and what ends it (C99 6.5.2.2, 6.9.1).

ghost use Rattle.std.specs.Prelude.{◌≡◌, ℕ, List, ◌+◌, ◌<◌, ◌≤◌, ◌^◌, ◌++◌, ◌∷◌, [], eqb, count_by, length, IfOk, IfErr, OnOk, IfSome};
ghost use Rattle.joint_ir.specs.Effects.{Goes, nothing};
ghost use Rattle.joint_ir.specs.States.{Store};
ghost use Rattle.joint_ir.specs.Statements.{after_body, closing, is_below_limit, set_params as params_set};
ghost use Rattle.joint_ir.specs.Types.{IsType};
ghost use Rattle.joint_ir.specs.WellFormed.{IsWellFormed};
ghost use Rattle.joint_value.specs.Elements.{part_of, replaced};
ghost use Rattle.joint_value.specs.Evaluable.{KeepsTypes};
ghost use Rattle.joint_machine.specs.Moments.{Passes, AreParams, IsKept, IsReady};

use crate::machine::Machine;
use crate::setting::Activation;
use joint_ir::{Function, IntType, Pair, Way, lookup};
use joint_value::Rows;
use joint_view::Halt;
use std::alloc::Global;

impl Machine {
    /// Whether a function may have one more activation under its limit.
    pub fn may_enter(&self, at: &Activation, function: u32, callee: &Function) -> bool
        requires { IsWellFormed at.now.pair.now }
        ensures { result ≡ is_below_limit at.now.pair.now at.now.bounds.now self.now.standing.items function callee.now }
    {
        let limit = lookup::limit(at.bounds, lookup::recursion(&at.pair.program, callee));
        self.activations(function) < limit as usize
    }

    /// The number of activations of a function that stand.
    fn activations(&self, function: u32) -> usize
        ensures { result ≡ count_by (λ g. eqb function g) self.now.standing.items }
    {
        let mut n = 0;
        for g in &self.standing {
            if *g == function {
                n += 1;
            }
        }
        n
    }

    /// An activation begins: its parameters take the arguments. The function's own objects stand in `locals` from `first`
    /// up to `end`. Gives them as the caller has them.
    pub fn begin(
        &mut self,
        alloc: Global,
        line: u32,
        function: u32,
        first: u32,
        end: usize,
        args: &[i128],
    ) -> Result<Rows, Halt>
        requires few { first + length args.now < 2 ^ 32 }
        requires from { first ≤ end }
        ensures does { Passes result self.old self.new (params_set line first args.now) }
        ensures saved { IfOk result (λ rows. rows ≡ part_of first end self.old.store.locals) }
        ensures choices { self.new.choices ≡ self.old.choices }
        ensures standing { IfOk result (λ _. self.new.standing.items ≡ self.old.standing.items ++ function ∷ []) }
        ensures ready { IfOk result (λ _. (pair : Pair) → AreParams pair.program first args.now → IsReady pair self.old → IsReady pair self.new) }
    {
        let saved = self.store.locals().part(alloc, first as usize, end)?;
        push_function(&mut self.standing, function)?;
        self.set_params(line, first, args)?;
        Ok(saved)
    }

    /// An activation ends: the caller's objects are back, from `first` on. Where no `return` was met its result is that at the
    /// closing brace.
    pub fn leave(
        &mut self,
        first: u32,
        saved: Rows,
        is_main: bool,
        ty: Option<IntType>,
        way: Way,
    ) -> Result<(), Halt>
        requires typed { IfSome ty IsType }
        requires room { first + length saved ≤ length self.old.store.locals }
        ensures does { Passes result self.old self.new (λ s c. after_body is_main ty (replaced first saved self.old.store.locals) (Goes way s nothing c)) }
        ensures choices { self.new.choices ≡ self.old.choices }
        ensures standing { (before : List ℕ) (f : ℕ) → self.old.standing.items ≡ before ++ f ∷ [] → self.new.standing.items ≡ before }
        ensures ready { IfOk result (λ _. (pair : Pair) (caller : Store) → IsReady pair self.old → KeepsTypes pair.program caller → replaced first saved self.old.store.locals ≡ caller.locals → IsReady pair self.new) }
    {
        self.store.put_back(first as usize, saved);
        self.standing.pop();
        match way {
            Way::Returning => Ok(()),
            _ => self.close(is_main, ty),
        }
    }

    /// The result of a function at its closing brace: any value, but 0 for `main` (C99 5.1.2.2.3, 6.9.1p12).
    fn close(&mut self, is_main: bool, ty: Option<IntType>) -> Result<(), Halt>
        requires { IfSome ty IsType }
        ensures does { Passes result self.old self.new (closing is_main ty) }
        ensures kept { IsKept self.old self.new }
        ensures ready { IfOk result (λ _. (pair : Pair) → IsReady pair self.old → IsReady pair self.new) }
    {
        if is_main {
            self.returned = 0;
            return Ok(());
        }
        match ty {
            None => self.returned = 0,
            Some(ty) => self.returned = self.any_number(ty)?,
        }
        Ok(())
    }
}

/// One more activation stands.
fn push_function(standing: &mut Vec<u32>, function: u32) -> Result<(), Halt>
    ensures pushed { OnOk result (standing.new.items ≡ standing.old.items ++ function ∷ []) }
    ensures memory { IfErr result (λ h. h ≡ Halt.Memory) }
{
    match standing.push(function) {
        Ok(()) => Ok(()),
        Err(_) => Err(Halt::Memory),
    }
}
