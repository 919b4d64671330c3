//! What statements do without calls.

ghost use Rattle.std.specs.Prelude.{◌≡◌, ◌<◌, ◌^◌, [], ◌+◌, length, map, drop, All, IfOk, IfSome, pos, IsSome, MatchOption, slice_index_or, if◌then◌else◌};
ghost use Rattle.joint_ir.specs.Effects.{with_values, with_value, draw as drawn, broken, nothing, Stops, Goes};
ghost use Rattle.joint_ir.specs.declared.way.Way.TheVariants.{Next};
ghost use Rattle.joint_ir.specs.Steps.{rows_in, with_index, within_bounds, store_at, update_effect, slot_type as type_of, free_elements as free_elements_of, set_elements as set_elements_of, element_of, right_value, first_value};
ghost use Rattle.joint_ir.specs.Statements.{set_params as params_set, any_result as any_result_of, condition_value};
ghost use Rattle.joint_ir.specs.Types.{InRange, IsType, converted as converted_to};
ghost use Rattle.joint_ir.specs.Values.{value_of, binary_value, is_zero};
ghost use Rattle.joint_ir.specs.WellFormed.{FitsExpr, FitsOption, FitsTarget, FitsUpdate, IsWellFormed, right_type};
ghost use Rattle.joint_ir.specs.States.{rows_of};
ghost use Rattle.joint_machine.specs.Moments.{Passes, Finds, IsKept, IsReady, Stands, InTypes, AreParams, setting_of, state_of};

use crate::machine::{Machine, or_break};
use crate::setting::Activation;
use joint_ir::{IntType, Outcome, Pair, PropId, Slot, TExpr, TTarget, TUpdate, ValueList, lookup};
use joint_value::arith;
use joint_view::Halt;
use sqlite_items::Boxed;
use std::alloc::Global;

impl Machine {
    /// The values of arguments, from left to right.
    pub fn arguments(
        &self,
        alloc: Global,
        at: &Activation,
        args: &[TExpr],
    ) -> Result<ValueList, Halt>
        requires well { IsWellFormed at.now.pair.now }
        requires ready { IsReady at.now.pair.now self.now }
        requires fits { Stands at.now.pair.now at.now.here (λ c. All (FitsExpr c) args.now) }
        ensures finds { Finds result self.now self.now (λ go s c. with_values (rows_in (setting_of at.now) s) args.now c (λ ns. go ns s c)) }
        ensures ranges { IfOk result (λ ns. InTypes (map (λ e. e.ty) args.now) ns) }
    {
        let mut numbers = ValueList::new(alloc);
        for e in args {
            let n = self.value(at, e)?;
            numbers.push(n)?;
        }
        Ok(numbers)
    }

    /// The value of an index, if there is one.
    pub fn index(&self, at: &Activation, index: &Option<Boxed<TExpr>>) -> Result<Option<i128>, Halt>
        requires well { IsWellFormed at.now.pair.now }
        requires ready { IsReady at.now.pair.now self.now }
        requires fits { Stands at.now.pair.now at.now.here (λ c. IfSome index.now (FitsExpr c)) }
        ensures finds { Finds result self.now self.now (λ go s c. with_index (setting_of at.now) index.now s c (λ i. go i s c)) }
        ensures there { IfOk result (λ i. IsSome i → IsSome index.now) }
    {
        match index {
            None => Ok(None),
            Some(e) => {
                let i = self.value(at, e.get())?;
                Ok(Some(i))
            }
        }
    }

    /// The index as a place in the array, where it is within it.
    pub fn within(
        &self,
        at: &Activation,
        target: &TTarget,
        index: Option<i128>,
    ) -> Result<Option<u32>, Halt>
        requires { IsSome index → IsSome target.now.bounds }
        ensures finds { Finds result self.now self.now (λ go s c. within_bounds (setting_of at.now) target.now index s c (λ i. go i s c)) }
    {
        let Some(index) = index else {
            return Ok(None);
        };
        let length = self.store.length(at.bounds.frames, target.slot);
        if index < 0 || index >= length as i128 {
            return Err(outside(target));
        }
        // No array has as many elements as a place doesn't count.
        match u32::try_from(index) {
            Ok(place) => Ok(Some(place)),
            Err(_) => Err(Halt::Memory),
        }
    }

    /// Stores a number into a target, whose index was evaluated before it.
    pub fn store_into(
        &mut self,
        at: &Activation,
        target: &TTarget,
        index: Option<i128>,
        number: i128,
    ) -> Result<(), Halt>
        requires well { IsWellFormed at.now.pair.now }
        requires ready { IsReady at.now.pair.now self.old }
        requires fits { Stands at.now.pair.now at.now.here (λ c. FitsTarget c target.now) }
        requires checked { IsSome index → IsSome target.now.bounds }
        requires range { InRange (type_of at.now.pair.now.program target.now.slot) number }
        ensures does { Passes result self.old self.new (λ s c. within_bounds (setting_of at.now) target.now index s c (λ i. store_at target.now.place.line target.now.slot i number s c)) }
        ensures kept { IsKept self.old self.new }
        ensures ready { IfOk result (λ _. IsReady at.now.pair.now self.new) }
    {
        let place = self.within(at, target, index)?;
        self.put(target.place.line, target.slot, place, number)
    }

    /// `op=`, `++` or `--` (C99 6.5.16.2, 6.5.2.4 and 6.5.3.1).
    pub fn update(
        &mut self,
        at: &Activation,
        target: &TTarget,
        update: &TUpdate,
    ) -> Result<(), Halt>
        requires well { IsWellFormed at.now.pair.now }
        requires ready { IsReady at.now.pair.now self.old }
        requires target { Stands at.now.pair.now at.now.here (λ c. FitsTarget c target.now) }
        requires update { Stands at.now.pair.now at.now.here (λ c. FitsUpdate c update.now) }
        ensures does { Passes result self.old self.new (update_effect (setting_of at.now) target.now update.now) }
        ensures kept { IsKept self.old self.new }
        ensures ready { IfOk result (λ _. IsReady at.now.pair.now self.new) }
    {
        let index = self.index(at, &target.index)?;
        let place = self.within(at, target, index)?;
        let old = arith::converted(update.ty, self.element(at, target.slot, place));
        let n = self.updated(at, update, old)?;
        let ty = lookup::slot_type(&at.pair.program, target.slot);
        self.put(
            target.place.line,
            target.slot,
            place,
            arith::converted(ty, n),
        )
    }

    /// The old value of what is updated.
    fn element(&self, at: &Activation, slot: Slot, place: Option<u32>) -> i128
        ensures { result ≡ slice_index_or (rows_of at.now.bounds.now.frames self.now.store slot) (element_of place) (pos 0) }
    {
        let element = match place {
            None => 0,
            Some(i) => i as usize,
        };
        self.store.element(at.bounds.frames, slot, element)
    }

    /// What an update's operator gives at the old value.
    fn updated(&self, at: &Activation, update: &TUpdate, old: i128) -> Result<i128, Halt>
        requires well { IsWellFormed at.now.pair.now }
        requires ready { IsReady at.now.pair.now self.now }
        requires fits { Stands at.now.pair.now at.now.here (λ c. FitsUpdate c update.now) }
        requires range { InRange update.now.ty old }
        ensures finds { Finds result self.now self.now (λ go s c. with_value (right_value (rows_in (setting_of at.now) s) update.now.right) c (λ y. with_value (binary_value update.now.op update.now.ty update.now.division update.now.other old y) c (λ n. go n s c))) }
    {
        let right = self.right_operand(at, &update.right)?;
        or_break(arith::binary(
            update.op,
            update.ty,
            update.division,
            update.other,
            old,
            right,
        ))
    }

    /// The right operand of an update; 1 at `++` and `--`.
    fn right_operand(&self, at: &Activation, right: &Option<Boxed<TExpr>>) -> Result<i128, Halt>
        requires well { IsWellFormed at.now.pair.now }
        requires ready { IsReady at.now.pair.now self.now }
        requires fits { Stands at.now.pair.now at.now.here (λ c. FitsOption c right.now) }
        ensures finds { Finds result self.now self.now (λ go s c. with_value (right_value (rows_in (setting_of at.now) s) right.now) c (λ n. go n s c)) }
        ensures range { (t : IntType) → IsType t → IfOk result (InRange (right_type t right.now)) }
    {
        match right {
            None => Ok(1),
            Some(e) => self.value(at, e.get()),
        }
    }

    /// Any number of a type: a choice, converted.
    pub fn any_number(&mut self, ty: IntType) -> Result<i128, Halt>
        requires { IsType ty }
        ensures finds { Finds result self.old self.new (λ go s c. drawn ty.bits c (λ n rest. go (converted_to ty (pos n)) s rest)) }
        ensures range { IfOk result (InRange ty) }
        ensures kept { IsKept self.old self.new }
        ensures same { state_of self.new ≡ state_of self.old }
    {
        let n = self.draw(ty.bits)?;
        Ok(arith::converted(ty, i128::from(n)))
    }

    /// The elements of an array take any values.
    pub fn free_elements(&mut self, line: u32, x: u32, ty: IntType, count: u32) -> Result<(), Halt>
        requires { IsType ty }
        ensures does { Passes result self.old self.new (free_elements_of line x ty count 0) }
        ensures kept { IsKept self.old self.new }
        ensures ready { IfOk result (λ _. (pair : Pair) → type_of pair.program (Slot.Local x) ≡ ty → IsReady pair self.old → IsReady pair self.new) }
    {
        for i in 0..count {
            let n = self.any_number(ty)?;
            self.put(line, Slot::Local(x), Some(i), n)?;
        }
        Ok(())
    }

    /// The value at a place of a list of expressions, and 0 past its end.
    pub fn value_or_zero(&self, at: &Activation, es: &[TExpr], place: usize) -> Result<i128, Halt>
        requires well { IsWellFormed at.now.pair.now }
        requires ready { IsReady at.now.pair.now self.now }
        requires fits { Stands at.now.pair.now at.now.here (λ c. All (FitsExpr c) es.now) }
        ensures finds { Finds result self.now self.now (λ go s c. with_value (first_value (rows_in (setting_of at.now) s) (drop place es.now)) c (λ n. go n s c)) }
        ensures range { (t : IntType) → All (λ e. e.ty ≡ t) es.now → IfOk result (InRange t) }
    {
        match es.get(place) {
            None => Ok(0),
            Some(e) => self.value(at, e),
        }
    }

    /// The elements of an array take the values of expressions, and then 0 (C99 6.7.8p21).
    pub fn set_elements(
        &mut self,
        at: &Activation,
        line: u32,
        x: u32,
        count: u32,
        es: &[TExpr],
    ) -> Result<(), Halt>
        requires well { IsWellFormed at.now.pair.now }
        requires ready { IsReady at.now.pair.now self.old }
        requires fits { Stands at.now.pair.now at.now.here (λ c. All (FitsExpr c) es.now) }
        requires types { All (λ e. e.ty ≡ type_of at.now.pair.now.program (Slot.Local x)) es.now }
        ensures does { Passes result self.old self.new (set_elements_of (setting_of at.now) line x count 0 es.now) }
        ensures kept { IsKept self.old self.new }
        ensures ready { IfOk result (λ _. IsReady at.now.pair.now self.new) }
    {
        for i in 0..count {
            let n = self.value_or_zero(at, es, i as usize)?;
            self.put(line, Slot::Local(x), Some(i), n)?;
        }
        Ok(())
    }

    /// Parameters take the arguments (C99 6.5.2.2p4).
    pub fn set_params(&mut self, line: u32, first: u32, args: &[i128]) -> Result<(), Halt>
        requires few { first + length args.now < 2 ^ 32 }
        ensures does { Passes result self.old self.new (params_set line first args.now) }
        ensures kept { IsKept self.old self.new }
        ensures ready { IfOk result (λ _. (pair : Pair) → AreParams pair.program first args.now → IsReady pair self.old → IsReady pair self.new) }
    {
        let mut x = first;
        for n in args {
            self.put(line, Slot::Local(x), None, *n)?;
            x += 1;
        }
        Ok(())
    }

    /// Any value of a function's result.
    pub fn any_result(&mut self, ty: Option<IntType>) -> Result<(), Halt>
        requires { IfSome ty IsType }
        ensures does { Passes result self.old self.new (any_result_of ty) }
        ensures kept { IsKept self.old self.new }
        ensures ready { IfOk result (λ _. (pair : Pair) → IsReady pair self.old → IsReady pair self.new) }
    {
        if let Some(ty) = ty {
            self.returned = self.any_number(ty)?;
        }
        Ok(())
    }

    /// Whether a loop stops at its condition. One without a condition goes on.
    pub fn stops(&self, at: &Activation, cond: &Option<Boxed<TExpr>>) -> Result<bool, Halt>
        requires well { IsWellFormed at.now.pair.now }
        requires ready { IsReady at.now.pair.now self.now }
        requires fits { Stands at.now.pair.now at.now.here (λ c. FitsOption c cond.now) }
        ensures finds { Finds result self.now self.now (λ go s c. with_value (condition_value (rows_in (setting_of at.now) s) cond.now) c (λ n. go (is_zero n) s c)) }
    {
        match cond {
            None => Ok(false),
            Some(e) => {
                let n = self.value(at, e.get())?;
                Ok(n == 0)
            }
        }
    }

    /// An assertion, which breaks its property where it's 0.
    pub fn assert(&self, at: &Activation, e: &TExpr, prop: PropId) -> Result<(), Halt>
        requires well { IsWellFormed at.now.pair.now }
        requires ready { IsReady at.now.pair.now self.now }
        requires fits { Stands at.now.pair.now at.now.here (λ c. FitsExpr c e.now) }
        ensures does { Passes result self.now self.now (λ s c. with_value (value_of (rows_in (setting_of at.now) s) e.now) c (λ n. if is_zero n then broken prop c else Goes Next s nothing c)) }
    {
        let n = self.value(at, e)?;
        if n == 0 {
            return Err(Halt::Stop(Outcome::Broken(prop)));
        }
        Ok(())
    }

    /// An assumption, which cuts the run off where it's 0.
    pub fn assume(&self, at: &Activation, e: &TExpr) -> Result<(), Halt>
        requires well { IsWellFormed at.now.pair.now }
        requires ready { IsReady at.now.pair.now self.now }
        requires fits { Stands at.now.pair.now at.now.here (λ c. FitsExpr c e.now) }
        ensures does { Passes result self.now self.now (λ s c. with_value (value_of (rows_in (setting_of at.now) s) e.now) c (λ n. if is_zero n then Stops Outcome.Cut nothing c else Goes Next s nothing c)) }
    {
        let n = self.value(at, e)?;
        if n == 0 {
            return Err(Halt::Stop(Outcome::Cut));
        }
        Ok(())
    }
}

/// An index that isn't within its array ends the run.
fn outside(target: &TTarget) -> Halt
    ensures { MatchOption target.now.bounds (Unit {0}) (λ p. result ≡ Halt.Stop (Outcome.Broken p)) }
{
    match target.bounds {
        None => Halt::Memory,
        Some(prop) => Halt::Stop(Outcome::Broken(prop)),
    }
}
