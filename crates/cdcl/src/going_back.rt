//! Literals are taken back, and the chooser hears which.

ghost use Rattle.std.specs.Prelude.{◌≡◌, ◌≤◌, ℕ, true, length, take};
ghost use Rattle.clause_arena.specs.Clause.{Clause, has, is_below};
ghost use Rattle.clause_arena.specs.declared.Lit.{Lit as TrueLit};
ghost use Rattle.cdcl.specs.Held.{vars_of};
ghost use Rattle.cdcl.specs.Pick.{AreKnown};

use crate::chooser::Chooser;
use crate::trail::Trail;
use clause_arena::Lit;

/// Tells the chooser of literals that are taken back.
fn tell_freed(chooser: &mut Box<dyn Chooser>, lits: &[Lit])
    requires { is_below (ready_for chooser.old) lits.now ≡ true }
    ensures ready { ready_for chooser.new ≡ ready_for chooser.old }
    ensures known { (v : ℕ) → knows chooser.old v ≡ true → knows chooser.new v ≡ true }
    ensures freed { (l : TrueLit) → has lits.now l ≡ true → knows chooser.new l.var ≡ true }
    ensures heard { heard chooser.new ≡ heard chooser.old }
    ensures hears { (c : Clause) → hears chooser.new c ≡ hears chooser.old c }
{
    chooser.freed(lits);
}

/// Takes all literals from a place on back.
pub fn go_back(trail: &mut Trail, chooser: &mut Box<dyn Chooser>, end: usize)
    requires place { end ≤ length trail.old.lits.items }
    requires ready { ready_for chooser.old ≡ vars_of trail.old }
    requires known { AreKnown (knows chooser.old) trail.old.values.items }
    ensures back { trail.new.lits.items ≡ take end trail.old.lits.items }
    ensures reasoned { trail.new.reasons.items ≡ trail.old.reasons.items }
    ensures vars { length trail.new.values.items ≡ length trail.old.values.items }
    ensures ready { ready_for chooser.new ≡ ready_for chooser.old }
    ensures known { AreKnown (knows chooser.new) trail.new.values.items }
    ensures heard { heard chooser.new ≡ heard chooser.old }
    ensures hears { (c : Clause) → hears chooser.new c ≡ hears chooser.old c }
{
    tell_freed(chooser, &trail.lits[end..]);
    trail.back_to(end);
}
