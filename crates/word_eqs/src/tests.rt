// Each call once. Expected values are Python's.

use crate::{Act, GuardedList, Step, TermId, TermIds, TermNode, Terms, Words};
use bits_core::{Op2, Word};
use std::test::Fail;

#[test]
fn a_sum_has_its_word(rt: HostRuntime) -> Result<(), Fail> {
    let mut terms = Terms::new(rt.alloc());
    let x = terms.var(8)?;
    let a = terms.add(TermNode::Var(x))?;
    let sum = terms.add(TermNode::Two(Op2::Add, a, a))?;
    let mut env = Words::new(rt.alloc());
    env.push(Word::from_low_bits(8, 200))?;
    let mut out = Words::new(rt.alloc());
    out.push(Word::from_low_bits(1, 0))?;
    out.push(Word::from_low_bits(1, 0))?;
    terms.eval_into(&env, &mut out);
    assert_eq!(rt; out.as_slice()[sum.0 as usize].value(), 144);
    assert_eq!(rt; terms.len(), 2);
    assert_eq!(rt; terms.vars(), 1);
    assert_eq!(rt; terms.width_of_var(x), 8);
    assert_eq!(rt; terms.width_of(sum), 8);
    assert_eq!(rt; terms.node(sum), TermNode::Two(Op2::Add, a, a));
    Ok(())
}

#[test]
fn a_copy_adds_no_term_for_a_variable(rt: HostRuntime) -> Result<(), Fail> {
    let mut from = Terms::new(rt.alloc());
    let x = from.var(8)?;
    let a = from.add(TermNode::Var(x))?;
    let _sum = from.add(TermNode::Two(Op2::Add, a, a))?;
    let mut terms = Terms::new(rt.alloc());
    let hundred = terms.add(TermNode::Const(Word::from_low_bits(8, 100)))?;
    let mut map = TermIds::new(rt.alloc());
    map.push(hundred)?;
    let ids = terms.import(&from, &map)?;
    assert_eq!(rt; ids.as_slice(), [TermId(0), TermId(1)].as_slice());
    assert_eq!(rt; terms.len(), 2);
    Ok(())
}

#[test]
fn a_list_keeps_its_steps(rt: HostRuntime) -> Result<(), Fail> {
    let cut = Step {
        guard: TermId(0),
        act: Act::Cut(TermId(1)),
    };
    let mut list = GuardedList::new(rt.alloc());
    list.push(cut)?;
    assert_eq!(rt; list.len(), 1);
    assert_eq!(rt; list.get(0), cut);
    Ok(())
}
