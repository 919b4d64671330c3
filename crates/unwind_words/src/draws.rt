// Words that are drawn, one after the other.

ghost use Rattle.std.specs.Prelude.{ℕ, ◌<◌, ◌^◌, All, IfSome, IfOk};
ghost use Rattle.joint_ir.specs.Effects.{draw_all as draw_all_of};
ghost use Rattle.joint_ir.specs.Runs.{draw_registers as draw_registers_of};
ghost use Rattle.joint_ir.specs.WellFormed.{FitFirsts};
ghost use Rattle.joint_view.specs.Conditions.{IsNarrow};
ghost use Rattle.unwind_state.specs.declared.state.Guard.TheVariants.{Always};
ghost use Rattle.unwind_state.specs.Guards.{HasGuard};
ghost use Rattle.unwind_module.specs.Drawing.{AreDrawn, IsFirst};

use sized_terms::{SizedTerm, constant};
use std::alloc::{AllocError, Global};
use unrolled::{Unrolled, room};
use unwind_state::{Guard, draw};
use word_eqs::TermIds;

/// Words of these numbers of bits, drawn in order where the guard is 1.
pub fn draw_all(
    alloc: Global,
    net: &mut Unrolled,
    guard: Guard,
    widths: &[u8],
) -> Result<TermIds, AllocError>
    requires guard { HasGuard net.old.terms guard }
    requires widths { All IsNarrow widths.now }
    ensures { IfOk result (λ ids. AreDrawn net.old net.new guard (draw_all_of widths.now) widths.now ids) }
{
    // The terms are a graph.
    let _ = net.terms.len();
    let mut ids = TermIds::new(alloc);
    for width in widths {
        let t = draw(net, guard, *width)?;
        ids.push(t.term)?;
    }
    Ok(ids)
}

/// The word of a register as a run begins: its first value if it has one, else a draw.
fn first_word(net: &mut Unrolled, first: Option<u64>, width: u8) -> Result<SizedTerm, AllocError>
    requires width { IsNarrow width }
    requires first { IfSome first (λ n. n < 2 ^ width) }
    ensures { IfOk result (λ t. IsFirst net.old net.new first width t) }
{
    match first {
        Some(n) => {
            room(net, 1)?;
            let t = constant(&mut net.terms, width, n as u128)?;
            Ok(t)
        }
        None => {
            let t = draw(net, Guard::Always, width)?;
            Ok(t)
        }
    }
}

/// The words of registers as a run begins, in order.
pub fn draw_registers(
    alloc: Global,
    net: &mut Unrolled,
    firsts: &[Option<u64>],
    widths: &[u8],
) -> Result<TermIds, AllocError>
    requires widths { All IsNarrow widths.now }
    requires firsts { FitFirsts firsts.now widths.now }
    ensures { IfOk result (λ ids. AreDrawn net.old net.new Always (draw_registers_of firsts.now widths.now) widths.now ids) }
{
    let _ = net.terms.len();
    let mut ids = TermIds::new(alloc);
    for k in 0..widths.len() {
        let t = first_word(net, firsts[k], widths[k])?;
        ids.push(t.term)?;
    }
    Ok(ids)
}
