//! The module that an instance names (IEEE 1364-2005, 12.1.2).

ghost use Rattle.std.specs.Prelude.{◌≡◌};
ghost use Rattle.offence_order.specs.Order.{first_of};
ghost use Rattle.elab_modules.specs.Below.{is_above as is_above_of, module_offences, depth_offences};

use offence_order::First;
use src_text::{Kind, Place};

fn is_above(above: &[usize], number: usize) -> bool
    ensures { result ≡ is_above_of above.now number }
{
    for a in above {
        if *a == number {
            return true;
        }
    }
    false
}

/// What is wrong with the module that an instance names, where it stands in these modules. It is told at the module's name.
pub fn check_module(first: &mut First, above: &[usize], place: Place, found: Option<usize>)
    ensures { first.new.found ≡ first_of first.old.found (module_offences above.now place found) }
{
    match found {
        None => first.note(place, Kind::VUnknownModule),
        Some(number) => {
            if is_above(above, number) {
                first.note(place, Kind::VRecursive);
            }
        }
    }
}

/// An instance below which no level may stand any more is one too many. It is told at the instance's name.
pub fn check_depth(first: &mut First, place: Place, levels: u32)
    ensures { first.new.found ≡ first_of first.old.found (depth_offences place levels) }
{
    if levels == 0 {
        first.note(place, Kind::VTooLarge);
    }
}
