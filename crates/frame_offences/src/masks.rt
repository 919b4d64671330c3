//! What masks have in common.

ghost use Rattle.frame_offences.specs.Drivers.{AreMeeting, IsMore};

/// Whether two masks have a bit in common.
pub fn has_common(a: u64, b: u64) -> bool
    ensures { AreMeeting a b result }
{
    let both = a & b;
    if both == 0 {
        return false;
    }
    true
}

/// Whether a mask has a bit that another lacks.
pub fn has_more(a: u64, b: u64) -> bool
    ensures { IsMore a b result }
{
    let more = a ^ (a & b);
    if more == 0 {
        return false;
    }
    true
}
