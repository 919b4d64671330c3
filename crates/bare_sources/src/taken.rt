//! Which programs are judged, and within which bounds.

ghost use Rattle.std.specs.Prelude.{◌≡◌, ◌<◌, ◌^◌, IfOk, length};
ghost use Rattle.bare_sources.specs.Taken.{is_taken as is_taken_program, bounds_for};

use command_options::Options;
use joint_ir::{Bounds, CProgram, limits};
use std::alloc::{AllocError, Global};
use unwound_forms::is_made;

/// Whether the program has no mirror, and only statements that are unwound.
pub fn is_taken(program: &CProgram) -> bool
    ensures { result ≡ is_taken_program program.now }
{
    program.mirror.is_none() && is_made(program)
}

/// The bounds that are asked for, with the limits by name as limits of the program's properties.
pub fn bounds_of(alloc: Global, options: &Options, program: &CProgram) -> Result<Bounds, AllocError>
    requires { length program.now.props < 2 ^ 32 }
    ensures { IfOk result (λ bounds. bounds ≡ bounds_for options.now program.now) }
{
    let limits = limits(alloc, program, &options.limits)?;
    Ok(Bounds {
        unwind: options.bounds.unwind,
        limits,
        frames: options.bounds.frames,
        check_bound: options.bounds.check_bound,
    })
}
