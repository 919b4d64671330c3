//! Whether the written forms fit the options.

ghost use Rattle.std.specs.Prelude.{◌≡◌};
ghost use Rattle.hwcbmc_core.specs.Forms.{fits_top as fits, fit_forms as fit};

use command_options::Options;
use src_text::Name;

/// The top is found, or it is asked for by the name that it has in the written form.
fn fits_top(top: &Option<Name>) -> bool
    ensures { result ≡ fits top.now }
{
    match top {
        None => true,
        Some(name) => name.text() == "counter",
    }
}

/// The written forms have a run under these options: a run that goes on past the last clock edge just ends.
pub fn fit_forms(options: &Options) -> bool
    ensures { result ≡ fit options.now }
{
    fits_top(&options.top) && !options.bounds.check_bound
}
