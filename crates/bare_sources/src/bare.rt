//! Verilog texts that are one module with nothing in it.

ghost use Rattle.std.specs.Prelude.{◌≡◌};
ghost use Rattle.std.specs.Option.{option_copied};
ghost use Rattle.bare_sources.specs.Bare.{is_closed as is_closed_header, is_bare as is_bare_module, is_asked as is_asked_for, name_of_bare};

use src_text::Name;
use v_tree::{Header, Module, VTree};

/// Whether the header has no ports (IEEE 1364-2005, 12.3).
fn is_closed(header: &Header) -> bool
    ensures { result ≡ is_closed_header header.now }
{
    matches!(header, Header::Absent | Header::Empty)
}

/// Whether the module has no parameters, no ports and no items.
fn is_bare(module: &Module) -> bool
    ensures { result ≡ is_bare_module module.now }
{
    module.parameters.len() == 0 && is_closed(&module.header) && module.items.len() == 0
}

/// Whether the top is to be found, or is asked for by this name.
fn is_asked(top: &Option<Name>, name: &Name) -> bool
    ensures { result ≡ is_asked_for top.now name.now }
{
    match top {
        None => true,
        Some(asked) => asked.text() == name.text(),
    }
}

/// The name of the only module of a text, where there is nothing in it and it is the top.
pub fn bare_name<'a>(tree: &'a VTree, top: &Option<Name>) -> Option<&'a Name>
    ensures { option_copied result ≡ name_of_bare top.now tree.now.modules }
{
    match tree.modules.as_slice() {
        [module] if is_bare(module) && is_asked(top, &module.name.name) => Some(&module.name.name),
        _ => None,
    }
}
