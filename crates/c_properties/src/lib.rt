//! The properties of a function, named `FUNCTION.KIND.NUMBER`: a number for each, by kind and place.
//!
//! Knows nothing of what a property is about, nor of the order in which a typer met them.
#![tactic(auto)]

ghost use Rattle.std.specs.Prelude.{◌≡◌, ℕ, ◌+◌, map, All, IfOk, OnOk};
ghost use Rattle.std.specs.List.{count_by};
ghost use Rattle.std.specs.List.Sorted.{IsNonDecreasingBy, IsPermutation};
ghost use Rattle.joint_ir.specs.WellFormed.{kind_number as number_of_kind};
ghost use Rattle.c_words.specs.Marks.{number_of};
ghost use Rattle.c_numbers.specs.Ranks.{is_between};
ghost use Rattle.c_properties.specs.Properties.{props_of, prop_numbered};
ghost use Rattle.c_properties.specs.Keys.{key_of, floor_of, IsPlaced};

use c_numbers::{below, sorted};
use c_words::{Site, number};
use joint_ir::{Prop, PropKind, PropList};
use sqlite_items::Items;
use src_text::Name;
use std::alloc::{AllocError, Global};

fn kind_number(kind: PropKind) -> u8
    ensures { result ≡ number_of_kind kind }
{
    match kind {
        PropKind::Assertion => 0,
        PropKind::Overflow => 1,
        PropKind::Division => 2,
        PropKind::Shift => 3,
        PropKind::Bounds => 4,
        PropKind::Unwind => 5,
        PropKind::Recursion => 6,
        PropKind::Frame => 7,
    }
}

/// The least key of a kind.
fn floor(kind: PropKind) -> u128
    ensures { result ≡ floor_of kind }
{
    kind_number(kind) as u128 * 18446744073709551616
}

/// A number that orders properties by kind, then line, then column.
fn key(site: Site) -> u128
    ensures key { result ≡ key_of site }
    ensures placed { IsPlaced site }
{
    floor(site.kind) + site.place.line as u128 * 4294967296 + site.place.column as u128
}

fn keys(alloc: Global, sites: &[Site]) -> Result<Vec<u128>, AllocError>
    ensures keys { IfOk result (λ v. v.items ≡ map key_of sites.now) }
    ensures placed { OnOk result (All IsPlaced sites.now) }
{
    let mut v = Vec::new(alloc);
    for site in sites {
        v.push(key(*site))?;
    }
    Ok(v)
}

/// The number of a property, by the sorted keys of all of its function.
fn number_in(keys: &[u128], site: Site) -> u32
    requires { IsNonDecreasingBy (λ (k : ℕ). k) keys.now }
    ensures { result ≡ number_of (1 + count_by (is_between (floor_of site.kind) (key_of site)) keys.now) }
{
    let before = below(keys, key(site));
    let of_other_kinds = below(keys, floor(site.kind));
    number(1 + (before - of_other_kinds))
}

fn property(function: Name, site: Site, number: u32) -> Prop
    ensures { result ≡ prop_numbered function site number }
{
    Prop {
        function,
        kind: site.kind,
        number,
        line: site.place.line,
    }
}

/// The properties of a function, in the order of a list. Each is numbered from 1 among those of its kind, by the place of
/// its token. Want of memory is the only error.
pub fn properties(alloc: Global, function: &Name, sites: &[Site]) -> Result<PropList, AllocError>
    ensures { IfOk result (λ ps. ps ≡ props_of function.now sites.now) }
{
    let unsorted = keys(alloc, sites)?;
    let keys = sorted(alloc, unsorted.as_slice())?;
    let mut properties = Items::new(alloc);
    for site in sites {
        let number = number_in(keys.as_slice(), *site);
        let name = function.clone()?;
        properties.push(property(name, *site, number))?;
    }
    Ok(properties)
}
