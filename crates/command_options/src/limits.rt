//! A list of limits for single loops and functions.

ghost use Rattle.std.specs.Prelude.{◌≡◌, ◌==◌, IfOk, option_map, Some, None, length};
ghost use Rattle.std.specs.List.{list_any, slice_split};
ghost use Rattle.std.specs.Str.{bytes_eq};
ghost use Rattle.command_options.specs.Limits.{cut as cut_at, ends_limit, is_limit_name as is_limit, limit_of, entry_in, entries_of, limits_in, are_apart as apart};
ghost use Rattle.command_options.specs.Numbers.{is_plain_number as is_plain};
ghost use Rattle.command_options.specs.Pieces.{pieces_of};

use crate::names::is_c_name;
use crate::numbers::{is_plain_number, number};
use joint_ir::{NamedLimit, NamedLimitList};
use src_text::Name;
use std::alloc::{AllocError, Global};

/// What stands before the first dot, and what stands behind it.
fn cut_at_dot(text: &str) -> Option<(&str, &str)>
    ensures { pieces_of result ≡ cut_at 46 text.now }
{
    text.split_once('.')
}

fn cut_at_colon(text: &str) -> Option<(&str, &str)>
    ensures { pieces_of result ≡ cut_at 58 text.now }
{
    text.split_once(':')
}

/// `unwind.NUMBER` or `recursion.1`.
fn is_limit_end(text: &str) -> bool
    ensures { result ≡ ends_limit (cut_at 46 text.now) }
{
    match cut_at_dot(text) {
        None => false,
        Some((kind, number)) => {
            let unwinds = kind == "unwind" && is_plain_number(number);
            unwinds || (kind == "recursion" && number == "1")
        }
    }
}

/// The name of a property that has a limit.
fn is_limit_name(name: &str) -> bool
    ensures { result ≡ is_limit name.now }
{
    match cut_at_dot(name) {
        None => false,
        Some((function, rest)) => is_c_name(function) && is_limit_end(rest),
    }
}

/// One entry, `NAME:COUNT`.
fn entry(alloc: Global, text: &str) -> Result<Option<NamedLimit>, AllocError>
    ensures { IfOk result (λ entry. entry ≡ entry_in text.now) }
{
    match cut_at_colon(text) {
        None => Ok(None),
        Some((name, count)) => match number(count, 1, 10_000) {
            None => Ok(None),
            Some(count) => {
                if !is_limit_name(name) {
                    return Ok(None);
                }
                let name = Name::new(alloc, name)?;
                Ok(Some(NamedLimit {
                    name,
                    count: count as u32,
                }))
            }
        },
    }
}

/// The first piece of a list, and what stands behind its comma.
fn cut_at_comma(text: &str) -> Option<(&str, &str)>
    ensures { pieces_of result ≡ cut_at 44 text.now }
{
    text.split_once(',')
}

/// All entries, in order, if each piece is one.
fn entries(alloc: Global, text: &str) -> Result<Option<NamedLimitList>, AllocError>
    ensures { IfOk result (λ list. list ≡ entries_of (slice_split (λ b. b == 44) text.now)) }
{
    let mut list = NamedLimitList::new(alloc);
    let mut rest = text;
    'pieces: while let Some((piece, more)) = cut_at_comma(rest) {
        match entry(alloc, piece)? {
            None => return Ok(None),
            Some(one) => list.push(one)?,
        }
        rest = more;
    }
    match entry(alloc, rest)? {
        None => Ok(None),
        Some(one) => {
            list.push(one)?;
            Ok(Some(list))
        }
    }
}

/// Whether a name stands among those of some entries.
fn has_name(entries: &[NamedLimit], name: &Name) -> bool
    ensures { result ≡ list_any (λ other. bytes_eq other.name name.now) entries.now }
{
    entries.iter().any(|other| other.name.text() == name.text())
}

/// Whether no name stands twice.
fn are_apart(entries: &[NamedLimit]) -> bool
    ensures { result ≡ apart entries.now }
{
    for (i, entry) in entries.iter().enumerate() {
        if has_name(&entries[i + 1..], &entry.name) {
            return false;
        }
    }
    true
}

/// The limits that a text lists, if it is a list of limits.
pub fn limits(alloc: Global, text: &str) -> Result<Option<NamedLimitList>, AllocError>
    ensures { IfOk result (λ list. list ≡ limits_in text.now) }
{
    match entries(alloc, text)? {
        None => Ok(None),
        Some(list) => {
            if !are_apart(list.as_slice()) {
                return Ok(None);
            }
            Ok(Some(list))
        }
    }
}
