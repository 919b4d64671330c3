// The rows of a function's own objects, which are kept before its body and put back behind it.

ghost use Rattle.std.specs.Prelude.{◌≡◌, ◌+◌, ◌≤◌, length, map, IfOk};
ghost use Rattle.unwind_calls.specs.Rows.{rows_part, rows_back};

use std::alloc::{AllocError, Global};
use word_eqs::TermIds;

/// A copy of the terms of an object.
fn copied(alloc: Global, row: &TermIds) -> Result<TermIds, AllocError>
    ensures { IfOk result (λ ids. ids ≡ row.now) }
{
    let mut ids = TermIds::new(alloc);
    for t in row.as_slice() {
        ids.push(*t)?;
    }
    Ok(ids)
}

/// Copies of the terms of the objects from a place on, up to another one.
pub fn kept(
    alloc: Global,
    rows: &[TermIds],
    first: usize,
    end: usize,
) -> Result<Vec<TermIds>, AllocError>
    requires order { first ≤ end }
    requires there { end ≤ length rows.now }
    ensures { IfOk result (λ part. part.items ≡ rows_part first end rows.now) }
{
    let mut part = Vec::new(alloc);
    for row in &rows[first..end] {
        part.push(copied(alloc, row)?)?;
    }
    Ok(part)
}

/// Puts terms of objects in place of those from one on.
pub fn put_back(rows: &mut Vec<TermIds>, first: usize, part: Vec<TermIds>)
    requires { first + length part.items ≤ length rows.old.items }
    ensures { rows.new.items ≡ rows_back first part.items rows.old.items }
{
    let mut part = part;
    let end = first + part.len();
    rows[first..end].swap_with_slice(&mut part);
}
