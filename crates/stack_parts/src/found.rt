//! All parts or none, and parts in boxes.

ghost use Rattle.std.specs.Prelude.{◌≡◌, IfOk};
ghost use Rattle.stack_parts.specs.Parts.{all_two, all_three, all_four, all_five, all_six, all_seven};

use sqlite_items::Boxed;
use std::alloc::{AllocError, Global};

/// Two values, if both are there.
pub fn all_two<A: Drop, B: Drop>(first: Option<A>, second: Option<B>) -> Option<(A, B)>
    ensures { result ≡ all_two first second }
{
    let first = first?;
    let second = second?;
    Some((first, second))
}

/// Three values, if all are there.
pub fn all_three<A: Drop, B: Drop, C: Drop>(
    first: Option<A>,
    second: Option<B>,
    third: Option<C>,
) -> Option<(A, B, C)>
    ensures { result ≡ all_three first second third }
{
    let first = first?;
    let second = second?;
    let third = third?;
    Some((first, second, third))
}

/// Four values, if all are there.
pub fn all_four<A: Drop, B: Drop, C: Drop, D: Drop>(
    first: Option<A>,
    second: Option<B>,
    third: Option<C>,
    fourth: Option<D>,
) -> Option<(A, B, C, D)>
    ensures { result ≡ all_four first second third fourth }
{
    let first = first?;
    let second = second?;
    let third = third?;
    let fourth = fourth?;
    Some((first, second, third, fourth))
}

/// Five values, if all are there.
pub fn all_five<A: Drop, B: Drop, C: Drop, D: Drop, E: Drop>(
    first: Option<A>,
    second: Option<B>,
    third: Option<C>,
    fourth: Option<D>,
    fifth: Option<E>,
) -> Option<(A, B, C, D, E)>
    ensures { result ≡ all_five first second third fourth fifth }
{
    let first = first?;
    let second = second?;
    let third = third?;
    let fourth = fourth?;
    let fifth = fifth?;
    Some((first, second, third, fourth, fifth))
}

/// Six values, if all are there.
pub fn all_six<A: Drop, B: Drop, C: Drop, D: Drop, E: Drop, F: Drop>(
    first: Option<A>,
    second: Option<B>,
    third: Option<C>,
    fourth: Option<D>,
    fifth: Option<E>,
    sixth: Option<F>,
) -> Option<(A, B, C, D, E, F)>
    ensures { result ≡ all_six first second third fourth fifth sixth }
{
    let first = first?;
    let second = second?;
    let third = third?;
    let fourth = fourth?;
    let fifth = fifth?;
    let sixth = sixth?;
    Some((first, second, third, fourth, fifth, sixth))
}

/// Seven values, if all are there.
pub fn all_seven<A: Drop, B: Drop, C: Drop, D: Drop, E: Drop, F: Drop, G: Drop>(
    first: Option<A>,
    second: Option<B>,
    third: Option<C>,
    fourth: Option<D>,
    fifth: Option<E>,
    sixth: Option<F>,
    seventh: Option<G>,
) -> Option<(A, B, C, D, E, F, G)>
    ensures { result ≡ all_seven first second third fourth fifth sixth seventh }
{
    let first = first?;
    let second = second?;
    let third = third?;
    let fourth = fourth?;
    let fifth = fifth?;
    let sixth = sixth?;
    let seventh = seventh?;
    Some((first, second, third, fourth, fifth, sixth, seventh))
}

/// A value in a box, beside another one.
pub fn boxed_with<A: Drop, B: Drop>(
    alloc: Global,
    value: A,
    other: B,
) -> Result<(Boxed<A>, B), AllocError>
    ensures { IfOk result (λ pair. (pair.0 ≡ value) × (pair.1 ≡ other)) }
{
    let value = Boxed::new(alloc, value)?;
    Ok((value, other))
}

/// Two values, each in a box.
pub fn boxed_two<A: Drop, B: Drop>(
    alloc: Global,
    first: A,
    second: B,
) -> Result<(Boxed<A>, Boxed<B>), AllocError>
    ensures { IfOk result (λ boxes. (boxes.0 ≡ first) × (boxes.1 ≡ second)) }
{
    let first = Boxed::new(alloc, first)?;
    let second = Boxed::new(alloc, second)?;
    Ok((first, second))
}

/// Three values, each in a box.
pub fn boxed_three<A: Drop, B: Drop, C: Drop>(
    alloc: Global,
    first: A,
    second: B,
    third: C,
) -> Result<(Boxed<A>, Boxed<B>, Boxed<C>), AllocError>
    ensures { IfOk result (λ boxes. (boxes.0 ≡ first) × (boxes.1 ≡ second) × (boxes.2 ≡ third)) }
{
    let first = Boxed::new(alloc, first)?;
    let second = Boxed::new(alloc, second)?;
    let third = Boxed::new(alloc, third)?;
    Ok((first, second, third))
}
