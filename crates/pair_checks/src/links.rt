// The links of a mirror.

ghost use Rattle.std.specs.Prelude.{◌≡◌, IsTrue, IsSome, All, count_by, eqb};
ghost use Rattle.joint_ir.specs.Views.{members_of};
ghost use Rattle.joint_ir.specs.WellFormed.{FitsBinding, FitsLink, FitsMirror};
ghost use Rattle.pair_checks.specs.Bound.{HaveLinks, IsApart, signal_links as signal_links_of};
ghost use Rattle.joint_ir.specs.declared.pair.Link.{Link as Linked};

use joint_ir::{Link, Member, Pair, Signal};

/// The members of the mirror, none where there is no mirror.
fn all_members(pair: &Pair) -> &[Member]
    ensures { result.now ≡ members_of pair.now.program.mirror }
{
    match &pair.program.mirror {
        None => &[],
        Some(mirror) => mirror.members.as_slice(),
    }
}

/// Whether a member that is no struct has the shape of a signal, and as many bits or more.
fn is_mirror(member: &Member, signal: &Signal) -> bool
    ensures some { IsTrue result → IsSome member.now.ty }
    ensures fits { IsTrue result → FitsMirror member.now signal.now }
{
    match member.ty {
        None => false,
        Some(ty) => member.length == signal.words && signal.bits <= ty.bits,
    }
}

/// Whether a link is of a member and a signal that fit.
fn is_link(pair: &Pair, link: Link) -> bool
    ensures { IsTrue result → FitsLink pair.now link }
{
    match sqlite_items::at(all_members(pair), link.member as usize) {
        None => false,
        Some(member) => match pair.module.signals.get(link.signal as usize) {
            None => false,
            Some(signal) => is_mirror(member, signal),
        },
    }
}

fn are_links(pair: &Pair, links: &[Link]) -> bool
    ensures { IsTrue result → All (FitsLink pair.now) links.now }
{
    for link in links {
        if !is_link(pair, *link) {
            return false;
        }
    }
    true
}

/// How many links are of a member.
fn member_links(links: &[Link], member: usize) -> usize
    ensures { result ≡ count_by (λ (link : Linked). eqb link.member member) links.now }
{
    let mut count = 0;
    for link in links {
        if link.member as usize == member {
            count += 1;
        }
    }
    count
}

/// How many links are of a signal.
fn signal_links(links: &[Link], signal: u32) -> usize
    ensures { result ≡ signal_links_of links.now signal }
{
    let mut count = 0;
    for link in links {
        if link.signal == signal {
            count += 1;
        }
    }
    count
}

/// Whether each member that is no struct has one link.
fn have_links(links: &[Link], members: &[Member]) -> bool
    ensures { IsTrue result → HaveLinks links.now members.now }
{
    for i in 0..members.len() {
        if members[i].ty.is_some() && member_links(links, i) != 1 {
            return false;
        }
    }
    true
}

/// Whether a link is its signal's only one.
fn is_apart(links: &[Link], link: Link) -> bool
    ensures { IsTrue result → IsApart links.now link }
{
    signal_links(links, link.signal) == 1
}

/// Whether each of some links is its signal's only one among all.
fn are_apart(all: &[Link], links: &[Link]) -> bool
    ensures { IsTrue result → All (IsApart all.now) links.now }
{
    for link in links {
        if !is_apart(all, *link) {
            return false;
        }
    }
    true
}

/// Whether the links of a pair fit it: yes only where they do (`FitsBinding`). It takes no memory, and time in the square of the
/// number of members.
pub fn is_bound(pair: &Pair) -> bool
    ensures { IsTrue result → FitsBinding pair.now }
{
    let links = pair.binding.links.as_slice();
    if !are_links(pair, links) {
        return false;
    }
    if !have_links(links, all_members(pair)) {
        return false;
    }
    are_apart(links, links)
}
