//! The sides of all queues, put in the order of the queues.
ghost use Rattle.std.specs.Prelude.{◌≡◌, ◌≤◌, ◌+◌, ◌++◌, [], length, take, drop, reverse, vec_capacity};
ghost use Rattle.run_threads.specs.Proxied.{others_of, only_proxied};
ghost use Rattle.run_threads.specs.Merging.{vias_of, with_behind, with_before};

use cs_base::items::Items;
use cs_base::link::Link;
use cs_base::port_kind::Via;

/// Moves the last element, if there is any, to the end of a list that has room for it.
fn push_last<S>(from: &mut Items<S>, all: &mut Vec<S>)
    requires { length from.old + length all.old.items ≤ vec_capacity all.old }
    ensures moved { all.new.items ≡ all.old.items ++ take 1 (reverse from.old) }
    ensures left { reverse from.new ≡ drop 1 (reverse from.old) }
    ensures as_many { length from.new + length all.new.items
        ≡ length from.old + length all.old.items }
    ensures room { vec_capacity all.new ≡ vec_capacity all.old }
{
    if let Some(side) = from.pop() {
        all.push_reserved(side);
    }
}

/// The sides of one channel more, of lists in turned order: its own, and behind it, where it goes by proxy, the next of the
/// others.
fn push_behind<S>(via: Via, own: &mut Items<S>, others: &mut Items<S>, all: &mut Vec<S>)
    requires { length own.old + length others.old + length all.old.items ≤ vec_capacity all.old }
    ensures moved { all.new.items ≡ all.old.items
        ++ (take 1 (reverse own.old) ++ only_proxied via (take 1 (reverse others.old))) }
    ensures own { reverse own.new ≡ drop 1 (reverse own.old) }
    ensures others { reverse others.new ≡ drop (others_of via) (reverse others.old) }
    ensures as_many { length own.new + length others.new + length all.new.items
        ≡ length own.old + length others.old + length all.old.items }
    ensures room { vec_capacity all.new ≡ vec_capacity all.old }
{
    push_last(own, all);
    match via {
        Via::Queue => {}
        Via::Proxy => push_last(others, all),
    }
}

/// The sides of all queues in their order: of each channel its own, and behind it the next of the others where it goes by
/// proxy. It takes no memory.
pub(crate) fn merge_behind<S: Drop>(links: &[Link], own: Vec<S>, others: Vec<S>, all: &mut Vec<S>)
    requires none { all.old.items ≡ [] }
    requires room { length own.items + length others.items ≤ vec_capacity all.old }
    ensures { all.new.items ≡ with_behind (vias_of links.now) own.items others.items }
{
    let mut own = Items::from_vec(own);
    let mut others = Items::from_vec(others);
    own.reverse();
    others.reverse();
    for link in links {
        push_behind(link.via, &mut own, &mut others, all);
        push_behind(link.via, &mut own, &mut others, all);
    }
}

/// The sides of one channel more, of lists in turned order: its own, and before it, where it goes by proxy, the next of the
/// others.
fn push_before<S>(via: Via, own: &mut Items<S>, others: &mut Items<S>, all: &mut Vec<S>)
    requires { length own.old + length others.old + length all.old.items ≤ vec_capacity all.old }
    ensures moved { all.new.items ≡ all.old.items
        ++ (only_proxied via (take 1 (reverse others.old)) ++ take 1 (reverse own.old)) }
    ensures own { reverse own.new ≡ drop 1 (reverse own.old) }
    ensures others { reverse others.new ≡ drop (others_of via) (reverse others.old) }
    ensures as_many { length own.new + length others.new + length all.new.items
        ≡ length own.old + length others.old + length all.old.items }
    ensures room { vec_capacity all.new ≡ vec_capacity all.old }
{
    match via {
        Via::Queue => {}
        Via::Proxy => push_last(others, all),
    }
    push_last(own, all);
}

/// The sides of all queues in their order: of each channel its own, and before it the next of the others where it goes by
/// proxy. It takes no memory.
pub(crate) fn merge_before<S: Drop>(links: &[Link], own: Vec<S>, others: Vec<S>, all: &mut Vec<S>)
    requires none { all.old.items ≡ [] }
    requires room { length own.items + length others.items ≤ vec_capacity all.old }
    ensures { all.new.items ≡ with_before (vias_of links.now) own.items others.items }
{
    let mut own = Items::from_vec(own);
    let mut others = Items::from_vec(others);
    own.reverse();
    others.reverse();
    for link in links {
        push_before(link.via, &mut own, &mut others, all);
        push_before(link.via, &mut own, &mut others, all);
    }
}
