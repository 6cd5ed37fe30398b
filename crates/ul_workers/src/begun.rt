// Calls in threads of their own, begun by one that waits for them.
ghost use Rattle.std.specs.Prelude.{◌≡◌, ◌+◌, ◌^◌, ◌<◌, length};
ghost use denote.Param.Send.{IsSync, IsSend};
ghost use Rattle.std.specs.Fork.{AcceptsAt, ChangesAt};
ghost use Rattle.ul_workers.specs.InThreads.{AcceptsFrom, ChangesFrom};

use std::thread::{Threads, join_mut};

fn at_place<T, F: Fn(usize, &mut T)>(f: &F, place: usize, one: &mut T)
    requires { AcceptsAt F.Fn f.now place one.old }
    ensures { ChangesAt F.Fn f.now place one.old one.new }
{
    f(place, one);
}

// The call at the one place of a list.
fn at_first<T, F: Fn(usize, &mut T)>(f: &F, base: usize, first: &mut [T])
    requires one { length first.old ≡ 1 }
    requires accepts { AcceptsFrom (AcceptsAt F.Fn f.now) base first.old }
    ensures { ChangesFrom (ChangesAt F.Fn f.now) base first.old first.new }
{
    at_place(f, base, &mut first[0]);
}

/// Calls the function at each place, in a thread of its own where one can be made. This thread waits for them, or calls
/// it at the last place itself where `here` says so.
#[cycle(each)]
pub(crate) fn each_from<R: Threads + Sync, T: Send, F: Fn(usize, &mut T) + Sync>(
    rt: &R,
    f: &F,
    base: usize,
    list: &mut [T],
    here: bool,
)
    requires { AcceptsFrom (AcceptsAt F.Fn f.now) base list.old }
    ensures { ChangesFrom (ChangesAt F.Fn f.now) base list.old list.new }
{
    if list.is_empty() {
        return;
    }
    if here && list.len() == 1 {
        at_first(f, base, list);
        return;
    }
    let (first, others) = list.split_at_mut(1);
    both_from(rt, f, base, first, base + 1, others, here);
}

// The call at the first place in a new thread, and the others from this one.
#[cycle(each)]
fn both_from<R: Threads + Sync, T: Send, F: Fn(usize, &mut T) + Sync>(
    rt: &R,
    f: &F,
    base: usize,
    first: &mut [T],
    next: usize,
    others: &mut [T],
    here: bool,
)
    requires one { length first.old ≡ 1 }
    requires first { AcceptsFrom (AcceptsAt F.Fn f.now) base first.old }
    requires others { AcceptsFrom (AcceptsAt F.Fn f.now) next others.old }
    ensures first { ChangesFrom (ChangesAt F.Fn f.now) base first.old first.new }
    ensures others { ChangesFrom (ChangesAt F.Fn f.now) next others.old others.new }
{
    let mut front = ||
        requires { (length first.now ≡ 1) × AcceptsFrom (AcceptsAt F.Fn f.now) base first.now }
        ensures { ChangesFrom (ChangesAt F.Fn f.entry.now) base first.entry.now first.exit.now }
    { at_first(f, base, first) };
    let mut back = ||
        requires { IsSync R.row × IsSync F.row × IsSend T.row × AcceptsFrom (AcceptsAt F.Fn f.now) next others.now }
        ensures { ChangesFrom (ChangesAt F.Fn f.entry.now) next others.entry.now others.exit.now }
    { each_from(rt, f, next, others, here) };
    join_mut(rt, &mut front, &mut back);
}
