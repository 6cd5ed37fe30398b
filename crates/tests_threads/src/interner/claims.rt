//! Numbers that seats draw, in turn and in threads.
ghost use Rattle.std.specs.Prelude.{◌≡◌, ◌+◌, ◌<◌, ◌≤◌, ℕ, All, IfOk, [], length, vec_len};
ghost use Rattle.ul_claims.specs.Seats.{first_seat};

use std::alloc::{AllocError, Global};
use std::thread;
use std::thread::Threads;
use tests_rows::letter;
use ul_claims::{ClaimSeat, Claims};

const LIMIT: u16 = 10_000;

// One thread's seat, and what it saw of its draws.
#[derive(Drop)]
struct Drawer {
    seat: ClaimSeat,
    claims: u64,
    last: Option<u64>,
    rising: bool,
    ended: bool,
}

fn make_drawer(seat: ClaimSeat) -> Drawer
    ensures { (result.seat ≡ seat) × (result.claims ≡ 0) }
{
    Drawer {
        seat,
        claims: 0,
        last: None,
        rising: true,
        ended: false,
    }
}

// The first seat and so many others, each with a drawer.
fn drawers(
    alloc: Global,
    claims: &Claims,
    mut first: ClaimSeat,
    others: u16,
) -> Result<Vec<Drawer>, AllocError>
    requires { first ≡ first_seat claims.now }
    ensures some { IfOk result (λ v. 0 < vec_len v) }
    ensures fresh { IfOk result (λ v. All
        (λ d. (d.seat.claims ≡ claims.now) × (d.seat.drawn ≡ []) × (d.claims ≡ 0)) v.items) }
{
    let mut drawers = Vec::new(alloc);
    for _ in 0..others {
        drawers.push(make_drawer(claims.split(alloc, &mut first)?))?;
    }
    drawers.push(make_drawer(first))?;
    Ok(drawers)
}

// Draws until an answer is None.
fn draw_all(claims: &Claims, drawer: &mut Drawer)
    requires { (drawer.old.seat.claims ≡ claims.now) × (drawer.old.seat.drawn ≡ []) × (drawer.old.claims ≡ 0) }
    ensures { drawer.new.seat.claims ≡ claims.now }
{
    for _round in 0..=LIMIT {
        let Some(claim) = claims.draw(&mut drawer.seat) else {
            drawer.ended = true;
            return;
        };
        let number = claim.number();
        drawer.rising = drawer.rising && drawer.last < Some(number);
        drawer.last = Some(number);
        drawer.claims += 1;
    }
}

// Each drawer draws in a thread of its own.
fn draw_in_threads<R: Threads + Sync>(rt: &R, claims: &Claims, drawers: &mut [Drawer])
    requires some { 0 < length drawers.old }
    requires fresh { All (λ d. (d.seat.claims ≡ claims.now) × (d.seat.drawn ≡ []) × (d.claims ≡ 0)) drawers.old }
    ensures { All (λ d. d.seat.claims ≡ claims.now) drawers.new }
{
    let threads = drawers.len();
    thread::for_each_mut(
        rt,
        drawers,
        threads,
        &|_: usize, drawer: &mut Drawer|
            requires { (drawer.now.seat.claims ≡ claims.now) × (drawer.now.seat.drawn ≡ []) × (drawer.now.claims ≡ 0) }
            ensures { drawer.exit.now.seat.claims ≡ claims.entry.now }
        { draw_all(claims, drawer) },
    );
}

// How many numbers were drawn, if each drawer drew rising ones until there was none.
fn count_drawn(drawers: &[Drawer]) -> Option<u64> {
    let mut drawn: u64 = 0;
    for drawer in drawers {
        if !drawer.ended || !drawer.rising {
            return None;
        }
        drawn = drawn.wrapping_add(drawer.claims);
    }
    Some(drawn)
}

// Takes a drawer's seat.
fn take_seat(drawer: Drawer) -> ClaimSeat
    ensures { result ≡ drawer.seat }
{
    let Drawer {
        seat,
        claims: _,
        last: _,
        rising: _,
        ended: _,
    } = drawer;
    seat
}

fn seats_of(
    alloc: Global,
    claims: &Claims,
    mut drawers: Vec<Drawer>,
) -> Result<Vec<ClaimSeat>, AllocError>
    requires { All (λ d. d.seat.claims ≡ claims.now) drawers.items }
    ensures { IfOk result (λ v. All (λ s. s.claims ≡ claims.now) v.items) }
{
    let _claims = claims;
    let mut seats = Vec::new(alloc);
    while let Some(drawer) = drawers.pop() {
        seats.push(take_seat(drawer))?;
    }
    Ok(seats)
}

// Whether these are all numbers below the limit, in order.
fn are_all(numbers: &[u64], limit: u64) -> bool {
    for place in 0..numbers.len() {
        if numbers[place] != place as u64 {
            return false;
        }
    }
    numbers.len() as u64 == limit
}

// Whether the seats drew all numbers below the limit.
fn are_gathered(alloc: Global, claims: Claims, seats: Vec<ClaimSeat>, limit: u64) -> bool
    requires { All (λ s. s.claims ≡ claims) seats.items }
{
    match claims.gather(alloc, seats) {
        Ok(numbers) => are_all(numbers.as_slice(), limit),
        Err(_) => false,
    }
}

// Whether the first seat and so many others, each in a thread of its own, draw each number below the limit once.
fn threads_draw_all<R: Threads + Sync>(
    rt: &R,
    alloc: Global,
    limit: u16,
    others: u16,
) -> Result<bool, AllocError> {
    let limit = limit as u64;
    let (claims, first) = Claims::begin(alloc, limit)?;
    let mut drawers = drawers(alloc, &claims, first, others)?;
    draw_in_threads(rt, &claims, drawers.as_mut_slice());
    let drawn = count_drawn(drawers.as_slice());
    let seats = seats_of(alloc, &claims, drawers)?;
    let gathered = are_gathered(alloc, claims, seats, limit);
    Ok(drawn == Some(limit) && gathered)
}

// Whether a seat draws this number, or none.
fn draws(claims: &Claims, seat: &mut ClaimSeat, number: Option<u64>) -> bool
    requires { (seat.old.claims ≡ claims.now) × (length seat.old.drawn < 4) }
    ensures { (seat.new.claims ≡ claims.now) × (length seat.new.drawn ≡ length seat.old.drawn + 1) }
{
    match claims.draw(seat) {
        Some(claim) => number == Some(claim.number()),
        None => number.is_none(),
    }
}

// Whether two seats draw the numbers below 4 in turn, and then none.
fn draw_in_turn(claims: &Claims, first: &mut ClaimSeat, second: &mut ClaimSeat) -> bool
    requires first { (first.old.claims ≡ claims.now) × (length first.old.drawn ≡ 0) }
    requires second { (second.old.claims ≡ claims.now) × (length second.old.drawn ≡ 0) }
    ensures { (first.new.claims ≡ claims.now) × (second.new.claims ≡ claims.now) }
{
    let zero = draws(claims, second, Some(0));
    let one = draws(claims, first, Some(1));
    let two = draws(claims, first, Some(2));
    let three = draws(claims, second, Some(3));
    let no_more = draws(claims, second, None);
    let none = draws(claims, first, None);
    zero && one && two && three && no_more && none
}

fn two_seats_are_gathered(alloc: Global) -> Result<bool, AllocError> {
    let (claims, mut first) = Claims::begin(alloc, 4)?;
    let mut second = claims.split(alloc, &mut first)?;
    let in_turn = draw_in_turn(&claims, &mut first, &mut second);
    let seats = Vec::from_array(alloc, [first, second])?;
    let gathered = are_gathered(alloc, claims, seats, 4);
    Ok(in_turn && gathered)
}

// What is tried, told by the first letter.
const CASES: &str = "one seat draws nothing below 0\n\
    two seats in turn are gathered\n\
    four threads draw each number once";

fn is_case<R: Threads + Sync>(rt: &R, alloc: Global, case: &str) -> bool {
    let holds = match letter(case) {
        b'o' => threads_draw_all(rt, alloc, 0, 0),
        b'f' => threads_draw_all(rt, alloc, LIMIT, 3),
        _ => two_seats_are_gathered(alloc),
    };
    holds == Ok(true)
}

#[test]
fn claims_are_drawn_once(rt: HostRuntime) {
    for case in CASES.split('\n') {
        assert!(rt; is_case(&rt, rt.alloc(), case), "{case}");
    }
}
