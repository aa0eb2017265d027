// Newest-first and oldest-first compared with every other choice of the connection to lend.
ghost use Rattle.std.specs.Prelude.{◌≡◌, ◌≤◌, ◌↔◌, ◌++◌, ◌∷◌, [], Some, None, map, drop, length};
ghost use Rattle.std.specs.Prelude.{vec_len, ◌-◌, IsTrue, OnOk, IfOk, IfSome, IsSomeAnd};
ghost use Rattle.std.specs.Bool.{OnTrue, OnFalse};
ghost use Rattle.std.specs.Duration.{as_nanos};
ghost use Rattle.r2d2_core.specs.Reuse.{IsSorted, moment_in, picked, after_pick, newest_list};
ghost use Rattle.r2d2_core.specs.Reuse.{oldest_list, other_list, raised_now, expired, IsBetween};
ghost use Rattle.r2d2_core.specs.Reuse.{order_after, other_after};
ghost use Rattle.pool_machine.specs.declared.schedule.limits.LendingOrder.TheVariants.{NewestFirst};
ghost use Rattle.pool_machine.specs.declared.schedule.limits.LendingOrder.TheVariants.{OldestFirst};

use std::alloc::{AllocError, Global};
use std::marker::Model;
use std::time::Duration;

/// What happens to the idle connections, at a moment.
#[derive(Clone, Copy, PartialEq, Eq, Debug)]
pub enum Move {
    /// A connection is lent, if one is idle.
    Take(Duration),
    /// A connection comes to be idle.
    Add(Duration),
}

/// How many connections are expired in the end.
#[derive(Clone, Copy, PartialEq, Eq, Debug)]
pub struct Comparison {
    /// If each take lends the newest one.
    pub newest_first: usize,
    /// If each take lends the oldest one.
    pub oldest_first: usize,
    /// If each take lends the one that a pick names.
    pub other: usize,
}

/// Whether the list never falls: no moment is before one that stands in front of it.
pub fn is_in_order(idle: &[Duration]) -> bool
    ensures { IsTrue result ↔ IsSorted idle.now }
{
    let mut seen = Duration::ZERO;
    for moment in idle {
        if moment.as_nanos() < seen.as_nanos() {
            return false;
        }
        seen = *moment;
    }
    true
}

/// Plays the moves on three lists that start as `idle`, and counts what is expired in each in the
/// end.
///
/// `idle` has the moments since which connections are idle, oldest first. A take removes the newest
/// from the first list, the oldest from the second, and from the third the place that the next pick
/// names, counted from 0; on an empty list it removes nothing and uses no pick. An add appends its
/// moment to each. Expired are those whose moment is at least `limit` before `now`. No moment runs
/// backwards: each, `now` included, counts as the latest so far, beginning with the last of `idle`.
///
/// `None` says that a take on a list that is not empty had no pick left, or one that names no
/// place. Picks left over are ignored. It takes memory for three lists.
///
/// Whatever the picks, newest-first leaves at least as many expired, and oldest-first at most as
/// many; the clause `at_every_threshold` says why.
///
/// It takes time in proportion to `idle` and `moves`, and for each take what removing from a list
/// costs: at most its length.
pub fn compare(
    alloc: Global,
    idle: &[Duration],
    moves: &[Move],
    picks: &[usize],
    now: Duration,
    limit: Duration,
) -> Result<Option<Comparison>, AllocError>
    requires { IsSorted idle.now }
    ensures newest_first { IfOk result (λ answer. IfSome answer (λ c.
        c.newest_first ≡ expired (raised_now idle.now moves.now now) limit (newest_list idle.now moves.now))) }
    ensures oldest_first { IfOk result (λ answer. IfSome answer (λ c.
        c.oldest_first ≡ expired (raised_now idle.now moves.now now) limit (oldest_list idle.now moves.now))) }
    ensures other { IfOk result (λ answer. IfSome answer (λ c.
        IsSomeAnd (other_list idle.now moves.now picks.now)
        (λ left. c.other ≡ expired (raised_now idle.now moves.now now) limit left))) }
    ensures none { IfOk result
        (λ answer. (answer ≡ None) ↔ (other_list idle.now moves.now picks.now ≡ None)) }

    ensures at_least { IfOk result (λ answer. IfSome answer (λ c. c.other ≤ c.newest_first)) }
    ensures at_most { IfOk result (λ answer. IfSome answer (λ c. c.oldest_first ≤ c.other)) }
    // This holds of every idle list in order, whether memory was there or not.
    ensures at_every_threshold { IfSome (other_list idle.now moves.now picks.now)
        (IsBetween (oldest_list idle.now moves.now) (newest_list idle.now moves.now)) }
{
    let mut newest = nanos_of(alloc, idle)?;
    let mut oldest = nanos_of(alloc, idle)?;
    let mut other = Picked {
        kept: nanos_of(alloc, idle)?,
        picks,
    };
    let mut seen = newest.last().copied().unwrap_or(0);
    for step in moves {
        seen = seen.max(nanos_at(step));
        if !play(step, seen, &mut newest, &mut oldest, &mut other)? {
            return Ok(None);
        }
    }
    let now = seen.max(now.as_nanos());
    Ok(Some(Comparison {
        newest_first: count_expired(now, limit, &newest),
        oldest_first: count_expired(now, limit, &oldest),
        other: count_expired(now, limit, &other.kept),
    }))
}

// Makes a move at a raised moment on each list; false where the picks do not serve.
fn play(
    step: &Move,
    moment: u128,
    newest: &mut Vec<u128>,
    oldest: &mut Vec<u128>,
    other: &mut Picked,
) -> Result<bool, AllocError>
    ensures newest { OnOk result
        (newest.new.items ≡ order_after NewestFirst moment newest.old.items step.now) }
    ensures oldest { OnOk result
        (oldest.new.items ≡ order_after OldestFirst moment oldest.old.items step.now) }
    ensures served { IfOk result
        (λ is_served. OnTrue is_served (other_after moment other.old step.now ≡ Some other.new)) }
    ensures unserved { IfOk result
        (λ is_served. OnFalse is_served (other_after moment other.old step.now ≡ None)) }
{
    match step {
        Move::Take(_) => {
            newest.pop();
            remove_first(oldest);
            Ok(other.take())
        }
        Move::Add(_) => {
            newest.push(moment)?;
            oldest.push(moment)?;
            other.add(moment)?;
            Ok(true)
        }
    }
}

// The list that lends by picks, with the picks that are left.
#[derive(Drop)]
struct Picked<'a> {
    kept: Vec<u128>,
    picks: &'a [usize],
}

impl<'a> Model for Picked<'a> {
    ghost use Rattle.r2d2_core.specs.Reuse.{Picked, picked};

    ghost Value = { Picked };

    ghost view = { λ a. picked a.kept.items a.picks.now };
}

impl<'a> Picked<'a> {
    // Lends the one that the next pick names; false where no pick is left or it names none.
    fn take(&mut self) -> bool
        ensures served { OnTrue result (after_pick self.old.kept self.old.picks ≡ Some self.new) }
        ensures unserved { OnFalse result (after_pick self.old.kept self.old.picks ≡ None) }
    {
        if self.kept.is_empty() {
            return true;
        }
        match self.picks {
            [pick, rest @ ..] if *pick < self.kept.len() => {
                self.kept.remove(*pick);
                self.picks = rest;
                true
            }
            _ => false,
        }
    }

    fn add(&mut self, moment: u128) -> Result<(), AllocError>
        ensures { OnOk result (self.new ≡ picked (self.old.kept ++ moment ∷ []) self.old.picks) }
    {
        self.kept.push(moment)?;
        Ok(())
    }
}

// Removes the first one, if there is one.
fn remove_first(moments: &mut Vec<u128>)
    ensures { moments.new.items ≡ drop 1 moments.old.items }
{
    if !moments.is_empty() {
        moments.remove(0);
    }
}

fn nanos_of(alloc: Global, moments: &[Duration]) -> Result<Vec<u128>, AllocError>
    ensures { IfOk result (λ nanos. nanos.items ≡ map as_nanos moments.now) }
{
    moments
        .iter()
        .map(|moment| moment.as_nanos())
        .collect(alloc)
}

fn nanos_at(step: &Move) -> u128
    ensures { result ≡ moment_in step.now }
{
    match step {
        Move::Take(at) | Move::Add(at) => at.as_nanos(),
    }
}

fn count_expired(now: u128, limit: Duration, moments: &[u128]) -> usize
    ensures { result ≡ expired now limit moments.now }
{
    let limit = limit.as_nanos();
    moments
        .iter()
        .filter(|moment| limit <= now.saturating_sub(**moment))
        .count()
}
