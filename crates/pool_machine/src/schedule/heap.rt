// Openings as a binary heap at the front of a slice: the children of the one at `k` stand at `2k +
// 1` and `2k + 2`, and none comes before the one that it is a child of.
ghost use Rattle.std.specs.Prelude.{◌≡◌, ℕ, ◌+◌, ◌-◌, ◌*◌, ◌<◌, ◌≤◌, false, length, take, drop};
ghost use Rattle.std.specs.Prelude.{slice_index_or, IsPermutation};
ghost use Rattle.pool_machine.specs.Openings.{is_before, sorted, with_opening};
ghost use Rattle.pool_machine.specs.Heap.{binary_digits, IsHeap, IsHeapButTheLast, IsHeapButTheFirst};

use super::opening::Opening;
use crate::steps::Steps;
use std::sync::ledger::Ledger;

/// One more joins the first `held`.
pub fn add<L: Ledger>(entries: &mut [Opening], held: usize, opening: Opening, steps: &mut Steps<L>)
    requires room { held < length entries.old }
    requires heap { IsHeap (take held entries.old) }
    ensures heap { IsHeap (take (held + 1) entries.new) }
    ensures openings { sorted (take (held + 1) entries.new)
        ≡ with_opening opening (sorted (take held entries.old)) }
    ensures cost { steps.new ≤ steps.old + binary_digits (held + 1) }
{
    entries[held] = opening;
    rise(&mut entries[..held + 1], steps);
}

/// The least of the first `held`, which is the first, leaves them.
pub fn remove_least<L: Ledger>(entries: &mut [Opening], held: usize, steps: &mut Steps<L>)
    requires some { 0 < held }
    requires room { held ≤ length entries.old }
    requires heap { IsHeap (take held entries.old) }
    ensures heap { IsHeap (take (held - 1) entries.new) }
    ensures openings { sorted (take (held - 1) entries.new)
        ≡ drop 1 (sorted (take held entries.old)) }
    ensures cost { steps.new ≤ steps.old + 2 * binary_digits held }
{
    let last = held - 1;
    entries.swap(0, last);
    sink(&mut entries[..last], steps);
}

// The last one goes up, until its parent is not after it.
fn rise<L: Ledger>(entries: &mut [Opening], steps: &mut Steps<L>)
    requires some { 0 < length entries.old }
    requires heap { IsHeapButTheLast entries.old }
    ensures heap { IsHeap entries.new }
    ensures permutation { IsPermutation entries.old entries.new }
    ensures cost { steps.new ≤ steps.old + binary_digits (length entries.old) }
{
    let mut at = entries.len() - 1;
    'up: while at > 0 {
        let parent = (at - 1) / 2;
        if !entries[at].is_before(&entries[parent], steps) {
            return;
        }
        entries.swap(at, parent);
        at = parent;
    }
}

// The first one goes down, until none of its children is before it.
fn sink<L: Ledger>(entries: &mut [Opening], steps: &mut Steps<L>)
    requires { IsHeapButTheFirst entries.old }
    ensures heap { IsHeap entries.new }
    ensures permutation { IsPermutation entries.old entries.new }
    ensures cost { steps.new ≤ steps.old + 2 * binary_digits (length entries.old) }
{
    let mut at = 0;
    'down: while at < entries.len() / 2 {
        let child = first_child(entries, at, steps);
        if !entries[child].is_before(&entries[at], steps) {
            return;
        }
        entries.swap(at, child);
        at = child;
    }
}

// Where the child stands that is not after the other, if there is another.
fn first_child<L: Ledger>(entries: &[Opening], at: usize, steps: &mut Steps<L>) -> usize
    requires { 2 * at + 1 < length entries.now }
    ensures from { 2 * at + 1 ≤ result }
    ensures to { result ≤ 2 * at + 2 }
    ensures within { result < length entries.now }
    ensures least { (k : ℕ) (d : _) → 2 * at + 1 ≤ k → k ≤ 2 * at + 2 → k < length entries.now
        → is_before (slice_index_or entries.now k d) (slice_index_or entries.now result d) ≡ false }
    ensures cost { steps.new ≤ steps.old + 1 }
{
    let left = 2 * at + 1;
    if left + 1 < entries.len() && entries[left + 1].is_before(&entries[left], steps) {
        left + 1
    } else {
        left
    }
}
