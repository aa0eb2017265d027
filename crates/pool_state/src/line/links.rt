// Nodes in rings, by index. A node outside every ring is a ring of its own.
ghost use Rattle.std.specs.Prelude.{◌≡◌, ◌≢◌, ℕ, ◌<◌, length};
ghost use Rattle.pool_state.specs.Ring.{next_of, prev_of, set_at, skipped, after, before};
ghost use Rattle.pool_state.specs.Ring.{AreInverse};

/// The neighbours of one node.
#[derive(Clone, Copy, Debug)]
pub struct Link {
    pub prev: u32,
    pub next: u32,
}

// What follows the node at this index.
fn set_next(links: &mut Vec<Link>, at: u32, next: u32)
    requires { at < length links.old.items }
    ensures nexts { (x : ℕ) → next_of links.new.items x
        ≡ set_at at next (next_of links.old.items) x }
    ensures prevs { (x : ℕ) → prev_of links.new.items x ≡ prev_of links.old.items x }
    ensures len { length links.new.items ≡ length links.old.items }
{
    let prev = links[at as usize].prev;
    links[at as usize] = Link { prev, next };
}

// What is before it.
fn set_prev(links: &mut Vec<Link>, at: u32, prev: u32)
    requires { at < length links.old.items }
    ensures prevs { (x : ℕ) → prev_of links.new.items x
        ≡ set_at at prev (prev_of links.old.items) x }
    ensures nexts { (x : ℕ) → next_of links.new.items x ≡ next_of links.old.items x }
    ensures len { length links.new.items ≡ length links.old.items }
{
    let next = links[at as usize].next;
    links[at as usize] = Link { prev, next };
}

/// Takes a node out of its ring.
pub fn skip(links: &mut Vec<Link>, at: u32)
    requires at { at < length links.old.items }
    requires inverse { AreInverse (next_of links.old.items) (prev_of links.old.items) }
    ensures nexts { (x : ℕ) → next_of links.new.items x
        ≡ skipped at (next_of links.old.items) x }
    ensures prevs { (x : ℕ) → prev_of links.new.items x
        ≡ skipped at (prev_of links.old.items) x }
    ensures inverse { AreInverse (next_of links.new.items) (prev_of links.new.items) }
    ensures len { length links.new.items ≡ length links.old.items }
{
    let Link { prev, next } = links[at as usize];
    set_next(links, prev, next);
    set_prev(links, next, prev);
    set_next(links, at, at);
    set_prev(links, at, at);
}

/// Puts a node that is a ring of its own just before this one.
pub fn splice(links: &mut Vec<Link>, at: u32, end: u32)
    requires at { at < length links.old.items }
    requires end { end < length links.old.items }
    requires apart { at ≢ end }
    requires single { next_of links.old.items at ≡ at }
    requires inverse { AreInverse (next_of links.old.items) (prev_of links.old.items) }
    ensures nexts { (x : ℕ) → next_of links.new.items x
        ≡ before at end (next_of links.old.items) x }
    ensures prevs { (x : ℕ) → prev_of links.new.items x
        ≡ after at end (prev_of links.old.items) x }
    ensures inverse { AreInverse (next_of links.new.items) (prev_of links.new.items) }
    ensures len { length links.new.items ≡ length links.old.items }
{
    let prev = links[end as usize].prev;
    set_next(links, prev, at);
    set_prev(links, end, at);
    set_next(links, at, end);
    set_prev(links, at, prev);
}
