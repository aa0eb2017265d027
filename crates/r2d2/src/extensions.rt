// What users keep beside a connection.
ghost use Rattle.std.specs.Prelude.{◌≡◌, ◌<◌, length, [], List, IfOk, IfErr, OnErr, OnOk, IfSome};
ghost use Rattle.std.specs.Prelude.{IfNone};
ghost use Rattle.std.specs.Prelude.{option_copied, position};
ghost use Rattle.std.specs.List.{IsDistinct};
ghost use Rattle.std.specs.Map.{lookup, remove_entry, set_value, keys_of};
ghost use Rattle.r2d2.specs.Entries.{with_entry, ChangesKind, IsChangeable, IsPlaceOf};

use std::alloc::Global;
use std::marker::Model;
use std::mem;

/// A value that names the kind under which it is kept. Mostly it is an enum, with a case for each
/// kind; it is `()` if nothing is kept.
pub trait Extension {
    /// The kinds. There is at most one value for each.
    type Kind: Eq + Drop + 'static;

    /// The kind of a value, as contracts name it: the same as `kind`, in the language of contracts.
    /// For an enum it lists the cases, as `ghost kind_of = { λ v. elim v [ Number _ ↦ OfNumber |
    /// Word _ ↦ OfWord ] };` does.
    ghost kind_of: { Self → Self.Kind };

    /// The kind of this value.
    fn kind(&self) -> Self::Kind
        ensures { result ≡ kind_of self.now };
}

/// Nothing: for a manager that keeps nothing beside its connections. It has one kind, under which
/// nobody keeps anything.
impl Extension for () {
    type Kind = ();

    ghost kind_of = { λ nothing. nothing };

    fn kind(&self) {}
}

/// Values that are kept beside a connection, such as prepared statements: at most one of each kind.
/// They stay with their connection until it is closed, and a new connection has none. A value stays
/// under the kind that it named when it was put in.
#[derive(Drop)]
pub struct Extensions<X: Extension> {
    entries: Vec<(X::Kind, X)>,
}

impl<X: Extension> Model for Extensions<X> {
    ghost Value = { List (X.Kind × X) };

    ghost view = { λ e. e.entries.items };

    ghost invariant = { λ e. IsDistinct X.Kind.eq (keys_of e.entries.items) };
}

impl<X: Extension> Extensions<X> {
    ghost use Rattle.std.specs.Borrow.{sem, LendsIf};
    ghost use Rattle.std.specs.Option.{option_copied_mut};
    ghost use Rattle.r2d2.specs.contracts.extensions.Extensions.{the_row};

    /// No values. It takes no memory.
    #[tactic(auto, using(crate::proofs::Places::distinct_empty))]
    pub fn new(alloc: Global) -> Extensions<X>
        ensures { result ≡ [] }
    {
        Extensions {
            entries: Vec::new(alloc),
        }
    }

    /// Puts the value under the kind that it names, and returns the value that was there. If memory
    /// is refused, nothing changes and the value comes back; that can happen only for a kind that
    /// had none.
    #[tactic(auto, using(crate::proofs::Places::distinct_set))]
    pub fn insert(&mut self, value: X) -> Result<Option<X>, X>
        ensures replaced { IfOk result
            (λ replaced. replaced ≡ lookup (X.Kind.eq (X.kind_of value)) self.old) }
        ensures entries { OnOk result (self.new
            ≡ with_entry (X.Kind.eq (X.kind_of value)) self.old (X.kind_of value) value) }
        ensures map { OnOk result (ChangesKind X.Kind.eq (X.kind_of value)
            (Some value) self.old self.new) }
        ensures refused { IfErr result (λ back. back ≡ value) }
        ensures unchanged { OnErr result (self.new ≡ self.old) }
        ensures only_new { OnErr result (lookup (X.Kind.eq (X.kind_of value)) self.old ≡ None) }
    {
        let kind = value.kind();
        match place_of(&self.entries, &kind) {
            Some(place) => Ok(Some(mem::replace(&mut self.entries[place].1, value))),
            None => match self.entries.push((kind, value)) {
                Ok(()) => Ok(None),
                Err(refused) => {
                    let (_, value) = refused.value;
                    Err(value)
                }
            },
        }
    }

    /// The value under the kind, if there is one.
    pub fn get(&self, kind: &X::Kind) -> Option<&X>
        ensures value { option_copied result ≡ lookup (X.Kind.eq kind.now) self.now }
        ensures one_of_each { IsDistinct X.Kind.eq (keys_of self.now) }
    {
        let place = place_of(&self.entries, kind)?;
        Some(&self.entries[place].1)
    }

    /// The value under the kind, to be changed. It stays under this kind, whatever is written.
    #[tactic(auto, using(crate::proofs::Places::distinct_set))]
    pub fn get_mut(&mut self, kind: &X::Kind) -> Option<&mut X>
        ensures value { option_copied_mut result ≡ lookup (X.Kind.eq kind.now) self.old }
        ensures map { IfSome result (λ _. IsChangeable X.Kind.eq kind.now self.old) }
        ensures* writes_back { sem 𝓛 (LendsIf (the_row X.row X.Kind.row X.Extension
            X.Kind.PartialEq) X.row self.entry result (set_value
            (X.Kind.eq kind.now) self.old) self.old) }
    {
        let place = place_of(&self.entries, kind)?;
        let entry = &mut self.entries[place];
        Some(&mut entry.1)
    }

    /// Takes out the value under the kind, if there is one.
    #[tactic(auto, using(crate::proofs::Places::distinct_removed))]
    pub fn remove(&mut self, kind: &X::Kind) -> Option<X>
        ensures value { result ≡ lookup (X.Kind.eq kind.now) self.old }
        ensures entries { self.new ≡ remove_entry (X.Kind.eq kind.now) self.old }
        ensures map { ChangesKind X.Kind.eq kind.now None self.old self.new }
    {
        let place = place_of(&self.entries, kind)?;
        let (_, value) = self.entries.remove(place);
        Some(value)
    }

    /// Drops every value.
    #[tactic(auto, using(crate::proofs::Places::distinct_empty))]
    pub fn clear(&mut self)
    where
        X: Drop,
        ensures { self.new ≡ [] }
    {
        self.entries.clear();
    }
}

// The place of the entry of this kind.
fn position_of<K: Eq, X>(entries: &[(K, X)], kind: &K) -> Option<usize>
    ensures { result ≡ position (λ e. K.eq kind.now e.0) entries.now }
{
    entries.iter().position(|entry| *kind == entry.0)
}

// The same place, said in the words of maps. Where it lies, and that there is nothing to remove, is
// said by itself, since callers are proved faster by it.
fn place_of<K: Eq, X>(entries: &[(K, X)], kind: &K) -> Option<usize>
    ensures none { IfNone result (lookup (K.eq kind.now) entries.now ≡ None) }
    ensures nothing_to_remove { IfNone result (remove_entry (K.eq kind.now) entries.now
        ≡ entries.now) }
    ensures some { IfSome result (IsPlaceOf (K.eq kind.now) entries.now) }
    ensures within { IfSome result (λ place. place < length entries.now) }
{
    position_of(entries, kind)
}
