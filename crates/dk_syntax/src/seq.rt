//! A list of items.
ghost use Rattle.std.specs.Prelude.{◌≡◌, [], ◌∷◌, ◌++◌, ◌<◌, ◌↔◌, length, slice_get, slice_set, IsTrue, OnOk, IfErr, MatchOption};

use std::alloc::Global;
use std::hash::{Hash, Hasher};
use std::marker::Model;

/// Want of memory at a push, with the item that found no room.
#[derive(Debug, Drop)]
pub struct NoRoom<T> {
    pub item: T,
}

/// A `Vec` that contracts see as the list of its items. It may stand inside a type that stands in it.
#[derive(Debug)]
pub struct Seq<T> {
    items: Vec<T>,
}

impl<T> Model for Seq<T> {
    ghost use Rattle.std.specs.Prelude.{List};
    ghost use Rattle.std.specs.Coded.{coded_list};

    ghost Value = { List T };

    ghost coded = { coded_list T.code };

    ghost view = { λ seq. seq.items.items };
}

impl<T> Seq<T> {
    /// An empty list, which takes no memory.
    pub fn new(alloc: Global) -> Seq<T>
        ensures { result ≡ [] }
    {
        Seq {
            items: Vec::new(alloc),
        }
    }

    pub fn from_vec(items: Vec<T>) -> Seq<T>
        ensures { result ≡ items.items }
    {
        Seq { items }
    }

    pub fn into_vec(self) -> Vec<T>
        ensures { result.items ≡ self }
    {
        let Seq { items } = self;
        items
    }

    pub fn as_slice(&self) -> &[T]
        ensures { result.now ≡ self.now }
    {
        self.items.as_slice()
    }

    pub fn len(&self) -> usize
        ensures { result ≡ length self.now }
    {
        self.items.len()
    }

    pub fn is_empty(&self) -> bool
        ensures { IsTrue result ↔ (self.now ≡ []) }
    {
        self.items.is_empty()
    }

    /// Puts the item at the end. Where memory lacks, the list stays as it was and the item comes back.
    pub fn push(&mut self, x: T) -> Result<(), NoRoom<T>>
        ensures ok { OnOk result (self.new ≡ self.old ++ x ∷ []) }
        ensures err { IfErr result (λ e. (self.new ≡ self.old) × (e.item ≡ x)) }
    {
        match self.items.push(x) {
            Ok(()) => Ok(()),
            Err(refused) => Err(NoRoom {
                item: refused.value,
            }),
        }
    }

    /// Takes the last item, where there is one.
    pub fn pop(&mut self) -> Option<T>
        ensures { MatchOption result ((self.old ≡ []) × (self.new ≡ []))
            (λ last. self.old ≡ self.new ++ last ∷ []) }
    {
        self.items.pop()
    }

    /// Puts an item in the place of another, which it answers.
    pub fn replace(&mut self, at: usize, x: T) -> T
        requires { at < length self.old }
        ensures item { slice_get self.old at ≡ Some result }
        ensures list { self.new ≡ slice_set self.old at x }
    {
        std::mem::replace(&mut self.items[at], x)
    }
}

// By hand: a type that stands in its own `Seq` could have no drop of its own over a derived one.
impl<T: Drop> Drop for Seq<T> {
    fn drop(self) {
        let Seq { items: _ } = self;
    }
}

impl<T: PartialEq> PartialEq for Seq<T> {
    ghost use Rattle.std.specs.Cmp.Lexicographic.{pointwise, lists_per};

    ghost eq = { λ a b. pointwise T.eq a b };

    ghost laws = { lists_per T.laws };

    fn eq(&self, other: &Seq<T>) -> bool {
        self.items == other.items
    }
}

impl<T: Eq> Eq for Seq<T> {
    ghost use Rattle.std.specs.Cmp.Lexicographic.{lists_equiv};

    ghost laws = { lists_equiv T.Eq.laws };
}

impl<T: Hash> Hash for Seq<T> {
    ghost use Rattle.std.specs.Hash as fed;
    ghost use Rattle.std.specs.Hash.{items_Alike};

    ghost hash_input = { λ list. fed.slice T.hash_input list };

    ghost respects_eq = { (items_Alike (record { fed = T.respects_eq })).fed };

    fn hash<H: Hasher>(&self, state: &mut H) {
        self.items.hash(state);
    }
}
