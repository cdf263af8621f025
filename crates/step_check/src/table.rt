//! Tables by the numbers of steps.
#![tactic(auto, using(crate::proofs::TableLaws::at_more))]

ghost use Rattle.std.specs.Prelude.{◌≡◌, ◌≢◌, ◌≤◌, ℕ, length, [], None, Some, MatchOption, OnOk};
ghost use Rattle.step_check.specs.Tables.{at, IsKnown};

use dk_syntax::NoMemory;
use std::alloc::Global;
use std::marker::Model;

/// What is known of steps, by their numbers.
#[derive(Drop)]
pub struct Table<T> {
    slots: Vec<Option<T>>,
}

impl<T> Model for Table<T> {
    ghost use Rattle.std.specs.Prelude.{List, Option};

    ghost Value = { List (Option T) };

    ghost view = { λ table. table.slots.items };
}

/// Makes at least so many places.
fn grow<T: Drop>(slots: &mut Vec<Option<T>>, count: usize) -> Result<(), NoMemory>
    ensures long { OnOk result (count ≤ length slots.new.items) }
    ensures same { OnOk result ((i : ℕ) → at slots.new.items i ≡ at slots.old.items i) }
{
    while slots.len() < count {
        slots.push(None)?;
    }
    Ok(())
}

impl<T: Drop> Table<T> {
    /// A table of nothing, which takes no memory.
    pub fn new(alloc: Global) -> Table<T>
        ensures { result ≡ [] }
    {
        Table {
            slots: Vec::new(alloc),
        }
    }

    /// What stands at that number.
    pub fn get(&self, number: u32) -> Option<&T>
        ensures { MatchOption result (at self.now number ≡ None)
            (λ item. at self.now number ≡ Some item.now) }
    {
        match self.slots.get(number as usize) {
            Some(Some(item)) => Some(item),
            _ => None,
        }
    }

    /// What stands at that number, where something does.
    pub fn known(&self, number: u32) -> &T
        requires { IsKnown self.now number }
        ensures { at self.now number ≡ Some result.now }
    {
        match self.get(number) {
            Some(item) => item,
            None => unreachable!(),
        }
    }

    /// Puts the item at that number.
    pub fn put(&mut self, number: u32, item: T) -> Result<(), NoMemory>
        ensures there { OnOk result (at self.new number ≡ Some item) }
        ensures others { OnOk result ((other : ℕ) → other ≢ number
            → at self.new other ≡ at self.old other) }
    {
        let place = number as usize;
        grow(&mut self.slots, place + 1)?;
        self.slots[place] = Some(item);
        Ok(())
    }
}
