//! What is known of steps while a piece is judged.
ghost use Rattle.step_check.specs.Notes.{AreNotes};
ghost use Rattle.step_check.specs.Steps.{Case};

use crate::table::Table;
use crate::verdict::Limit;
use normal_form::{Nf, Sorted};
use std::alloc::Global;
use step_skolem::SkMap;

/// A step's own normal form.
#[derive(Drop)]
pub struct Own {
    /// `None` where it has more nodes than the limit.
    pub form: Option<Nf>,
    /// Whether an existential stands in it.
    pub exists: bool,
    /// The limit that it passes, or else its clause list.
    pub limit: Option<Limit>,
}

/// How a step hangs on its one parent.
#[derive(Drop)]
pub enum Link {
    /// It isn't structural.
    Apart,
    /// It has the form of that parent up to order and grouping.
    Same(u32),
    /// It is a Skolem image of that parent's form under the map.
    Skolem(u32, SkMap),
}

/// A step's representative.
#[derive(Drop)]
pub enum Representative {
    /// The step's own normal form.
    Own,
    Image(Nf),
}

/// Own forms, their sorted forms, and how steps hang on their parents.
#[derive(Drop)]
pub struct Forms {
    pub owns: Table<Own>,
    pub sorts: Table<Sorted>,
    pub links: Table<Link>,
}

/// The same, and representatives.
#[derive(Drop)]
pub struct Notes {
    pub forms: Forms,
    pub images: Table<Representative>,
}

/// Nothing is known. It takes no memory.
pub fn blank(alloc: Global) -> Notes
    ensures { (case : Case) → AreNotes case result }
{
    Notes {
        forms: Forms {
            owns: Table::new(alloc),
            sorts: Table::new(alloc),
            links: Table::new(alloc),
        },
        images: Table::new(alloc),
    }
}
