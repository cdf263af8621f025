//! What the order needs of the place of an origin.
#![tactic(auto, using(crate::proofs::WalkSteps::site_steps))]

ghost use Rattle.std.specs.Prelude.{◌≡◌, count_by, reverse, IfOk};
ghost use Rattle.skolem_order.specs.Order.{is_existential};
ghost use Rattle.skolem_order.specs.Origins.{spot_of};
ghost use Rattle.skolem_order.specs.Sites.{outer_in, site_at};

use crate::occurrence::occurs;
use crate::origins::Origin;
use crate::walk::{Around, Walk, find, next};
use dk_syntax::{Formula, NoMemory, Seq};
use std::alloc::Global;

/// How many existentials stand around an origin, and the numbers of those that are free in it.
#[derive(Drop)]
pub struct Site {
    pub rank: u32,
    pub outer: Seq<u32>,
}

pub fn site_of(alloc: Global, origin: &Origin) -> Result<Site, NoMemory>
    ensures { IfOk result (λ site. site ≡ site_at (spot_of origin.now)) }
{
    let mut walk = Walk {
        around: Vec::new(alloc),
        all: 0,
        ex: 0,
    };
    let Some(hit) = find(&mut walk, &origin.leaf, origin.sign, origin.ex)? else {
        return Ok(Site {
            rank: 0,
            outer: Seq::new(alloc),
        });
    };
    let Walk {
        around,
        all: _,
        ex: _,
    } = walk;
    site_in(alloc, hit.formula, around)
}

/// The quantifiers around are handed over with the inmost last.
fn site_in(alloc: Global, f: &Formula, mut around: Vec<Around>) -> Result<Site, NoMemory>
    ensures rank { IfOk result (λ site.
        site.rank ≡ count_by is_existential (reverse around.items)) }
    ensures outer { IfOk result (λ site. site.outer ≡ outer_in f.now 0 (reverse around.items)) }
{
    let mut rank = 0;
    let mut outer = Seq::new(alloc);
    let mut variable = 0;
    while let Some(one) = around.pop() {
        if let Around::Existential(number) = one {
            rank = next(rank)?;
            if occurs(f, variable)? {
                outer.push(number)?;
            }
        }
        variable = next(variable)?;
    }
    Ok(Site { rank, outer })
}
