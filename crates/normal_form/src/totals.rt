//! Sizes of clause lists, counted without building them.
#![tactic(auto, using(crate::proofs::ListTotals::total_steps))]

ghost use Rattle.std.specs.Prelude.{◌≡◌, ◌*◌};
ghost use Rattle.dk_syntax.specs.Depth.{capped};
ghost use Rattle.normal_form.specs.ClauseLists.{totals};

use crate::form::Nf;

/// The clauses of a list and their literals, each up to the greatest `u64`.
#[derive(Clone, Copy, Debug)]
pub struct Totals {
    pub clauses: u64,
    pub literals: u64,
}

pub fn count_rows(nf: &Nf) -> Totals
    ensures clauses { result.clauses ≡ capped (totals nf.now).0 }
    ensures literals { result.literals ≡ capped (totals nf.now).1 }
{
    match nf {
        Nf::True | Nf::Ex(_) => Totals {
            clauses: 0,
            literals: 0,
        },
        Nf::False => Totals {
            clauses: 1,
            literals: 0,
        },
        Nf::Lit(_) => Totals {
            clauses: 1,
            literals: 1,
        },
        Nf::And(a, b) => {
            let a = count_rows(a.get());
            let b = count_rows(b.get());
            Totals {
                clauses: a.clauses.saturating_add(b.clauses),
                literals: a.literals.saturating_add(b.literals),
            }
        }
        Nf::Or(a, b) => {
            let a = count_rows(a.get());
            let b = count_rows(b.get());
            Totals {
                clauses: product(a.clauses, b.clauses),
                literals: product(a.literals, b.clauses).saturating_add(product(
                    a.clauses, b.literals,
                )),
            }
        }
        Nf::All(a) => count_rows(a.get()),
    }
}

fn product(a: u64, b: u64) -> u64
    ensures { result ≡ capped (a * b) }
{
    a.saturating_mul(b)
}
