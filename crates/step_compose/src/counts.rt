//! Sizes of full images' clause lists, counted without building them.
#![tactic(auto, using(crate::proofs::ImageCounts::count_steps))]

ghost use Rattle.std.specs.Prelude.{◌≡◌, ◌*◌, ◌↔◌, ℕ, length, IsTrue};
ghost use Rattle.dk_syntax.specs.Depth.{capped};
ghost use Rattle.dk_syntax.specs.declared.SymKey.{SymKey};
ghost use Rattle.normal_form.specs.ClauseLists.{clause_rows, literal_count};
ghost use Rattle.normal_form.specs.Forms.{form_of};
ghost use Rattle.step_compose.specs.Composing.{IsListed};
ghost use Rattle.step_compose.specs.Counting.{full_totals};
ghost use Rattle.step_compose.specs.FullImages.{full_image};

use normal_form::Nf;

/// The clauses of a full image's list and their literals, each up to the greatest `u64`.
#[derive(Clone, Copy, Debug)]
pub struct FullCounts {
    pub clauses: u64,
    pub literals: u64,
}

/// The sizes of the clause list of the form with each existential replaced, whatever the symbols are. It takes no
/// memory.
pub fn full_counts(nf: &Nf) -> FullCounts
    ensures clauses { (symbols : ℕ → SymKey)
        → result.clauses ≡ capped (length (clause_rows (full_image symbols nf.now))) }
    ensures literals { (symbols : ℕ → SymKey)
        → result.literals ≡ capped (literal_count (clause_rows (full_image symbols nf.now))) }
{
    count(nf)
}

/// Whether the clause list of the form with each existential replaced has at most 4,096 clauses and 65,536 literals.
pub fn is_listed(nf: &Nf) -> bool
    ensures { IsTrue result ↔ IsListed nf.now }
{
    let counts = count(nf);
    counts.clauses <= 4096 && counts.literals <= 65536
}

fn count(nf: &Nf) -> FullCounts
    ensures clauses { result.clauses ≡ capped (full_totals (form_of nf.now)).0 }
    ensures literals { result.literals ≡ capped (full_totals (form_of nf.now)).1 }
{
    match nf {
        Nf::True => FullCounts {
            clauses: 0,
            literals: 0,
        },
        Nf::False => FullCounts {
            clauses: 1,
            literals: 0,
        },
        Nf::Lit(_) => FullCounts {
            clauses: 1,
            literals: 1,
        },
        Nf::And(a, b) => {
            let a = count(a.get());
            let b = count(b.get());
            FullCounts {
                clauses: a.clauses.saturating_add(b.clauses),
                literals: a.literals.saturating_add(b.literals),
            }
        }
        Nf::Or(a, b) => {
            let a = count(a.get());
            let b = count(b.get());
            FullCounts {
                clauses: product(a.clauses, b.clauses),
                literals: product(a.literals, b.clauses).saturating_add(product(
                    a.clauses, b.literals,
                )),
            }
        }
        Nf::All(a) | Nf::Ex(a) => count(a.get()),
    }
}

fn product(a: u64, b: u64) -> u64
    ensures { result ≡ capped (a * b) }
{
    a.saturating_mul(b)
}
