//! Preorder numbers of quantifiers.
#![tactic(auto, using(crate::proofs::WalkSteps::walk_steps))]

ghost use Rattle.std.specs.Prelude.{◌≡◌, ◌+◌, IfOk};
ghost use Rattle.expansion.specs.Walks.{Passes};
ghost use Rattle.normal_form.specs.Forms.{form_of};

use dk_syntax::NoMemory;
use normal_form::Nf;

/// The numbers of the next universal and of the next existential.
#[derive(Clone, Copy)]
pub struct Numbers {
    pub all: u32,
    pub ex: u32,
}

impl Numbers {
    pub fn after_universal(self) -> Result<Numbers, NoMemory>
        ensures { IfOk result (λ after. (after.all ≡ self.all + 1) × (after.ex ≡ self.ex)) }
    {
        Ok(Numbers {
            all: next(self.all)?,
            ex: self.ex,
        })
    }

    pub fn after_existential(self) -> Result<Numbers, NoMemory>
        ensures { IfOk result (λ after. (after.all ≡ self.all) × (after.ex ≡ self.ex + 1)) }
    {
        Ok(Numbers {
            all: self.all,
            ex: next(self.ex)?,
        })
    }

    /// The numbers behind a form.
    pub fn after(self, nf: &Nf) -> Result<Numbers, NoMemory>
        ensures { IfOk result (λ after. Passes self after (form_of nf.now)) }
    {
        match nf {
            Nf::True | Nf::False | Nf::Lit(_) => Ok(self),
            Nf::And(a, b) => self.after(a.get())?.after(b.get()),
            Nf::Or(a, b) => self.after(a.get())?.after(b.get()),
            Nf::All(a) => self.after_universal()?.after(a.get()),
            Nf::Ex(a) => self.after_existential()?.after(a.get()),
        }
    }
}

/// No memory holds a form with more quantifiers than there are numbers.
fn next(number: u32) -> Result<u32, NoMemory>
    ensures { IfOk result (λ next. next ≡ number + 1) }
{
    number.checked_add(1).ok_or(NoMemory)
}
