//! Sets of ready steps.
ghost use Rattle.std.specs.Prelude.{◌≡◌, ◌≢◌, ◌≤◌, ◌⊎◌, ℕ, OnOk, MatchOption};
ghost use Rattle.derivation_graph.specs.Agendas.{IsIn};

use dk_syntax::NoMemory;
use std::collections::BTreeSet;

/// Puts the number into the set.
pub fn put(set: &mut BTreeSet<u32>, number: u32) -> Result<(), NoMemory>
    ensures there { OnOk result (IsIn set.new number) }
    ensures kept { OnOk result ((n : ℕ) → IsIn set.old n → IsIn set.new n) }
    ensures alone { OnOk result ((n : ℕ) → IsIn set.new n → IsIn set.old n ⊎ (n ≡ number)) }
{
    set.insert(number)?;
    Ok(())
}

/// Takes the least number of the set.
pub fn take_least(set: &mut BTreeSet<u32>) -> Option<u32>
    ensures least { MatchOption result ((n : ℕ) → IsIn set.old n → ⊥)
        (λ least. IsIn set.old least × ((n : ℕ) → IsIn set.old n → least ≤ n)) }
    ensures others { MatchOption result ((n : ℕ) → IsIn set.new n → ⊥)
        (λ least. (n : ℕ) → IsIn set.new n → IsIn set.old n × (n ≢ least)) }
    ensures kept { MatchOption result ((n : ℕ) → IsIn set.old n → ⊥)
        (λ least. (n : ℕ) → IsIn set.old n → (n ≡ least) ⊎ IsIn set.new n) }
{
    set.pop_first()
}
