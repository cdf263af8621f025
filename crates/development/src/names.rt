//! The places of hypotheses, by their names.
#![tactic(auto)]

ghost use Rattle.std.specs.Prelude.{◌≡◌, ℕ, List, unwrap_or, IfOk};
ghost use Rattle.std.specs.HashMap.{get_by};
ghost use Rattle.std.specs.Str.{bytes_eq};
ghost use Rattle.development.specs.PlaceMaps.{place_from};

use dk_syntax::{Named, NoMemory};
use std::alloc::Global;
use std::collections::HashMap;

/// The place of the first hypothesis of each name.
pub fn places_by_name<'a>(
    alloc: Global,
    hyps: &'a [Named],
) -> Result<HashMap<&'a [u8], u32>, NoMemory>
    ensures { IfOk result (λ map. (name : List ℕ)
        → get_by (λ k. bytes_eq name k.now) map ≡ place_from name 0 hyps.now) }
{
    let mut map = HashMap::new(alloc);
    let mut left = u32::try_from(hyps.len()).map_err(|_| NoMemory)?;
    while left > 0 {
        left -= 1;
        let name = hyps[left as usize].name.as_bytes();
        map.insert(name, left)?;
    }
    Ok(map)
}

/// The place of the first hypothesis of that name, and 0 where there is none.
pub fn place_in(map: &HashMap<&[u8], u32>, name: &[u8]) -> u32
    ensures { result ≡ unwrap_or (get_by (λ k. bytes_eq name.now k.now) map.now) 0 }
{
    map.get(name).copied().unwrap_or(0)
}
