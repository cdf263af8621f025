//! The first bad step.
ghost use Rattle.std.specs.Prelude.{◌≡◌, ◌<◌, ◌^◌, length};
ghost use Rattle.step_check.specs.Freshness.{IsFirstBad, is_bad};

use crate::verdict::{Verdict, Verdicts};

fn is_bad_verdict(verdict: &Verdict) -> bool
    ensures { result ≡ is_bad verdict.now }
{
    matches!(verdict, Verdict::Wrong(_) | Verdict::Over(_))
}

fn first_bad_of(verdicts: &[Verdict]) -> Option<u32>
    requires { length verdicts.now < 2 ^ 32 }
    ensures { IsFirstBad verdicts.now result }
{
    for (place, verdict) in verdicts.iter().enumerate() {
        if is_bad_verdict(verdict) {
            return Some(place as u32 + 1);
        }
    }
    None
}

/// The least step, counted from 1, that is wrong or over a limit.
pub fn first_bad(v: &Verdicts) -> Option<u32>
    requires { length v.now.list < 2 ^ 32 }
    ensures { IsFirstBad v.now.list result }
{
    first_bad_of(v.list.as_slice())
}
