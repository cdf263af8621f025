//! What the proof of a derivation is made from.
ghost use Rattle.std.specs.Prelude.{◌≡◌, ◌<◌};
ghost use Rattle.dk_cli.specs.Planning.{IsPlanOf, planning_refusal};
ghost use Rattle.dk_cli.specs.Stages.{Answered, told_by};
ghost use Rattle.dk_cli.specs.Steps.{IsDerived};

use crate::derivation::Derivation;
use crate::refusal::{Refusal, StepFault};
use dk_io::Gate;
use plan::{Plan, PlanFault, make_plan};
use std::alloc::Global;
use std::thread::Threads;

fn plan_told(fault: PlanFault) -> Refusal
    ensures { result ≡ planning_refusal fault }
{
    match fault {
        PlanFault::MissingParent { step, name } => Refusal::Step {
            step,
            fault: StepFault::MissingParent(name),
        },
        PlanFault::Cycle { step } => Refusal::Step {
            step,
            fault: StepFault::Cycle,
        },
        PlanFault::NoRefutation => Refusal::NoRefutation,
        PlanFault::Wrong { step, reason } => Refusal::Step {
            step,
            fault: StepFault::Wrong(reason),
        },
        PlanFault::Over { step, limit } => Refusal::Step {
            step,
            fault: StepFault::Over(limit),
        },
        PlanFault::OverWeight { limit } => Refusal::OverWeight(limit),
        PlanFault::OverWide { step } => Refusal::OverWide { step },
        PlanFault::Memory => Refusal::Memory,
    }
}

fn told_plan(found: Result<Plan, PlanFault>) -> Result<Plan, Refusal>
    ensures { result ≡ told_by planning_refusal found }
{
    match found {
        Ok(plan) => Ok(plan),
        Err(fault) => Err(plan_told(fault)),
    }
}

/// The plan for a derivation and that limit on the weight, or the first refusal.
pub fn planned<R: Threads + Sync, G: Gate>(
    rt: &R,
    alloc: Global,
    derivation: &Derivation,
    limit: u64,
    workers: u32,
    gate: &G,
) -> Result<Plan, Refusal>
    requires derived { IsDerived derivation.now }
    requires workers { 0 < workers }
    ensures { Answered (IsPlanOf limit derivation.now) result }
{
    let problem = &derivation.problem;
    let trace = &derivation.trace;
    told_plan(make_plan(rt, alloc, problem, trace, limit, workers, gate))
}
