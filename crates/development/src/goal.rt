//! The definition of goal, and the whole development.
#![tactic(auto)]

ghost use Rattle.std.specs.Prelude.{◌≡◌, ◌<◌, ◌++◌, ◌∷◌, [], ℕ, List, codes, length, IfOk};
ghost use Rattle.std.specs.HashMap.{get_by};
ghost use Rattle.std.specs.Str.{bytes_eq};
ghost use Rattle.assemble.specs.Fitting.{eigenvariables_of, symbols_of};
ghost use Rattle.assemble.specs.Places.{last_of};
ghost use Rattle.assemble.specs.Problem.{theory_conclusion};
ghost use Rattle.development.specs.Buildable.{IsBuildable};
ghost use Rattle.development.specs.Development.{IsDevelopment};
ghost use Rattle.development.specs.Nest.{inner};
ghost use Rattle.development.specs.PlaceMaps.{place_from};
ghost use Rattle.development.specs.Places.{IsGiven, IsLaidOut};
ghost use Rattle.lp_term.specs.LambdaPi.{app};
ghost use Rattle.lp_term.specs.Prelude.{prelude};
ghost use Rattle.lp_term.specs.Problems.{constants_of, goal_type_of};
ghost use Rattle.lp_term.specs.View.{term_of};
ghost use Rattle.nd_term.specs.Places.{last_variables};
ghost use Rattle.nd_term.specs.Translation.{sentence};
ghost use Rattle.plan_typing.specs.Laws.{plan_body};
ghost use Rattle.plan_typing.specs.Reasons.{theory_instances};

use crate::body::{assumed, conclusion, drinking, symbols_of};
use crate::given::{Given, further};
use crate::lets::lets;
use crate::names::places_by_name;
use crate::nest::nest;
use dk_syntax::{NoMemory, Problem, Seq, SymKey};
use lp_term::{Command, Dev, Ident, Lp, constants, goal_type, prelude};
use nd_term::build::{apply, symbol, variable};
use nd_term::contradict;
use plan::Plan;
use std::alloc::Global;
use std::collections::HashMap;
use tstp_trace::Trace;

/// The variable of the last of so many instances, inside all lets, and `any` where there is none.
fn last(alloc: Global, count: usize) -> Result<Lp, NoMemory>
    ensures { IfOk result (λ t. term_of t ≡ last_of (last_variables count)) }
{
    if count == 0 {
        return symbol(alloc, b"any");
    }
    Ok(variable(0))
}

/// The last instance at the conjecture.
fn end(alloc: Global, count: usize, conjecture: &Lp) -> Result<Lp, NoMemory>
    ensures { IfOk result (λ t. term_of t
        ≡ app (last_of (last_variables count)) (term_of conjecture.now)) }
{
    let instance = last(alloc, count)?;
    apply(alloc, instance, conjecture.copy(alloc)?)
}

/// How many binders stand between the denied conjecture's own place and the first eigenvariable or instance: the
/// conjecture's, and those of the drinkers where there is an eigenvariable.
fn binders(order: usize) -> usize
    ensures none { order ≡ 0 → result ≡ 1 }
    ensures some { 0 < order → result ≡ 3 }
{
    if order == 0 { 1 } else { 3 }
}

/// The levels of what the body binds.
fn laid_out<'a, 'b>(
    problem: &'a Problem,
    trace: &'a Trace,
    plan: &'a Plan,
    symbols: &'a Seq<SymKey>,
    names: &'a HashMap<&'b [u8], u32>,
) -> Result<Given<'a, 'b>, NoMemory>
    requires symbols { symbols.now ≡ symbols_of plan.now.origins.list }
    requires names { (name : List ℕ)
        → get_by (λ k. bytes_eq name k.now) names.now ≡ place_from name 0 problem.now.hyps }
    ensures given { IfOk result IsGiven }
    ensures levels { IfOk result IsLaidOut }
    ensures problem { IfOk result (λ given. given.problem.now ≡ problem.entry.now) }
    ensures trace { IfOk result (λ given. given.trace.now ≡ trace.entry.now) }
    ensures plan { IfOk result (λ given. given.plan.now ≡ plan.entry.now) }
{
    let denied = further(0, problem.hyps.len())?;
    let first = further(denied, binders(plan.order.len()))?;
    let half = further(first, plan.order.len())?;
    let begin = further(half, plan.order.len())?;
    Ok(Given {
        problem,
        trace,
        plan,
        symbols,
        names,
        denied,
        first,
        begin,
    })
}

/// The body inside the denied conjecture.
fn inner(alloc: Global, given: &Given<'_, '_>, conjecture: &Lp) -> Result<Lp, NoMemory>
    requires given { IsGiven given.now }
    requires levels { IsLaidOut given.now }
    requires buildable { IsBuildable given.now.problem.now given.now.trace.now given.now.plan.now }
    requires conclusion { term_of conjecture.now
        ≡ sentence (theory_conclusion given.now.problem.now.conjecture) }
    ensures { IfOk result (λ t. term_of t ≡ inner given.now.denied
        (eigenvariables_of given.now.plan.now.origins.list given.now.plan.now.order)
        (theory_instances given.now.problem.now given.now.trace.now given.now.plan.now)
        (theory_conclusion given.now.problem.now.conjecture)) }
{
    let inside = end(alloc, given.plan.instances.rows.len(), conjecture)?;
    let instances = lets(alloc, given, inside)?;
    let nested = nest(alloc, given, conjecture, instances)?;
    if given.plan.order.len() == 0 {
        return Ok(nested);
    }
    drinking(alloc, nested)
}

/// The body of goal.
fn body(alloc: Global, problem: &Problem, trace: &Trace, plan: &Plan) -> Result<Lp, NoMemory>
    requires { IsBuildable problem.now trace.now plan.now }
    ensures { IfOk result (λ t. term_of t ≡ plan_body problem.now trace.now plan.now) }
{
    let symbols = symbols_of(alloc, plan.origins.list.as_slice())?;
    let names = places_by_name(alloc, problem.hyps.as_slice())?;
    let given = laid_out(problem, trace, plan, &symbols, &names)?;
    let conjecture = conclusion(alloc, &problem.conjecture)?;
    let inside = inner(alloc, &given, &conjecture)?;
    let whole = contradict(alloc, &conjecture, inside)?;
    assumed(alloc, problem.hyps.as_slice(), whole)
}

/// The definition of goal with this body.
fn goal(alloc: Global, problem: &Problem, body: Lp) -> Result<Command, NoMemory>
    ensures { IfOk result (λ command. command
        ≡ Command.Define (codes "goal") (goal_type_of problem.now) body) }
{
    let name = Ident::new(Vec::from_slice(alloc, b"goal")?);
    let statement = goal_type(alloc, problem)?;
    Ok(Command::Define(name, statement, body))
}

/// The prelude, a constant for each symbol of the problem, and this definition.
fn commands(alloc: Global, problem: &Problem, definition: Command) -> Result<Dev, NoMemory>
    ensures { IfOk result (λ dev. dev.commands
        ≡ prelude ++ constants_of problem.now.symbols ++ definition ∷ []) }
{
    let mut commands = prelude(alloc)?.into_vec();
    let mut declared = constants(alloc, problem.symbols.as_slice())?.into_vec();
    commands.append(&mut declared)?;
    commands.push(definition)?;
    Ok(Dev {
        commands: Seq::from_vec(commands),
    })
}

/// The development of a problem and a plan: the prelude, a constant for each symbol of the problem, and the definition of
/// goal. The only error is want of memory, and a level that a `u32` has no room for is one.
pub fn development(
    alloc: Global,
    problem: &Problem,
    trace: &Trace,
    plan: &Plan,
) -> Result<Dev, NoMemory>
    requires { IsBuildable problem.now trace.now plan.now }
    ensures { IfOk result (λ dev. IsDevelopment problem.now trace.now plan.now dev) }
{
    let body = body(alloc, problem, trace, plan)?;
    let definition = goal(alloc, problem, body)?;
    commands(alloc, problem, definition)
}
