//! The Skolem terms that thin trees and instances need.
ghost use Rattle.std.specs.Prelude.{◌≡◌, ◌<◌, ◌++◌, filter_map, length, option_to_list, slice_get, IfOk, OnOk, Some};
ghost use Rattle.dk_syntax.specs.TermTables.{IsTermTable};
ghost use Rattle.ground_instances.specs.Instances.{clauses_in};
ghost use Rattle.ground_instances.specs.Lists.{instances_of};
ghost use Rattle.skolem_order.specs.Order.{AreGround, AreNeeded, root_terms};

use dk_syntax::{Literal, NoMemory, Seq, Term, copy_terms};
use expansion::Thin;
use ground_instances::{Instance, Instances, instance_at};
use skolem_order::{Origins, needed};
use std::alloc::Global;

fn copied(alloc: Global, thin: &Thin) -> Result<Thin, NoMemory>
    ensures { IfOk result (λ copy. copy ≡ thin.now) }
{
    Ok(Thin {
        sign: thin.sign,
        picks: Seq::from_vec(Vec::from_slice(alloc, thin.picks.as_slice())?),
        terms: copy_terms(alloc, thin.terms.as_slice())?,
        skolems: copy_terms(alloc, thin.skolems.as_slice())?,
    })
}

/// Puts a copy of the thin tree at the end, where there is one.
fn put(alloc: Global, trees: &mut Seq<Thin>, thin: &Option<Thin>) -> Result<(), NoMemory>
    ensures { OnOk result (trees.new ≡ trees.old ++ option_to_list thin.now) }
{
    match thin {
        None => Ok(()),
        Some(thin) => {
            trees.push(copied(alloc, thin)?)?;
            Ok(())
        }
    }
}

/// The thin trees that there are.
fn present(alloc: Global, thins: &[Option<Thin>]) -> Result<Seq<Thin>, NoMemory>
    ensures { IfOk result (λ trees. trees ≡ filter_map (λ thin. thin) thins.now) }
{
    let mut trees = Seq::new(alloc);
    for thin in thins {
        put(alloc, &mut trees, thin)?;
    }
    Ok(trees)
}

/// The ground clause of the instance of that number.
fn clause_at(alloc: Global, instances: &Instances, number: u32) -> Result<Seq<Literal>, NoMemory>
    requires { number < length instances.now.rows }
    ensures { IfOk result (λ lits. slice_get (clauses_in (instances_of instances.now)) number
        ≡ Some lits) }
{
    let Instance {
        step: _,
        stage: _,
        clause: _,
        terms: _,
        lits,
        needs: _,
    } = instance_at(alloc, instances, number)?;
    Ok(lits)
}

/// The ground clauses of the instances.
fn clauses_of(alloc: Global, instances: &Instances) -> Result<Seq<Seq<Literal>>, NoMemory>
    ensures { IfOk result (λ clauses. clauses ≡ clauses_in (instances_of instances.now)) }
{
    let Ok(count) = u32::try_from(instances.rows.len()) else {
        return Err(NoMemory);
    };
    let mut clauses = Seq::new(alloc);
    for number in 0..count {
        let lits = clause_at(alloc, instances, number)?;
        clauses.push(lits)?;
    }
    Ok(clauses)
}

/// The Skolem terms that the thin trees and the instances' clauses need, in order.
pub fn order_of(
    alloc: Global,
    origins: &Origins,
    thins: &[Option<Thin>],
    instances: &Instances,
) -> Result<Seq<Term>, NoMemory>
    ensures needed { IfOk result (λ order.
        AreGround (root_terms (filter_map (λ thin. thin) thins.now)
        (clauses_in (instances_of instances.now)))
        → AreNeeded origins.now.list (root_terms (filter_map (λ thin. thin) thins.now)
        (clauses_in (instances_of instances.now))) order) }
    ensures table { IfOk result (λ order. IsTermTable instances.now.table) }
{
    let _count = instances.table.len();
    let trees = present(alloc, thins)?;
    let clauses = clauses_of(alloc, instances)?;
    needed(alloc, origins, &trees, &clauses)
}
