//! The instances of worked traces, and their tables of terms.
use crate::expansions::{
    DRINKER_PROBLEM, DRINKER_TRACE, PATH_PROBLEM, PATH_TRACE, planned, report,
};
use plan::Plan;
use std::alloc::Global;
use std::test::Fail;
use std::thread::Threads;

/// The plan of a trace that has one.
fn plan_for<R: Threads + Sync>(
    rt: &R,
    alloc: Global,
    problem: &str,
    trace: &str,
) -> Result<Plan, Fail> {
    match planned(rt, alloc, problem, trace, 1_000_000)? {
        Ok(plan) => Ok(plan),
        Err(_) => Err(Fail::new("the trace has no plan")),
    }
}

#[test]
fn a_table_has_each_term_once(rt: HostRuntime) -> Result<(), Fail> {
    let drinker = plan_for(&rt, rt.alloc(), DRINKER_PROBLEM, DRINKER_TRACE)?;
    let path = plan_for(&rt, rt.alloc(), PATH_PROBLEM, PATH_TRACE)?;
    assert_eq!(rt; drinker.instances.table.len(), 2);
    assert_eq!(rt; path.instances.table.len(), 4);
    Ok(())
}

const SHARED_PROBLEM: &str = "cnf(a1,axiom,p).
cnf(a2,axiom,~p|q).
cnf(a3,axiom,~p|r).
cnf(a4,axiom,~q|~r).
";

const SHARED_TRACE: &str = "cnf(a1,axiom,p,file(x,a1)).
cnf(a2,axiom,~p|q,file(x,a2)).
cnf(a3,axiom,~p|r,file(x,a3)).
cnf(a4,axiom,~q|~r,file(x,a4)).
cnf(c1,plain,q,inference(r,[status(thm)],[a1,a2])).
cnf(c2,plain,r,inference(r,[status(thm)],[a1,a3])).
cnf(c3,plain,~r,inference(r,[status(thm)],[c1,a4])).
cnf(e,plain,$false,inference(r,[status(thm)],[c2,c3])).
";

const SHARED_REPORT: &str = "instance 0 step 1 clause 0: p
thin 0 a1 + picks none terms none skolems none
instance 1 step 3 clause 0: ~p | r
thin 1 a3 + picks none terms none skolems none
instance 2 step 6 clause 0: r
instance 3 step 2 clause 0: ~p | q
thin 3 a2 + picks none terms none skolems none
instance 4 step 5 clause 0: q
instance 5 step 4 clause 0: ~q | ~r
thin 5 a4 + picks none terms none skolems none
instance 6 step 7 clause 0: ~r
instance 7 step 8 clause 0: $false
weight 18
";

// Both steps above need the instance of the first leaf.
#[test]
fn an_instance_that_two_need_stands_once(rt: HostRuntime) -> Result<(), Fail> {
    let text = report(&rt, rt.alloc(), SHARED_PROBLEM, SHARED_TRACE)?;
    assert_eq!(rt; text.as_slice(), SHARED_REPORT.as_bytes());
    Ok(())
}

const MORTAL_PROBLEM: &str = "fof(man,axiom,![X]:(man(X)=>mortal(X))).
fof(soc,axiom,man(socrates)).
fof(goal,conjecture,?[X]:mortal(X)).
";

const MORTAL_TRACE: &str = "# SZS status Theorem
# SZS output start CNFRefutation
fof(goal, conjecture, (?[X1]:(mortal(X1))), file('soc.p', goal)).
fof(man, axiom, (![X1]:((man(X1)=>mortal(X1)))), file('soc.p', man)).
fof(soc, axiom, (man(socrates)), file('soc.p', soc)).
fof(c_0_3, negated_conjecture, (~((?[X1]:(mortal(X1))))), inference(assume_negation,[status(cth)],[goal])).
fof(c_0_4, negated_conjecture, (![X2]:(~mortal(X2))), inference(variable_rename,[status(thm)],[inference(fof_nnf,[status(thm)],[c_0_3])])).
fof(c_0_5, plain, (![X2]:((~man(X2)|mortal(X2)))), inference(variable_rename,[status(thm)],[inference(fof_nnf,[status(thm)],[man])])).
cnf(c_0_6, negated_conjecture, (~mortal(X1)), inference(split_conjunct,[status(thm)],[c_0_4])).
cnf(c_0_7, plain, (mortal(X1)|~man(X1)), inference(split_conjunct,[status(thm)],[c_0_5])).
cnf(c_0_8, plain, (man(socrates)), inference(split_conjunct,[status(thm)],[soc])).
cnf(c_0_9, negated_conjecture, (~man(X1)), inference(spm,[status(thm)],[c_0_6, c_0_7])).
cnf(c_0_10, negated_conjecture, ($false), inference(sr,[status(thm)],[c_0_8, c_0_9]), ['proof']).
# SZS output end CNFRefutation
";

#[test]
fn a_trace_of_e_has_an_instance_a_step_that_is_needed(rt: HostRuntime) -> Result<(), Fail> {
    let plan = plan_for(&rt, rt.alloc(), MORTAL_PROBLEM, MORTAL_TRACE)?;
    let mut steps = Vec::new(rt.alloc());
    for row in plan.instances.rows.as_slice() {
        steps.push(row.step)?;
    }
    assert_eq!(rt; steps.as_slice(), [9, 8, 7, 10, 11].as_slice());
    assert_eq!(rt; plan.weight, 11);
    Ok(())
}

const HALVES_PROBLEM: &str = "cnf(base,axiom,p0(a)).
fof(ax0,axiom,![X]:(~p0(X)|p1(g(X,X)))).
fof(ax1,axiom,![X]:(~p1(X)|p2(g(X,X)))).
fof(ax2,axiom,![X]:(~p2(X)|p3(g(X,X)))).
fof(ax3,axiom,![X]:(~p3(X)|p4(g(X,X)))).
fof(ax4,axiom,![X]:(~p4(X)|p5(g(X,X)))).
fof(ax5,axiom,![X]:(~p5(X)|p6(g(X,X)))).
fof(ax6,axiom,![X]:(~p6(X)|p7(g(X,X)))).
fof(ax7,axiom,![X]:(~p7(X)|p8(g(X,X)))).
fof(ax8,axiom,![X]:(~p8(X)|p9(g(X,X)))).
fof(ax9,axiom,![X]:(~p9(X)|p10(g(X,X)))).
fof(top,axiom,![X]:~p10(X)).
";

const HALVES_TRACE: &str = "cnf(base,axiom,p0(a),file(x,base)).
fof(ax0,axiom,![X]:(~p0(X)|p1(g(X,X))),file(x,ax0)).
fof(ax1,axiom,![X]:(~p1(X)|p2(g(X,X))),file(x,ax1)).
fof(ax2,axiom,![X]:(~p2(X)|p3(g(X,X))),file(x,ax2)).
fof(ax3,axiom,![X]:(~p3(X)|p4(g(X,X))),file(x,ax3)).
fof(ax4,axiom,![X]:(~p4(X)|p5(g(X,X))),file(x,ax4)).
fof(ax5,axiom,![X]:(~p5(X)|p6(g(X,X))),file(x,ax5)).
fof(ax6,axiom,![X]:(~p6(X)|p7(g(X,X))),file(x,ax6)).
fof(ax7,axiom,![X]:(~p7(X)|p8(g(X,X))),file(x,ax7)).
fof(ax8,axiom,![X]:(~p8(X)|p9(g(X,X))),file(x,ax8)).
fof(ax9,axiom,![X]:(~p9(X)|p10(g(X,X))),file(x,ax9)).
fof(top,axiom,![X]:~p10(X),file(x,top)).
cnf(c9,plain,~p9(X),inference(r,[status(thm)],[top,ax9])).
cnf(c8,plain,~p8(X),inference(r,[status(thm)],[c9,ax8])).
cnf(c7,plain,~p7(X),inference(r,[status(thm)],[c8,ax7])).
cnf(c6,plain,~p6(X),inference(r,[status(thm)],[c7,ax6])).
cnf(c5,plain,~p5(X),inference(r,[status(thm)],[c6,ax5])).
cnf(c4,plain,~p4(X),inference(r,[status(thm)],[c5,ax4])).
cnf(c3,plain,~p3(X),inference(r,[status(thm)],[c4,ax3])).
cnf(c2,plain,~p2(X),inference(r,[status(thm)],[c3,ax2])).
cnf(c1,plain,~p1(X),inference(r,[status(thm)],[c2,ax1])).
cnf(c0,plain,~p0(X),inference(r,[status(thm)],[c1,ax0])).
cnf(e,plain,$false,inference(r,[status(thm)],[base,c0])).
";

// Each step doubles the term, of which the table has one more a step.
#[test]
fn shared_halves_weigh_once(rt: HostRuntime) -> Result<(), Fail> {
    let plan = plan_for(&rt, rt.alloc(), HALVES_PROBLEM, HALVES_TRACE)?;
    assert_eq!(rt; plan.instances.rows.len(), 23);
    assert_eq!(rt; plan.weight, 66);
    Ok(())
}
