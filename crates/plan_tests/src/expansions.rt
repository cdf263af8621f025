//! The reports on the expansions of worked traces.
use dk_io::NoGate;
use extract::expansion_report;
use plan::{Plan, PlanFault, make_plan};
use std::alloc::Global;
use std::test::Fail;
use std::thread::Threads;
use tptp_text::read_items;
use tstp_trace::{problem_from, trace_from};

/// The plan of a problem and a trace, or the first refusal.
pub fn planned<R: Threads + Sync>(
    rt: &R,
    alloc: Global,
    problem: &str,
    trace: &str,
    limit: u64,
) -> Result<Result<Plan, PlanFault>, Fail> {
    let problem = problem_from(alloc, read_items(alloc, problem.as_bytes())?)?;
    let trace = trace_from(alloc, read_items(alloc, trace.as_bytes())?)?;
    Ok(make_plan(rt, alloc, &problem, &trace, limit, 4, &NoGate))
}

/// The report on the expansion.
pub fn report<R: Threads + Sync>(
    rt: &R,
    alloc: Global,
    problem: &str,
    text: &str,
) -> Result<Vec<u8>, Fail> {
    let plan = planned(rt, alloc, problem, text, 1_000_000)?;
    let trace = trace_from(alloc, read_items(alloc, text.as_bytes())?)?;
    match plan {
        Ok(plan) => Ok(expansion_report(alloc, &trace, &plan)?),
        Err(_) => Err(Fail::new("the trace has no plan")),
    }
}

pub const DRINKER_PROBLEM: &str = "fof(g,conjecture,?[X]:(p(X)=>![Y]:p(Y))).
";

pub const DRINKER_TRACE: &str = "fof(g,conjecture,?[X]:(p(X)=>![Y]:p(Y)),file(x,g)).
fof(n,negated_conjecture,~?[X]:(p(X)=>![Y]:p(Y)),inference(n,[status(cth)],[g])).
fof(m,plain,![X]:(p(X)&?[Y]:~p(Y)),inference(f,[status(thm)],[n])).
fof(s,plain,![X]:(p(X)&~p(f(X))),inference(k,[status(esa)],[m])).
cnf(c1,plain,p(X),inference(c,[status(thm)],[s])).
cnf(c2,plain,~p(f(X)),inference(c,[status(thm)],[s])).
cnf(e,plain,$false,inference(r,[status(thm)],[c1,c2])).
";

const DRINKER_REPORT: &str = "eigen 0 f($any): ~![X0]:p(X0)
instance 0 step 4 clause 0: p(f($any))
thin 0 g - picks L terms f($any) skolems none
instance 1 step 5 clause 0: p(f($any))
instance 2 step 4 clause 1: ~p(f($any))
thin 2 g - picks R terms $any skolems f($any)
instance 3 step 6 clause 0: ~p(f($any))
instance 4 step 7 clause 0: $false
weight 11
";

// A negated conjecture is a leaf with a negative sign, and its universal an existential.
#[test]
fn the_drinker_has_one_eigenvariable(rt: HostRuntime) -> Result<(), Fail> {
    let text = report(&rt, rt.alloc(), DRINKER_PROBLEM, DRINKER_TRACE)?;
    assert_eq!(rt; text.as_slice(), DRINKER_REPORT.as_bytes());
    Ok(())
}

pub const PATH_PROBLEM: &str = "fof(a1,axiom,![Y]:?[X]:r(Y,X)).
fof(g,conjecture,?[X,Y,Z]:((r(a,X)&r(X,Y))&r(Y,Z))).
";

pub const PATH_TRACE: &str = "fof(a1,axiom,![Y]:?[X]:r(Y,X),file(x,a1)).
fof(g,conjecture,?[X,Y,Z]:((r(a,X)&r(X,Y))&r(Y,Z)),file(x,g)).
fof(s,plain,![Y]:r(Y,f(Y)),inference(k,[status(esa)],[a1])).
fof(n,negated_conjecture,~?[X,Y,Z]:((r(a,X)&r(X,Y))&r(Y,Z)),inference(n,[status(cth)],[g])).
cnf(c1,plain,~r(a,X)|~r(X,Y)|~r(Y,Z),inference(c,[status(thm)],[n])).
cnf(c2,plain,~r(f(a),Y)|~r(Y,Z),inference(r,[status(thm)],[c1,s])).
cnf(c3,plain,~r(f(f(a)),Z),inference(r,[status(thm)],[c2,s])).
cnf(e,plain,$false,inference(r,[status(thm)],[c3,s])).
";

const PATH_REPORT: &str = "eigen 0 f(a): ?[X0]:r(a,X0)
eigen 1 f(f(a)): ?[X0]:r(f(a),X0)
eigen 2 f(f(f(a))): ?[X0]:r(f(f(a)),X0)
instance 0 step 3 clause 0: r(f(f(a)),f(f(f(a))))
thin 0 a1 + picks none terms f(f(a)) skolems f(f(f(a)))
instance 1 step 3 clause 0: r(f(a),f(f(a)))
thin 1 a1 + picks none terms f(a) skolems f(f(a))
instance 2 step 3 clause 0: r(a,f(a))
thin 2 a1 + picks none terms a skolems f(a)
instance 3 step 5 clause 0: ~r(a,f(a)) | ~r(f(a),f(f(a))) | ~r(f(f(a)),f(f(f(a))))
thin 3 g - picks none terms f(a), f(f(a)), f(f(f(a))) skolems none
instance 4 step 6 clause 0: ~r(f(a),f(f(a))) | ~r(f(f(a)),f(f(f(a))))
instance 5 step 7 clause 0: ~r(f(f(a)),f(f(f(a))))
instance 6 step 8 clause 0: $false
weight 20
";

// Each Skolem term comes after the one that stands in it.
#[test]
fn nested_terms_stand_by_their_depth(rt: HostRuntime) -> Result<(), Fail> {
    let text = report(&rt, rt.alloc(), PATH_PROBLEM, PATH_TRACE)?;
    assert_eq!(rt; text.as_slice(), PATH_REPORT.as_bytes());
    Ok(())
}

#[test]
fn the_limit_itself_is_let_through(rt: HostRuntime) -> Result<(), Fail> {
    let within = planned(&rt, rt.alloc(), PATH_PROBLEM, PATH_TRACE, 20)?;
    let above = planned(&rt, rt.alloc(), PATH_PROBLEM, PATH_TRACE, 19)?;
    assert!(rt; within.is_ok());
    assert!(rt; matches!(above, Err(PlanFault::OverWeight { limit: 19 })));
    Ok(())
}

const SHARED_PROBLEM: &str = "fof(a1,axiom,![Y,Z]:(q(Z)|?[X]:r(Y,X))).
fof(a2,axiom,~q(a)|~q(b)).
fof(a5,axiom,![X]:~r(a,X)).
";

const SHARED_TRACE: &str = "fof(a1,axiom,![Y,Z]:(q(Z)|?[X]:r(Y,X)),file(x,a1)).
fof(a2,axiom,~q(a)|~q(b),file(x,a2)).
fof(a5,axiom,![X]:~r(a,X),file(x,a5)).
fof(s,plain,![Y,Z]:(q(Z)|r(Y,f(Y))),inference(k,[status(esa)],[a1])).
cnf(d1,plain,q(Z),inference(r,[status(thm)],[s,a5])).
cnf(d2,plain,~q(b),inference(r,[status(thm)],[d1,a2])).
cnf(e,plain,$false,inference(r,[status(thm)],[d1,d2])).
";

const SHARED_REPORT: &str = "eigen 0 f(a): ?[X0]:r(a,X0)
instance 0 step 4 clause 0: q(b) | r(a,f(a))
thin 0 a1 + picks none terms a, b skolems f(a)
instance 1 step 3 clause 0: ~r(a,f(a))
thin 1 a5 + picks none terms f(a) skolems none
instance 2 step 5 clause 0: q(b)
instance 3 step 4 clause 0: q(a) | r(a,f(a))
thin 3 a1 + picks none terms a, a skolems f(a)
instance 4 step 5 clause 0: q(a)
instance 5 step 2 clause 0: ~q(a) | ~q(b)
thin 5 a2 + picks none terms none skolems none
instance 6 step 6 clause 0: ~q(b)
instance 7 step 7 clause 0: $false
weight 21
";

#[test]
fn two_instances_share_an_eigenvariable(rt: HostRuntime) -> Result<(), Fail> {
    let text = report(&rt, rt.alloc(), SHARED_PROBLEM, SHARED_TRACE)?;
    assert_eq!(rt; text.as_slice(), SHARED_REPORT.as_bytes());
    Ok(())
}

const RANKED_PROBLEM: &str = "fof(x,axiom,?[X,Z]:r(X,Z)).
fof(g,conjecture,?[X,Z]:r(X,Z)).
";

const RANKED_TRACE: &str = "fof(x,axiom,?[X,Z]:r(X,Z),file(q,x)).
fof(s,plain,?[Z]:r(z,Z),inference(k,[status(esa)],[x])).
fof(t,plain,r(z,b),inference(k,[status(esa)],[s])).
fof(g,conjecture,?[X,Z]:r(X,Z),file(q,g)).
fof(n,negated_conjecture,![X,Z]:~r(X,Z),inference(n,[status(cth)],[g])).
cnf(e,plain,$false,inference(r,[status(thm)],[t,n])).
";

const RANKED_REPORT: &str = "eigen 0 z: ?[X0]:?[X1]:r(X0,X1)
eigen 1 b: ?[X0]:r(z,X0)
instance 0 step 3 clause 0: r(z,b)
thin 0 x + picks none terms none skolems z, b
instance 1 step 5 clause 0: ~r(z,b)
thin 1 g - picks none terms z, b skolems none
instance 2 step 6 clause 0: $false
weight 7
";

// Of two constants the one of the outer existential comes first, though its name is the greater one.
#[test]
fn terms_of_one_depth_stand_by_their_rank(rt: HostRuntime) -> Result<(), Fail> {
    let text = report(&rt, rt.alloc(), RANKED_PROBLEM, RANKED_TRACE)?;
    assert_eq!(rt; text.as_slice(), RANKED_REPORT.as_bytes());
    Ok(())
}

const INNER_PROBLEM: &str = "fof(x,axiom,?[X]:![Y]:?[Z]:t(X,Y,Z)).
fof(g,conjecture,?[U,V]:t(U,U,V)).
";

const INNER_TRACE: &str = "fof(x,axiom,?[X]:![Y]:?[Z]:t(X,Y,Z),file(q,x)).
fof(s,plain,![Y]:?[Z]:t(k,Y,Z),inference(k,[status(esa)],[x])).
fof(t,plain,![Y]:t(k,Y,h(Y)),inference(k,[status(esa)],[s])).
fof(g,conjecture,?[U,V]:t(U,U,V),file(q,g)).
fof(n,negated_conjecture,![U,V]:~t(U,U,V),inference(n,[status(cth)],[g])).
cnf(e,plain,$false,inference(r,[status(thm)],[t,n])).
";

const INNER_REPORT: &str = "eigen 0 k: ?[X0]:![X1]:?[X2]:t(X0,X1,X2)
eigen 1 h(k): ?[X0]:t(k,k,X0)
instance 0 step 3 clause 0: t(k,k,h(k))
thin 0 x + picks none terms k skolems k, h(k)
instance 1 step 5 clause 0: ~t(k,k,h(k))
thin 1 g - picks none terms k, h(k) skolems none
instance 2 step 6 clause 0: $false
weight 7
";

// The inner existential's origin formula has the outer one's own Skolem term and the argument of its own.
#[test]
fn an_origin_formula_has_the_terms_around(rt: HostRuntime) -> Result<(), Fail> {
    let text = report(&rt, rt.alloc(), INNER_PROBLEM, INNER_TRACE)?;
    assert_eq!(rt; text.as_slice(), INNER_REPORT.as_bytes());
    Ok(())
}

const EITHER_PROBLEM: &str = "fof(x,axiom,(![X]:p(X))<=>(?[X]:q(X))).
fof(g,conjecture,?[X]:(~p(X)|q(X))).
";

const EITHER_TRACE: &str = "fof(x,axiom,(![X]:p(X))<=>(?[X]:q(X)),file(x,x)).
fof(g,conjecture,?[X]:(~p(X)|q(X)),file(x,g)).
fof(s,plain,(~p(f)|q(g))&(![X]:~q(X)|![X]:p(X)),inference(k,[status(esa)],[x])).
fof(n,negated_conjecture,![X]:(p(X)&~q(X)),inference(n,[status(cth)],[g])).
cnf(c1,plain,q(g),inference(r,[status(thm)],[s,n])).
cnf(e,plain,$false,inference(r,[status(thm)],[c1,n])).
";

const EITHER_REPORT: &str = "eigen 0 f: ~![X0]:p(X0)
eigen 1 g: ?[X0]:q(X0)
instance 0 step 4 clause 0: p(f)
thin 0 g - picks L terms f skolems none
instance 1 step 3 clause 0: ~p(f) | q(g)
thin 1 x + picks L terms none skolems f, g
instance 2 step 5 clause 0: q(g)
instance 3 step 4 clause 1: ~q(g)
thin 3 g - picks R terms g skolems none
instance 4 step 6 clause 0: $false
weight 12
";

// Both sides of an equivalence have existentials, each with the sign of its side.
#[test]
fn sides_of_an_equivalence_have_their_signs(rt: HostRuntime) -> Result<(), Fail> {
    let text = report(&rt, rt.alloc(), EITHER_PROBLEM, EITHER_TRACE)?;
    assert_eq!(rt; text.as_slice(), EITHER_REPORT.as_bytes());
    Ok(())
}

const CHAIN_PROBLEM: &str = "cnf(a1,axiom,p).
cnf(a2,axiom,~p|q).
cnf(a3,axiom,~q).
";

const CHAIN_TRACE: &str = "cnf(a1,axiom,p,file(x,a1)).
cnf(a2,axiom,~p|q,file(x,a2)).
cnf(a3,axiom,~q,file(x,a3)).
cnf(c,plain,$false,inference(r,[status(thm)],[a1,a2,a3])).
";

const CHAIN_REPORT: &str = "instance 0 step 1 clause 0: p
thin 0 a1 + picks none terms none skolems none
instance 1 step 2 clause 0: ~p | q
thin 1 a2 + picks none terms none skolems none
instance 2 step 4.1 clause 0: q
instance 3 step 3 clause 0: ~q
thin 3 a3 + picks none terms none skolems none
instance 4 step 4 clause 0: $false
weight 10
";

#[test]
fn a_chain_has_its_stages(rt: HostRuntime) -> Result<(), Fail> {
    let text = report(&rt, rt.alloc(), CHAIN_PROBLEM, CHAIN_TRACE)?;
    assert_eq!(rt; text.as_slice(), CHAIN_REPORT.as_bytes());
    Ok(())
}

const COMPOSED_PROBLEM: &str = "fof(a1,axiom,![X]:?[Y]:(r(X,Y)&s(Y))).
fof(a2,axiom,![X]:~s(X)).
";

const COMPOSED_TRACE: &str = "fof(a1,axiom,![X]:?[Y]:(r(X,Y)&s(Y)),file(x,a1)).
fof(a2,axiom,![X]:~s(X),file(x,a2)).
cnf(c,plain,s(f(X)),inference(split_conjunct,[status(thm)],[inference(skolemize,[status(esa)],[a1])])).
cnf(e,plain,$false,inference(r,[status(thm)],[c,a2])).
";

const COMPOSED_REPORT: &str = "eigen 0 f($any): ?[X0]:(r($any,X0) & s(X0))
instance 0 step 3.1 clause 1: s(f($any))
thin 0 a1 + picks R terms $any skolems f($any)
instance 1 step 3 clause 0: s(f($any))
instance 2 step 2 clause 0: ~s(f($any))
thin 2 a2 + picks none terms f($any) skolems none
instance 3 step 4 clause 0: $false
weight 9
";

#[test]
fn a_composed_image_has_its_thin_tree(rt: HostRuntime) -> Result<(), Fail> {
    let text = report(&rt, rt.alloc(), COMPOSED_PROBLEM, COMPOSED_TRACE)?;
    assert_eq!(rt; text.as_slice(), COMPOSED_REPORT.as_bytes());
    Ok(())
}

const CARRIED_PROBLEM: &str = "fof(a1,axiom,![X]:((p(X)&?[Y]:r(X,Y))|q)).
fof(a2,axiom,~q).
fof(a3,axiom,![X,Y]:~r(X,Y)).
";

const CARRIED_TRACE: &str = "fof(a1,axiom,![X]:((p(X)&?[Y]:r(X,Y))|q),file(x,a1)).
fof(a2,axiom,~q,file(x,a2)).
fof(a3,axiom,![X,Y]:~r(X,Y),file(x,a3)).
fof(m,plain,![X]:(q|((?[Y]:r(X,Y))&p(X))),inference(f,[status(thm)],[a1])).
fof(s,plain,![X]:(q|(r(X,f(X))&p(X))),inference(k,[status(esa)],[m])).
cnf(d,plain,q,inference(r,[status(thm)],[s,a3])).
cnf(e,plain,$false,inference(r,[status(thm)],[d,a2])).
";

const CARRIED_REPORT: &str = "eigen 0 f($any): ?[X0]:r($any,X0)
instance 0 step 5 clause 1: r($any,f($any)) | q
thin 0 a1 + picks R terms $any skolems f($any)
instance 1 step 3 clause 0: ~r($any,f($any))
thin 1 a3 + picks none terms $any, f($any) skolems none
instance 2 step 6 clause 0: q
instance 3 step 2 clause 0: ~q
thin 3 a2 + picks none terms none skolems none
instance 4 step 7 clause 0: $false
weight 12
";

// Clauses of a step that reorders its parent have the numbers that they have in the leaf's form.
#[test]
fn a_map_is_carried_through_another_order(rt: HostRuntime) -> Result<(), Fail> {
    let text = report(&rt, rt.alloc(), CARRIED_PROBLEM, CARRIED_TRACE)?;
    assert_eq!(rt; text.as_slice(), CARRIED_REPORT.as_bytes());
    Ok(())
}

const IMAGE_TRACE: &str = "fof(a1,axiom,![X]:((p(X)&?[Y]:r(X,Y))|q),file(x,a1)).
fof(a2,axiom,~q,file(x,a2)).
fof(a3,axiom,![X,Y]:~r(X,Y),file(x,a3)).
fof(m,plain,![X]:(q|((?[Y]:r(X,Y))&p(X))),inference(f,[status(thm)],[a1])).
fof(s,plain,![X]:((r(X,f(X))&p(X))|q),inference(k,[status(esa)],[m])).
cnf(d,plain,q,inference(r,[status(thm)],[s,a3])).
cnf(e,plain,$false,inference(r,[status(thm)],[d,a2])).
";

const IMAGE_REPORT: &str = "eigen 0 f($any): ?[X0]:r($any,X0)
instance 0 step 5.1 clause 1: r($any,f($any)) | q
thin 0 a1 + picks R terms $any skolems f($any)
instance 1 step 5 clause 0: r($any,f($any)) | q
instance 2 step 3 clause 0: ~r($any,f($any))
thin 2 a3 + picks none terms $any, f($any) skolems none
instance 3 step 6 clause 0: q
instance 4 step 2 clause 0: ~q
thin 4 a2 + picks none terms none skolems none
instance 5 step 7 clause 0: $false
weight 15
";

// A Skolem step that turns the parts of its parent's disjunction is no image of it, but follows from one.
#[test]
fn a_step_in_another_order_is_composed(rt: HostRuntime) -> Result<(), Fail> {
    let text = report(&rt, rt.alloc(), CARRIED_PROBLEM, IMAGE_TRACE)?;
    assert_eq!(rt; text.as_slice(), IMAGE_REPORT.as_bytes());
    Ok(())
}

const DOUBLED_PROBLEM: &str = "cnf(base,axiom,p0(a)).
fof(ax0,axiom,![X]:(~p0(X)|p1(g(X,X)))).
fof(ax1,axiom,![X]:(~p1(X)|p2(g(X,X)))).
fof(ax2,axiom,![X]:(~p2(X)|p3(g(X,X)))).
fof(ax3,axiom,![X]:(~p3(X)|p4(g(X,X)))).
fof(ax4,axiom,![X]:(~p4(X)|p5(g(X,X)))).
fof(ax5,axiom,![X]:(~p5(X)|p6(g(X,X)))).
fof(ax6,axiom,![X]:(~p6(X)|p7(g(X,X)))).
fof(ax7,axiom,![X]:(~p7(X)|p8(g(X,X)))).
fof(ax8,axiom,![X]:(~p8(X)|p9(g(X,X)))).
fof(ax9,axiom,![X]:(~p9(X)|p10(g(X,X)))).
fof(ax10,axiom,![X]:(~p10(X)|p11(g(X,X)))).
fof(ax11,axiom,![X]:(~p11(X)|p12(g(X,X)))).
fof(ax12,axiom,![X]:(~p12(X)|p13(g(X,X)))).
fof(ax13,axiom,![X]:(~p13(X)|p14(g(X,X)))).
fof(ax14,axiom,![X]:(~p14(X)|p15(g(X,X)))).
fof(ax15,axiom,![X]:(~p15(X)|p16(g(X,X)))).
fof(ax16,axiom,![X]:(~p16(X)|p17(g(X,X)))).
fof(ax17,axiom,![X]:(~p17(X)|p18(g(X,X)))).
fof(ax18,axiom,![X]:(~p18(X)|p19(g(X,X)))).
fof(ax19,axiom,![X]:(~p19(X)|p20(g(X,X)))).
fof(top,axiom,![X]:~p20(X)).
";

const DOUBLED_TRACE: &str = "cnf(base,axiom,p0(a),file(x,base)).
fof(ax0,axiom,![X]:(~p0(X)|p1(g(X,X))),file(x,ax0)).
fof(ax1,axiom,![X]:(~p1(X)|p2(g(X,X))),file(x,ax1)).
fof(ax2,axiom,![X]:(~p2(X)|p3(g(X,X))),file(x,ax2)).
fof(ax3,axiom,![X]:(~p3(X)|p4(g(X,X))),file(x,ax3)).
fof(ax4,axiom,![X]:(~p4(X)|p5(g(X,X))),file(x,ax4)).
fof(ax5,axiom,![X]:(~p5(X)|p6(g(X,X))),file(x,ax5)).
fof(ax6,axiom,![X]:(~p6(X)|p7(g(X,X))),file(x,ax6)).
fof(ax7,axiom,![X]:(~p7(X)|p8(g(X,X))),file(x,ax7)).
fof(ax8,axiom,![X]:(~p8(X)|p9(g(X,X))),file(x,ax8)).
fof(ax9,axiom,![X]:(~p9(X)|p10(g(X,X))),file(x,ax9)).
fof(ax10,axiom,![X]:(~p10(X)|p11(g(X,X))),file(x,ax10)).
fof(ax11,axiom,![X]:(~p11(X)|p12(g(X,X))),file(x,ax11)).
fof(ax12,axiom,![X]:(~p12(X)|p13(g(X,X))),file(x,ax12)).
fof(ax13,axiom,![X]:(~p13(X)|p14(g(X,X))),file(x,ax13)).
fof(ax14,axiom,![X]:(~p14(X)|p15(g(X,X))),file(x,ax14)).
fof(ax15,axiom,![X]:(~p15(X)|p16(g(X,X))),file(x,ax15)).
fof(ax16,axiom,![X]:(~p16(X)|p17(g(X,X))),file(x,ax16)).
fof(ax17,axiom,![X]:(~p17(X)|p18(g(X,X))),file(x,ax17)).
fof(ax18,axiom,![X]:(~p18(X)|p19(g(X,X))),file(x,ax18)).
fof(ax19,axiom,![X]:(~p19(X)|p20(g(X,X))),file(x,ax19)).
fof(top,axiom,![X]:~p20(X),file(x,top)).
cnf(c19,plain,~p19(X),inference(r,[status(thm)],[top,ax19])).
cnf(c18,plain,~p18(X),inference(r,[status(thm)],[c19,ax18])).
cnf(c17,plain,~p17(X),inference(r,[status(thm)],[c18,ax17])).
cnf(c16,plain,~p16(X),inference(r,[status(thm)],[c17,ax16])).
cnf(c15,plain,~p15(X),inference(r,[status(thm)],[c16,ax15])).
cnf(c14,plain,~p14(X),inference(r,[status(thm)],[c15,ax14])).
cnf(c13,plain,~p13(X),inference(r,[status(thm)],[c14,ax13])).
cnf(c12,plain,~p12(X),inference(r,[status(thm)],[c13,ax12])).
cnf(c11,plain,~p11(X),inference(r,[status(thm)],[c12,ax11])).
cnf(c10,plain,~p10(X),inference(r,[status(thm)],[c11,ax10])).
cnf(c9,plain,~p9(X),inference(r,[status(thm)],[c10,ax9])).
cnf(c8,plain,~p8(X),inference(r,[status(thm)],[c9,ax8])).
cnf(c7,plain,~p7(X),inference(r,[status(thm)],[c8,ax7])).
cnf(c6,plain,~p6(X),inference(r,[status(thm)],[c7,ax6])).
cnf(c5,plain,~p5(X),inference(r,[status(thm)],[c6,ax5])).
cnf(c4,plain,~p4(X),inference(r,[status(thm)],[c5,ax4])).
cnf(c3,plain,~p3(X),inference(r,[status(thm)],[c4,ax3])).
cnf(c2,plain,~p2(X),inference(r,[status(thm)],[c3,ax2])).
cnf(c1,plain,~p1(X),inference(r,[status(thm)],[c2,ax1])).
cnf(c0,plain,~p0(X),inference(r,[status(thm)],[c1,ax0])).
cnf(e,plain,$false,inference(r,[status(thm)],[base,c0])).
";

// Each step doubles the term: its tree is too large, though its distinct parts are few.
#[test]
fn the_first_instance_too_wide_is_named(rt: HostRuntime) -> Result<(), Fail> {
    let plan = planned(&rt, rt.alloc(), DOUBLED_PROBLEM, DOUBLED_TRACE, 1_000_000)?;
    assert!(rt; matches!(plan, Err(PlanFault::OverWide { step: 20 })));
    Ok(())
}
