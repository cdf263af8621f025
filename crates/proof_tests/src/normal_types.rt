use dk_syntax::NoMemory;
use lp_exact::{normal_type, open_layer, put_last, same_tree, same_type};
use lp_term::{Lp, apply, apply_both, arrow, lambda, product, proof_type, symbol};
use std::alloc::Global;
use std::test::Fail;

/// `Prf p0_p`.
fn atom(alloc: Global) -> Result<Lp, NoMemory> {
    let p = symbol(alloc, b"p0_p")?;
    proof_type(alloc, p)
}

/// `Prf (NAME p0_p p0_p)`.
fn of_two(alloc: Global, name: &[u8]) -> Result<Lp, NoMemory> {
    let head = symbol(alloc, name)?;
    let first = symbol(alloc, b"p0_p")?;
    let second = symbol(alloc, b"p0_p")?;
    let both = apply_both(alloc, head, first, second)?;
    proof_type(alloc, both)
}

/// `Prf ((λ (v0 : Prop), v0) bot)`.
fn redex(alloc: Global) -> Result<Lp, NoMemory> {
    let annotation = symbol(alloc, b"Prop")?;
    let identity = lambda(alloc, annotation, Lp::Var(0))?;
    let falsity = symbol(alloc, b"bot")?;
    let object = apply(alloc, identity, falsity)?;
    proof_type(alloc, object)
}

/// `Π (v0 : Prop), Prf v0`.
fn each_proof(alloc: Global) -> Result<Lp, NoMemory> {
    let domain = symbol(alloc, b"Prop")?;
    let body = proof_type(alloc, Lp::Var(0))?;
    product(alloc, domain, body)
}

#[test]
fn connectives_are_opened(rt: HostRuntime) -> Result<(), Fail> {
    let alloc = rt.alloc();
    let proof = atom(alloc)?;
    let function = arrow(alloc, atom(alloc)?, &proof)?;
    let implication = of_two(alloc, b"imp")?;
    let conjunction = of_two(alloc, b"and")?;
    assert!(rt; same_type(alloc, &implication, &function)?);
    assert!(rt; !same_type(alloc, &conjunction, &proof)?);
    Ok(())
}

#[test]
fn objects_are_reduced(rt: HostRuntime) -> Result<(), Fail> {
    let alloc = rt.alloc();
    let reducible = redex(alloc)?;
    let opened = each_proof(alloc)?;
    let normal = normal_type(alloc, &reducible)?;
    assert!(rt; same_type(alloc, &reducible, &opened)?);
    assert!(rt; same_tree(&normal, &opened));
    Ok(())
}

#[test]
fn layers_are_opened(rt: HostRuntime) -> Result<(), Fail> {
    let alloc = rt.alloc();
    let goal = proof_type(alloc, Lp::Var(0))?;
    let falsity = symbol(alloc, b"bot")?;
    let proof = put_last(alloc, 0, &goal, &falsity)?;
    let Some(layer) = open_layer(alloc, &proof)? else {
        return Err(Fail::new("falsity has a layer"));
    };
    assert!(rt; same_tree(&layer, &each_proof(alloc)?));
    Ok(())
}
