use lp_read::{LpFault, read_dev};
use lp_text::print;
use std::alloc::Global;
use std::test::Fail;

const KINDS: &str = "constant symbol A : TYPE;
rule f $x (g $x) ↪ $x;
symbol h : Π (v0 : A), P v0 → A ≔ λ (v0 : A), (let v1 : A ≔ v0 in
v1) v0;
";

const SHADOWED: &str = " // comment\r
 symbol a:A≔λ(x:A),λ(x:A),x;";

const CANONICAL: &str = "symbol a : A ≔ λ (v0 : A), λ (v1 : A), v1;
";

/// What is read of a text, printed.
fn printed_again(alloc: Global, text: &[u8]) -> Result<Vec<u8>, LpFault> {
    let development = read_dev(alloc, text)?;
    Ok(print(alloc, &development)?)
}

/// Where the first fault of a text is.
fn fault_of(alloc: Global, text: &[u8]) -> Option<LpFault> {
    match read_dev(alloc, text) {
        Ok(_) => None,
        Err(fault) => Some(fault),
    }
}

#[test]
fn all_kinds_of_terms_are_read_back(rt: HostRuntime) -> Result<(), Fail> {
    let alloc = rt.alloc();
    let again = printed_again(alloc, KINDS.as_bytes())?;
    assert!(rt; again.as_slice() == KINDS.as_bytes());
    Ok(())
}

#[test]
fn the_nearest_binder_is_meant(rt: HostRuntime) -> Result<(), Fail> {
    let alloc = rt.alloc();
    let again = printed_again(alloc, SHADOWED.as_bytes())?;
    assert!(rt; again.as_slice() == CANONICAL.as_bytes());
    Ok(())
}

#[test]
fn a_fault_is_at_its_command(rt: HostRuntime) {
    let alloc = rt.alloc();
    let reserved = fault_of(
        alloc,
        b"constant symbol A : TYPE;\n// x\nsymbol in : A;".as_slice(),
    );
    let pattern = fault_of(alloc, b"symbol a : $p;".as_slice());
    let cut = fault_of(alloc, b"symbol a : A;symbol b : A".as_slice());
    assert!(rt; reserved == Some(LpFault::NotLp { at: 31 }));
    assert!(rt; pattern == Some(LpFault::NotLp { at: 0 }));
    assert!(rt; cut == Some(LpFault::NotLp { at: 13 }));
}
