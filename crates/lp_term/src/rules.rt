//! The rules of the prelude.
ghost use Rattle.std.specs.Prelude.{◌≡◌, IfOk};
ghost use Rattle.lp_term.specs.Prelude.{◌⇒◌, each_proposition, each_witness, f, goal, of_family, of_two, p, q, rule_of_all, rule_of_and, rule_of_bot, rule_of_ex, rule_of_iff, rule_of_imp, rule_of_not, rule_of_or, rule_of_top};
ghost use Rattle.lp_term.specs.Terms.{individuals, proof_of, propositions};

use crate::build::{apply, apply_both, arrow, negation, pattern, product, proof_type, symbol};
use crate::command::Command;
use crate::lp::Lp;
use dk_syntax::NoMemory;
use std::alloc::Global;

/// `Prf $NAME`.
fn pattern_proof(alloc: Global, name: &[u8]) -> Result<Lp, NoMemory>
    ensures { IfOk result (λ t. t ≡ proof_of (Lp.Pat name.now)) }
{
    let variable = pattern(alloc, name)?;
    proof_type(alloc, variable)
}

/// `Prf NAME`.
fn symbol_proof(alloc: Global, name: &[u8]) -> Result<Lp, NoMemory>
    ensures { IfOk result (λ t. t ≡ proof_of (Lp.Sym name.now)) }
{
    let proposition = symbol(alloc, name)?;
    proof_type(alloc, proposition)
}

/// `Prf (NAME $p $q)`.
fn proof_of_two(alloc: Global, name: &[u8]) -> Result<Lp, NoMemory>
    ensures { IfOk result (λ t. t ≡ proof_of (of_two name.now)) }
{
    let head = symbol(alloc, name)?;
    let first = pattern(alloc, b"p")?;
    let second = pattern(alloc, b"q")?;
    let proposition = apply_both(alloc, head, first, second)?;
    proof_type(alloc, proposition)
}

/// `Prf (NAME $f)`.
fn proof_of_family(alloc: Global, name: &[u8]) -> Result<Lp, NoMemory>
    ensures { IfOk result (λ t. t ≡ proof_of (of_family name.now)) }
{
    let head = symbol(alloc, name)?;
    let family = pattern(alloc, b"f")?;
    let proposition = apply(alloc, head, family)?;
    proof_type(alloc, proposition)
}

/// `Prf $a → Prf $b`.
fn implication(alloc: Global, a: &[u8], b: &[u8]) -> Result<Lp, NoMemory>
    ensures { IfOk result (λ t. t ≡ (proof_of (Lp.Pat a.now) ⇒ proof_of (Lp.Pat b.now))) }
{
    let premise = pattern_proof(alloc, a)?;
    let conclusion = pattern_proof(alloc, b)?;
    arrow(alloc, premise, &conclusion)
}

/// `premise → Prf v0`.
fn to_goal(alloc: Global, premise: Lp) -> Result<Lp, NoMemory>
    ensures { IfOk result (λ t. t ≡ (premise ⇒ goal)) }
{
    let conclusion = proof_type(alloc, Lp::Var(0))?;
    arrow(alloc, premise, &conclusion)
}

/// `Π (v0 : Prop), body`.
fn for_each_proposition(alloc: Global, body: Lp) -> Result<Lp, NoMemory>
    ensures { IfOk result (λ t. t ≡ each_proposition body) }
{
    let domain = symbol(alloc, b"Prop")?;
    product(alloc, domain, body)
}

/// `Π (v0 : Prop), premise → Prf v0`.
fn eliminator(alloc: Global, premise: Lp) -> Result<Lp, NoMemory>
    ensures { IfOk result (λ t. t ≡ each_proposition (premise ⇒ goal)) }
{
    let body = to_goal(alloc, premise)?;
    for_each_proposition(alloc, body)
}

pub(crate) fn imp_rule(alloc: Global) -> Result<Command, NoMemory>
    ensures { IfOk result (λ rule. rule ≡ rule_of_imp) }
{
    let left = proof_of_two(alloc, b"imp")?;
    let right = implication(alloc, b"p", b"q")?;
    Ok(Command::Rule(left, right))
}

pub(crate) fn not_rule(alloc: Global) -> Result<Command, NoMemory>
    ensures { IfOk result (λ rule. rule ≡ rule_of_not) }
{
    let denied = pattern(alloc, b"p")?;
    let proposition = negation(alloc, denied)?;
    let left = proof_type(alloc, proposition)?;
    let premise = pattern_proof(alloc, b"p")?;
    let absurdity = symbol_proof(alloc, b"bot")?;
    let right = arrow(alloc, premise, &absurdity)?;
    Ok(Command::Rule(left, right))
}

/// `Prf ($f v0)`.
fn family_proof(alloc: Global) -> Result<Lp, NoMemory>
    ensures { IfOk result (λ t. t ≡ proof_of (Lp.App f (Lp.Var 0))) }
{
    let family = pattern(alloc, b"f")?;
    let member = apply(alloc, family, Lp::Var(0))?;
    proof_type(alloc, member)
}

pub(crate) fn all_rule(alloc: Global) -> Result<Command, NoMemory>
    ensures { IfOk result (λ rule. rule ≡ rule_of_all) }
{
    let left = proof_of_family(alloc, b"all")?;
    let domain = symbol(alloc, b"I")?;
    let body = family_proof(alloc)?;
    let right = product(alloc, domain, body)?;
    Ok(Command::Rule(left, right))
}

pub(crate) fn bot_rule(alloc: Global) -> Result<Command, NoMemory>
    ensures { IfOk result (λ rule. rule ≡ rule_of_bot) }
{
    let left = symbol_proof(alloc, b"bot")?;
    let body = proof_type(alloc, Lp::Var(0))?;
    let right = for_each_proposition(alloc, body)?;
    Ok(Command::Rule(left, right))
}

pub(crate) fn top_rule(alloc: Global) -> Result<Command, NoMemory>
    ensures { IfOk result (λ rule. rule ≡ rule_of_top) }
{
    let left = symbol_proof(alloc, b"top")?;
    let premise = proof_type(alloc, Lp::Var(0))?;
    let right = eliminator(alloc, premise)?;
    Ok(Command::Rule(left, right))
}

pub(crate) fn and_rule(alloc: Global) -> Result<Command, NoMemory>
    ensures { IfOk result (λ rule. rule ≡ rule_of_and) }
{
    let left = proof_of_two(alloc, b"and")?;
    let second = pattern_proof(alloc, b"q")?;
    let inner = to_goal(alloc, second)?;
    let first = pattern_proof(alloc, b"p")?;
    let premise = arrow(alloc, first, &inner)?;
    let right = eliminator(alloc, premise)?;
    Ok(Command::Rule(left, right))
}

/// `Prf $NAME → Prf v0`.
fn case(alloc: Global, name: &[u8]) -> Result<Lp, NoMemory>
    ensures { IfOk result (λ t. t ≡ (proof_of (Lp.Pat name.now) ⇒ goal)) }
{
    let premise = pattern_proof(alloc, name)?;
    to_goal(alloc, premise)
}

pub(crate) fn or_rule(alloc: Global) -> Result<Command, NoMemory>
    ensures { IfOk result (λ rule. rule ≡ rule_of_or) }
{
    let left = proof_of_two(alloc, b"or")?;
    let second = case(alloc, b"q")?;
    let inner = to_goal(alloc, second)?;
    let first = case(alloc, b"p")?;
    let body = arrow(alloc, first, &inner)?;
    let right = for_each_proposition(alloc, body)?;
    Ok(Command::Rule(left, right))
}

/// `Π (v1 : I), Prf ($f v1) → Prf v0`.
fn witness_case(alloc: Global) -> Result<Lp, NoMemory>
    ensures { IfOk result (λ t. t ≡ each_witness) }
{
    let premise = family_proof(alloc)?;
    let conclusion = proof_type(alloc, Lp::Var(1))?;
    let body = arrow(alloc, premise, &conclusion)?;
    let domain = symbol(alloc, b"I")?;
    product(alloc, domain, body)
}

pub(crate) fn ex_rule(alloc: Global) -> Result<Command, NoMemory>
    ensures { IfOk result (λ rule. rule ≡ rule_of_ex) }
{
    let left = proof_of_family(alloc, b"ex")?;
    let premise = witness_case(alloc)?;
    let right = eliminator(alloc, premise)?;
    Ok(Command::Rule(left, right))
}

pub(crate) fn iff_rule(alloc: Global) -> Result<Command, NoMemory>
    ensures { IfOk result (λ rule. rule ≡ rule_of_iff) }
{
    let left = proof_of_two(alloc, b"iff")?;
    let backward = implication(alloc, b"q", b"p")?;
    let inner = to_goal(alloc, backward)?;
    let forward = implication(alloc, b"p", b"q")?;
    let premise = arrow(alloc, forward, &inner)?;
    let right = eliminator(alloc, premise)?;
    Ok(Command::Rule(left, right))
}
