//! The prelude.
ghost use Rattle.std.specs.Prelude.{◌≡◌, [], ◌∷◌, ◌++◌, codes, IfOk, OnOk};
ghost use Rattle.lp_term.specs.Prelude as spec;
ghost use Rattle.lp_term.specs.Prelude.{◌⇒◌, binary_type, each_proposition, excluded_middle, quantifier_type, rule_of_all, rule_of_and, rule_of_bot, rule_of_ex, rule_of_iff, rule_of_imp, rule_of_not, rule_of_or, rule_of_top, unary_type};
ghost use Rattle.lp_term.specs.Terms.{individuals, propositions};

use crate::build::{apply_both, arrow, negation, product, proof_type, symbol};
use crate::command::Command;
use crate::ident::Ident;
use crate::lp::Lp;
use crate::rules::{
    all_rule, and_rule, bot_rule, ex_rule, iff_rule, imp_rule, not_rule, or_rule, top_rule,
};
use dk_syntax::{NoMemory, Seq};
use std::alloc::Global;

fn put(all: &mut Seq<Command>, command: Command) -> Result<(), NoMemory>
    ensures { OnOk result (all.new ≡ all.old ++ command ∷ []) }
{
    all.push(command)?;
    Ok(())
}

fn put_constant(alloc: Global, all: &mut Seq<Command>, name: &[u8], of: Lp) -> Result<(), NoMemory>
    ensures { OnOk result (all.new ≡ all.old ++ Command.Constant name.now of ∷ []) }
{
    let bytes = Vec::from_slice(alloc, name)?;
    put(all, Command::Constant(Ident::new(bytes), of))
}

fn put_symbol(alloc: Global, all: &mut Seq<Command>, name: &[u8], of: Lp) -> Result<(), NoMemory>
    ensures { OnOk result (all.new ≡ all.old ++ Command.Symbol name.now of ∷ []) }
{
    let bytes = Vec::from_slice(alloc, name)?;
    put(all, Command::Symbol(Ident::new(bytes), of))
}

fn put_types(alloc: Global, all: &mut Seq<Command>) -> Result<(), NoMemory>
    ensures { OnOk result (all.new ≡ all.old
        ++ Command.Constant (codes "I") Lp.Sort ∷ Command.Constant (codes "Prop") Lp.Sort ∷
        Command.Symbol (codes "Prf") (propositions ⇒ Lp.Sort) ∷ []) }
{
    put_constant(alloc, all, b"I", Lp::Sort)?;
    put_constant(alloc, all, b"Prop", Lp::Sort)?;
    let domain = symbol(alloc, b"Prop")?;
    let of = arrow(alloc, domain, &Lp::Sort)?;
    put_symbol(alloc, all, b"Prf", of)
}

fn put_binary(alloc: Global, all: &mut Seq<Command>, name: &[u8]) -> Result<(), NoMemory>
    ensures { OnOk result (all.new ≡ all.old ++ Command.Constant name.now binary_type ∷ []) }
{
    let first = symbol(alloc, b"Prop")?;
    let second = symbol(alloc, b"Prop")?;
    let value = symbol(alloc, b"Prop")?;
    let inner = arrow(alloc, second, &value)?;
    let of = arrow(alloc, first, &inner)?;
    put_constant(alloc, all, name, of)
}

fn put_connectives(alloc: Global, all: &mut Seq<Command>) -> Result<(), NoMemory>
    ensures { OnOk result (all.new ≡ all.old
        ++ Command.Constant (codes "imp") binary_type
        ∷ Command.Constant (codes "and") binary_type
        ∷ Command.Constant (codes "or") binary_type
        ∷ Command.Constant (codes "iff") binary_type ∷ []) }
{
    put_binary(alloc, all, b"imp")?;
    put_binary(alloc, all, b"and")?;
    put_binary(alloc, all, b"or")?;
    put_binary(alloc, all, b"iff")
}

fn put_not(alloc: Global, all: &mut Seq<Command>) -> Result<(), NoMemory>
    ensures { OnOk result (all.new ≡ all.old ++ Command.Constant (codes "not") unary_type ∷ []) }
{
    let domain = symbol(alloc, b"Prop")?;
    let value = symbol(alloc, b"Prop")?;
    let of = arrow(alloc, domain, &value)?;
    put_constant(alloc, all, b"not", of)
}

fn put_truth_values(alloc: Global, all: &mut Seq<Command>) -> Result<(), NoMemory>
    ensures { OnOk result (all.new ≡ all.old
        ++ Command.Constant (codes "top") propositions ∷ Command.Constant (codes "bot") propositions
        ∷ []) }
{
    let of = symbol(alloc, b"Prop")?;
    put_constant(alloc, all, b"top", of)?;
    let of = symbol(alloc, b"Prop")?;
    put_constant(alloc, all, b"bot", of)
}

fn put_quantifier(alloc: Global, all: &mut Seq<Command>, name: &[u8]) -> Result<(), NoMemory>
    ensures { OnOk result (all.new ≡ all.old ++ Command.Constant name.now quantifier_type ∷ []) }
{
    let domain = symbol(alloc, b"I")?;
    let value = symbol(alloc, b"Prop")?;
    let family = arrow(alloc, domain, &value)?;
    let of = arrow(alloc, family, &value)?;
    put_constant(alloc, all, name, of)
}

fn put_quantifiers(alloc: Global, all: &mut Seq<Command>) -> Result<(), NoMemory>
    ensures { OnOk result (all.new ≡ all.old
        ++ Command.Constant (codes "all") quantifier_type ∷ Command.Constant (codes "ex")
        quantifier_type ∷ Command.Constant (codes "any") individuals ∷ []) }
{
    put_quantifier(alloc, all, b"all")?;
    put_quantifier(alloc, all, b"ex")?;
    let of = symbol(alloc, b"I")?;
    put_constant(alloc, all, b"any", of)
}

fn put_direct_rules(alloc: Global, all: &mut Seq<Command>) -> Result<(), NoMemory>
    ensures { OnOk result (all.new ≡ all.old ++ rule_of_imp ∷ rule_of_not ∷ rule_of_all ∷ []) }
{
    put(all, imp_rule(alloc)?)?;
    put(all, not_rule(alloc)?)?;
    put(all, all_rule(alloc)?)
}

fn put_rules_of_truth_values(alloc: Global, all: &mut Seq<Command>) -> Result<(), NoMemory>
    ensures { OnOk result (all.new ≡ all.old ++ rule_of_bot ∷ rule_of_top ∷ []) }
{
    put(all, bot_rule(alloc)?)?;
    put(all, top_rule(alloc)?)
}

fn put_elimination_rules(alloc: Global, all: &mut Seq<Command>) -> Result<(), NoMemory>
    ensures { OnOk result (all.new ≡ all.old
        ++ rule_of_and ∷ rule_of_or ∷ rule_of_ex ∷ rule_of_iff ∷ []) }
{
    put(all, and_rule(alloc)?)?;
    put(all, or_rule(alloc)?)?;
    put(all, ex_rule(alloc)?)?;
    put(all, iff_rule(alloc)?)
}

fn put_excluded_middle(alloc: Global, all: &mut Seq<Command>) -> Result<(), NoMemory>
    ensures { OnOk result (all.new ≡ all.old ++ excluded_middle ∷ []) }
{
    let head = symbol(alloc, b"or")?;
    let denied = negation(alloc, Lp::Var(0))?;
    let proposition = apply_both(alloc, head, Lp::Var(0), denied)?;
    let body = proof_type(alloc, proposition)?;
    let domain = symbol(alloc, b"Prop")?;
    let of = product(alloc, domain, body)?;
    put_symbol(alloc, all, b"em", of)
}

fn put_constants(alloc: Global, all: &mut Seq<Command>) -> Result<(), NoMemory>
    ensures { OnOk result (all.new ≡ all.old ++ spec.constants) }
{
    put_types(alloc, all)?;
    put_connectives(alloc, all)?;
    put_not(alloc, all)?;
    put_truth_values(alloc, all)?;
    put_quantifiers(alloc, all)
}

fn put_rules(alloc: Global, all: &mut Seq<Command>) -> Result<(), NoMemory>
    ensures { OnOk result (all.new ≡ all.old ++ spec.rules) }
{
    put_direct_rules(alloc, all)?;
    put_rules_of_truth_values(alloc, all)?;
    put_elimination_rules(alloc, all)
}

/// The 23 commands that every development begins with.
pub fn prelude(alloc: Global) -> Result<Seq<Command>, NoMemory>
    ensures { IfOk result (λ all. all ≡ spec.prelude) }
{
    let mut all = Seq::from_vec(Vec::new(alloc));
    put_constants(alloc, &mut all)?;
    put_rules(alloc, &mut all)?;
    put_excluded_middle(alloc, &mut all)?;
    Ok(all)
}
