//! The universals around existentials, and full maps.
#![tactic(auto, using(crate::proofs::MapLaws::map_steps))]

ghost use Rattle.std.specs.Prelude.{◌≡◌, ◌+◌, ◌++◌, length, IfOk, OnOk};
ghost use Rattle.normal_form.specs.Forms.{alls, form_of};
ghost use Rattle.step_compose.specs.Arguments.{arguments_from, arguments_of, entries_from};
ghost use Rattle.step_compose.specs.Composing.{symbol_in};
ghost use Rattle.step_skolem.specs.Images.{entry};

use dk_syntax::{NoMemory, Seq, SymKey};
use normal_form::Nf;
use std::alloc::Global;
use step_skolem::{SkEntry, SkMap};

/// The universals around, the outermost first, for each existential of a form.
pub fn arguments(alloc: Global, nf: &Nf) -> Result<Seq<Seq<u32>>, NoMemory>
    ensures { IfOk result (λ lists. lists ≡ arguments_of nf.now) }
{
    let mut next = 0;
    let mut around = Vec::new(alloc);
    let mut lists = Seq::new(alloc);
    add_arguments(alloc, nf, &mut next, &mut around, &mut lists)?;
    Ok(lists)
}

/// Adds the lists of a form whose first universal has the number `next`, inside the universals around.
#[cycle(add_arguments)]
fn add_arguments(
    alloc: Global,
    nf: &Nf,
    next: &mut u32,
    around: &mut Vec<u32>,
    lists: &mut Seq<Seq<u32>>,
) -> Result<(), NoMemory>
    ensures lists { OnOk result (lists.new ≡ lists.old
        ++ arguments_from around.old.items next.old (form_of nf.now)) }
    ensures next { OnOk result (next.new ≡ alls (form_of nf.now) + next.old) }
    ensures around { OnOk result (around.new.items ≡ around.old.items) }
{
    match nf {
        Nf::True | Nf::False | Nf::Lit(_) => Ok(()),
        Nf::And(a, b) => {
            add_arguments(alloc, a.get(), next, around, lists)?;
            add_arguments(alloc, b.get(), next, around, lists)
        }
        Nf::Or(a, b) => {
            add_arguments(alloc, a.get(), next, around, lists)?;
            add_arguments(alloc, b.get(), next, around, lists)
        }
        Nf::All(a) => {
            around.push(*next)?;
            *next = next.checked_add(1).ok_or(NoMemory)?;
            add_arguments(alloc, a.get(), next, around, lists)?;
            around.pop();
            Ok(())
        }
        Nf::Ex(a) => {
            lists.push(Seq::from_vec(Vec::from_slice(alloc, around.as_slice())?))?;
            add_arguments(alloc, a.get(), next, around, lists)
        }
    }
}

/// The map that replaces each existential, whose arguments stand in the list, by its symbol.
pub fn map_of(alloc: Global, arguments: &[Seq<u32>], symbols: &[SymKey]) -> Result<SkMap, NoMemory>
    requires { length symbols.now ≡ length arguments.now }
    ensures { IfOk result (λ map. map.entries
        ≡ entries_from (symbol_in symbols.now) 0 arguments.now) }
{
    let mut entries = Seq::new(alloc);
    for k in 0..arguments.len() {
        entries.push(entry_of(alloc, k, &symbols[k], &arguments[k])?)?;
    }
    Ok(SkMap { entries })
}

fn entry_of(
    alloc: Global,
    number: usize,
    symbol: &SymKey,
    args: &Seq<u32>,
) -> Result<SkEntry, NoMemory>
    ensures { IfOk result (λ one. one ≡ entry number symbol.now args.now) }
{
    match u32::try_from(number) {
        Ok(ex) => Ok(SkEntry {
            ex,
            symbol: symbol.copy(alloc)?,
            args: Seq::from_vec(Vec::from_slice(alloc, args.as_slice())?),
        }),
        Err(_) => Err(NoMemory),
    }
}
