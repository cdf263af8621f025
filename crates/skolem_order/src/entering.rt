//! Terms that are put in a table with all that stands in them.
#![tactic(auto)]

ghost use Rattle.std.specs.Prelude.{◌<◌, length, map, IfOk};
ghost use Rattle.std.specs.List.{All};
ghost use Rattle.dk_syntax.specs.TermTables.{IsNumbered, term_of};
ghost use Rattle.skolem_order.specs.Tables.{AreEntered, IsEntered};

use dk_syntax::{NoMemory, Seq, SymKey, Term, TermTable};
use std::alloc::Global;

/// Puts a ground term in the table, with `Any` in the place of a variable, and answers its number.
#[cycle(enter)]
pub fn enter(alloc: Global, table: &mut TermTable, t: &Term) -> Result<u32, NoMemory>
    ensures { IfOk result (λ n. IsEntered table.old t.now table.new n) }
{
    match t {
        Term::App(symbol, args) => {
            let numbers = enter_all(alloc, table, args.as_slice())?;
            let number = apply(alloc, table, symbol, &numbers)?;
            Ok(number)
        }
        Term::Var(_) => {
            let number = any_of(alloc, table)?;
            Ok(number)
        }
        Term::Any => {
            let number = any_of(alloc, table)?;
            Ok(number)
        }
    }
}

/// Puts ground terms in the table, and answers their numbers.
#[cycle(enter)]
pub fn enter_all(alloc: Global, table: &mut TermTable, terms: &[Term]) -> Result<Seq<u32>, NoMemory>
    ensures { IfOk result (λ numbers. AreEntered table.old terms.now table.new numbers) }
{
    let mut numbers = Seq::from_vec(Vec::with_capacity(alloc, terms.len())?);
    for term in terms {
        let number = enter(alloc, table, term)?;
        numbers.push(number)?;
    }
    Ok(numbers)
}

fn apply(
    alloc: Global,
    table: &mut TermTable,
    symbol: &SymKey,
    numbers: &Seq<u32>,
) -> Result<u32, NoMemory>
    requires { All (λ n. n < length table.old) numbers.now }
    ensures { IfOk result (λ n. IsNumbered table.old
        (Term.App symbol.now (map (term_of table.old) numbers.now)) table.new n) }
{
    if table.len() == u32::MAX {
        return Err(NoMemory);
    }
    table.add(alloc, symbol, numbers)
}

fn any_of(alloc: Global, table: &mut TermTable) -> Result<u32, NoMemory>
    ensures { IfOk result (λ n. IsNumbered table.old Term.Any table.new n) }
{
    if table.len() == u32::MAX {
        return Err(NoMemory);
    }
    table.any(alloc)
}
