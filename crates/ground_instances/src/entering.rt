//! Ground terms and literals, put into a table with the terms of an instance for the variables.
ghost use Rattle.std.specs.Prelude.{◌<◌, length, IfOk, OnOk};
ghost use Rattle.dk_syntax.specs.TermTables.{term_of};
ghost use Rattle.ground_instances.specs.Growing.{AreEntered, AreLiteralsEntered, ground_literals, grounds, IsEntered};
ghost use Rattle.ground_instances.specs.Needs.{ground};
ghost use Rattle.ground_instances.specs.Rows.{AreBelow, terms_by};

use crate::instance::RowLit;
use dk_syntax::{Literal, NoMemory, Seq, SymKey, Term, TermTable};
use std::alloc::Global;

/// Refuses a table in which no number is left. No memory holds one.
fn ask_room(table: &TermTable) -> Result<(), NoMemory>
    ensures { OnOk result (length table.now < 4294967295) }
{
    if table.len() == u32::MAX {
        return Err(NoMemory);
    }
    Ok(())
}

fn enter_any(alloc: Global, table: &mut TermTable) -> Result<u32, NoMemory>
    ensures { IfOk result (λ n. IsEntered table.old Term.Any table.new n) }
{
    ask_room(table)?;
    let number = table.any(alloc)?;
    Ok(number)
}

fn enter_app(
    alloc: Global,
    table: &mut TermTable,
    symbol: &SymKey,
    args: &Seq<u32>,
) -> Result<u32, NoMemory>
    requires { AreBelow (length table.old) args.now }
    ensures { IfOk result (λ n. IsEntered table.old
        (Term.App symbol.now (terms_by table.old args.now)) table.new n) }
{
    ask_room(table)?;
    let number = table.add(alloc, symbol, args)?;
    Ok(number)
}

/// The number of the term with these numbers' terms for its variables.
#[cycle(enter_term)]
pub fn enter_term(
    alloc: Global,
    table: &mut TermTable,
    values: &[u32],
    term: &Term,
) -> Result<u32, NoMemory>
    requires { AreBelow (length table.old) values.now }
    ensures { IfOk result (λ n. IsEntered table.old
        (ground (terms_by table.old values.now) term.now) table.new n) }
{
    match term {
        Term::Var(number) => match values.get(*number as usize) {
            Some(value) => Ok(*value),
            None => enter_any(alloc, table),
        },
        Term::App(symbol, args) => {
            let numbers = enter_terms(alloc, table, values, args.as_slice())?;
            let number = enter_app(alloc, table, symbol, &numbers)?;
            Ok(number)
        }
        Term::Any => enter_any(alloc, table),
    }
}

/// The numbers of the terms with these numbers' terms for their variables.
#[cycle(enter_term)]
pub fn enter_terms(
    alloc: Global,
    table: &mut TermTable,
    values: &[u32],
    terms: &[Term],
) -> Result<Seq<u32>, NoMemory>
    requires { AreBelow (length table.old) values.now }
    ensures { IfOk result (λ numbers. AreEntered table.old
        (grounds table.old values.now terms.now) table.new numbers) }
{
    let mut numbers = Seq::new(alloc);
    for term in terms {
        let number = enter_term(alloc, table, values, term)?;
        numbers.push(number)?;
    }
    Ok(numbers)
}

/// The literals with these numbers' terms for their variables.
pub fn enter_literals(
    alloc: Global,
    table: &mut TermTable,
    values: &[u32],
    lits: &[Literal],
) -> Result<Seq<RowLit>, NoMemory>
    requires { AreBelow (length table.old) values.now }
    ensures { IfOk result (λ rows. AreLiteralsEntered table.old
        (ground_literals table.old values.now lits.now) table.new rows) }
{
    let mut rows = Seq::new(alloc);
    for literal in lits {
        let args = enter_terms(alloc, table, values, literal.args.as_slice())?;
        rows.push(RowLit {
            positive: literal.positive,
            pred: literal.pred.copy(alloc)?,
            args,
        })?;
    }
    Ok(rows)
}
