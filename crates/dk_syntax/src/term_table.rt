//! Ground terms that share their subterms.
ghost use Rattle.std.specs.Prelude.{◌≡◌, ◌<◌, [], map, length, get_or, sum_by, IfOk, OnErr};
ghost use Rattle.std.specs.List.{All};
ghost use Rattle.std.specs.Map.{keys_of, values_of};
ghost use Rattle.indexmap.specs.IndexMap.{index_map_len};
ghost use Rattle.dk_syntax.specs.Depth.{capped};
ghost use Rattle.dk_syntax.specs.Shapes.{AreKept, IsEntered, terms_of};
ghost use Rattle.dk_syntax.specs.TermTables.{IsNumbered, IsTermTable, term_of};
ghost use Rattle.dk_syntax.specs.Terms.{term_size};

use crate::memory::NoMemory;
use crate::seq::Seq;
use crate::symbol::SymKey;
use crate::term::Term;
use indexmap::IndexMap;
use std::alloc::Global;
use std::marker::Model;

/// A term of a table: its head and the numbers of its arguments.
#[derive(Debug, Drop, PartialEq, Eq, Hash)]
enum Shape {
    Any,
    App(SymKey, Seq<u32>),
}

/// A list of distinct ground terms, each after its arguments, which contracts see as the list of the
/// terms. A term is kept as its head and the numbers of its arguments, so that each subterm is kept once.
#[derive(Drop)]
pub struct TermTable {
    // Each shape with the size of its term.
    entries: IndexMap<Shape, u64>,
}

impl Model for TermTable {
    ghost use Rattle.std.specs.Prelude.{List};
    ghost use Rattle.std.specs.Coded.{coded_list};
    ghost use Rattle.dk_syntax.specs.contracts.term.Term as of_term;
    ghost use Rattle.dk_syntax.specs.declared.term.Term.{Term};

    ghost Value = { List Term };

    ghost coded = { coded_list of_term.the_row.coded };

    ghost use Rattle.std.specs.Map.{keys_of, values_of};
    ghost use Rattle.dk_syntax.specs.Shapes.{AreKept, terms_of};

    ghost view = { λ table. terms_of (keys_of table.entries.entries) };

    ghost invariant = { λ table.
        AreKept (keys_of table.entries.entries) (values_of table.entries.entries) };
}

impl TermTable {
    /// A table of no terms, which takes no memory.
    pub fn new(alloc: Global) -> Result<TermTable, NoMemory>
        ensures { IfOk result (λ table. table ≡ []) }
    {
        Ok(TermTable {
            entries: IndexMap::new(alloc),
        })
    }

    /// The number of `Any`: the old one where it stands in the table, else the length before the call.
    pub fn any(&mut self, _alloc: Global) -> Result<u32, NoMemory>
        requires { length self.old < 4294967295 }
        ensures ok { IfOk result (λ n. IsNumbered self.old Term.Any self.new n) }
        ensures err { OnErr result (self.new ≡ self.old) }
    {
        let number = enter(&mut self.entries, Shape::Any, 1)?;
        Ok(number)
    }

    /// The number of the application of the head to the terms of the numbers: the old one where it stands
    /// in the table, else the length before the call.
    pub fn add(&mut self, alloc: Global, head: &SymKey, args: &Seq<u32>) -> Result<u32, NoMemory>
        requires room { length self.old < 4294967295 }
        requires numbers { All (λ n. n < length self.old) args.now }
        ensures ok { IfOk result (λ n. IsNumbered self.old
            (Term.App head.now (map (term_of self.old) args.now)) self.new n) }
        ensures err { OnErr result (self.new ≡ self.old) }
    {
        let size = size_of_args(&self.entries, args.as_slice()).saturating_add(1);
        let args = Seq::from_vec(Vec::from_slice(alloc, args.as_slice())?);
        let shape = Shape::App(head.copy(alloc)?, args);
        let number = enter(&mut self.entries, shape, size)?;
        Ok(number)
    }

    /// The term of a number, written out as a tree.
    pub fn term(&self, alloc: Global, n: u32) -> Result<Term, NoMemory>
        requires { n < length self.now }
        ensures { IfOk result (λ term. term ≡ term_of self.now n) }
    {
        written(alloc, &self.entries, n)
    }

    /// The number of symbols and `Any` in the tree of a number's term, or the greatest `u64` where that is
    /// more.
    pub fn size(&self, n: u32) -> u64
        requires { n < length self.now }
        ensures { result ≡ capped (term_size (term_of self.now n)) }
    {
        size_at(&self.entries, n)
    }

    /// The number of terms. With it comes what is true of each table.
    pub fn len(&self) -> u32
        ensures len { result ≡ length self.now }
        ensures table { IsTermTable self.now }
    {
        self.entries.len() as u32
    }
}

/// The size that is kept for a number.
fn size_at(entries: &IndexMap<Shape, u64>, n: u32) -> u64
    requires { n < index_map_len entries.now }
    ensures { result ≡ get_or (values_of entries.now.entries) n 0 }
{
    match entries.get_index(n as usize) {
        Some((_, size)) => *size,
        None => 0,
    }
}

/// The sum of the sizes, or the greatest `u64` where that is more.
fn size_of_args(entries: &IndexMap<Shape, u64>, args: &[u32]) -> u64
    requires { All (λ n. n < index_map_len entries.now) args.now }
    ensures { result ≡ capped
        (sum_by (λ n. get_or (values_of entries.now.entries) n 0) args.now) }
{
    let mut total = 0;
    for arg in args {
        total = size_at(entries, *arg).saturating_add(total);
    }
    total
}

/// The shape's number, where it stands, or else the length, and then it is put at the end.
fn enter(entries: &mut IndexMap<Shape, u64>, shape: Shape, size: u64) -> Result<u32, NoMemory>
    requires { index_map_len entries.old < 4294967295 }
    ensures ok { IfOk result (λ n. IsEntered entries.old.entries shape size entries.new.entries n) }
    ensures err { OnErr result (entries.new.entries ≡ entries.old.entries) }
{
    if let Some(place) = entries.get_index_of(&shape) {
        return Ok(place as u32);
    }
    let place = entries.len() as u32;
    entries.insert(shape, size)?;
    Ok(place)
}

/// The term of a number as a tree.
fn written(alloc: Global, entries: &IndexMap<Shape, u64>, n: u32) -> Result<Term, NoMemory>
    requires within { n < index_map_len entries.now }
    requires kept { AreKept (keys_of entries.now.entries) (values_of entries.now.entries) }
    ensures { IfOk result (λ term. term ≡ term_of (terms_of (keys_of entries.now.entries)) n) }
{
    match entries.get_index(n as usize) {
        Some((Shape::App(head, numbers), _)) => {
            let mut args = Seq::from_vec(Vec::with_capacity(alloc, numbers.len())?);
            for number in numbers.as_slice() {
                args.push(written(alloc, entries, *number)?)?;
            }
            Ok(Term::App(head.copy(alloc)?, args))
        }
        Some((Shape::Any, _)) => Ok(Term::Any),
        None => Ok(Term::Any),
    }
}
