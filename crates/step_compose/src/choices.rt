//! Which new symbols an existential may have.
ghost use Rattle.std.specs.Prelude.{◌≡◌, ◌<◌, ◌↔◌, IfOk, IsTrue, length};
ghost use Rattle.std.specs.List.{All};
ghost use Rattle.dk_syntax.specs.declared.Kind.TheVariants.{Function};
ghost use Rattle.normal_form.specs.ClauseLists.{has_number};
ghost use Rattle.step_compose.specs.Composing.{symbols_at};
ghost use Rattle.step_compose.specs.Searching.{CanFollow};

use crate::relaxed::symbol_at;
use dk_syntax::{Kind, NoMemory, Seq, SymKey};
use std::alloc::Global;

/// Whether all symbols are functions'.
pub fn are_functions(symbols: &[SymKey]) -> bool
    ensures { IsTrue result ↔ All (λ symbol. symbol.kind ≡ Function) symbols.now }
{
    for symbol in symbols {
        match symbol.kind {
            Kind::Function => {}
            Kind::Predicate => return false,
        }
    }
    true
}

fn is_chosen(places: &[u32], place: u32) -> bool
    ensures { result ≡ has_number places.now place }
{
    for chosen in places {
        if *chosen == place {
            return true;
        }
    }
    false
}

/// Whether the symbol at a place may be the next existential's: it isn't chosen yet, and it has as many arguments as
/// universals stand around.
pub fn can_follow(aliens: &[SymKey], arguments: &[Seq<u32>], places: &[u32], place: u32) -> bool
    requires place { place < length aliens.now }
    requires next { length places.now < length arguments.now }
    ensures { IsTrue result ↔ CanFollow aliens.now arguments.now places.now place }
{
    let around = arguments[places.len()].len();
    aliens[place as usize].arity as usize == around && !is_chosen(places, place)
}

/// The symbols at these places.
pub fn symbols_of(alloc: Global, aliens: &[SymKey], places: &[u32]) -> Result<Seq<SymKey>, NoMemory>
    ensures { IfOk result (λ symbols. symbols ≡ symbols_at aliens.now places.now) }
{
    let mut symbols = Seq::new(alloc);
    for place in places {
        symbols.push(symbol_at(alloc, aliens, *place)?)?;
    }
    Ok(symbols)
}
