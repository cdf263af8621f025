//! Freshness: a step that introduces a symbol which was there before is wrong.
ghost use Rattle.std.specs.Prelude.{◌≡◌, ◌<◌, ◌++◌, length, map, slice_get, slice_set, take, Some};
ghost use Rattle.dk_syntax.specs.Symbols.{same_symbol};
ghost use Rattle.dk_syntax.specs.declared.SymKey.{SymKey as Symbol};
ghost use Rattle.step_check.specs.Freshness.{freshened, introduced, introduced_by, is_stale, refused_by, stale, stands_twice};
ghost use Rattle.step_check.specs.StalePlaces.{IsStalePlace};
ghost use Rattle.step_check.specs.Steps.{stands_in};
ghost use Rattle.step_check.specs.declared.verdict.Verdict.{Verdict as Judged};

use crate::verdict::{Limit, Reason, Verdict, Verdicts};
use dk_syntax::{Problem, Seq, SymKey};
use step_skolem::SkEntry;

fn is_same(symbol: &SymKey, other: &SymKey) -> bool
    ensures { result ≡ same_symbol symbol.now other.now }
{
    symbol.same(other)
}

fn is_symbol(symbols: &[SymKey], symbol: &SymKey) -> bool
    ensures { result ≡ stands_in symbols.now symbol.now }
{
    symbols.iter().any(|one| is_same(symbol, one))
}

/// Whether an entry has the symbol.
fn has_entry(entries: &[SkEntry], symbol: &SymKey) -> bool
    ensures { result ≡ stands_in (map (λ one. one.symbol) entries.now) symbol.now }
{
    for entry in entries {
        if is_same(symbol, &entry.symbol) {
            return true;
        }
    }
    false
}

/// Whether two entries have the symbol.
fn has_two_entries(entries: &[SkEntry], symbol: &SymKey) -> bool
    ensures { result ≡ stands_twice (map (λ one. one.symbol) entries.now) symbol.now }
{
    for (place, entry) in entries.iter().enumerate() {
        if is_same(symbol, &entry.symbol) {
            return has_entry(&entries[place + 1..], symbol);
        }
    }
    false
}

/// The entries of the map of a structural or composed step.
fn entries_of(verdict: &Verdict) -> &[SkEntry]
    ensures { map (λ one. one.symbol) result.now ≡ introduced verdict.now }
{
    match verdict {
        Verdict::Structural(map) => map.entries.as_slice(),
        Verdict::Composes(composed) => composed.map.entries.as_slice(),
        _ => &[],
    }
}

/// Whether one of the verdicts introduces the symbol.
fn is_introduced(verdicts: &[Verdict], symbol: &SymKey) -> bool
    ensures { result ≡ stands_in (introduced_by verdicts.now) symbol.now }
{
    for verdict in verdicts {
        if has_entry(entries_of(verdict), symbol) {
            return true;
        }
    }
    false
}

/// Whether the symbol is not fresh, for a step with these entries after these verdicts.
fn is_stale_symbol(
    symbols: &[SymKey],
    earlier: &[Verdict],
    entries: &[SkEntry],
    symbol: &SymKey,
) -> bool
    ensures { result ≡ is_stale (symbols.now ++ introduced_by earlier.now)
        (map (λ one. one.symbol) entries.now) symbol.now }
{
    is_symbol(symbols, symbol) || is_introduced(earlier, symbol) || has_two_entries(entries, symbol)
}

/// The place of the first entry whose symbol is not fresh.
fn stale_place(symbols: &[SymKey], earlier: &[Verdict], entries: &[SkEntry]) -> Option<usize>
    ensures { IsStalePlace (symbols.now ++ introduced_by earlier.now)
        (map (λ one. one.symbol) entries.now) result }
{
    for (place, entry) in entries.iter().enumerate() {
        if is_stale_symbol(symbols, earlier, entries, &entry.symbol) {
            return Some(place);
        }
    }
    None
}

/// The verdict in place of one with an entry whose symbol is not fresh.
fn refused(verdict: Verdict, place: usize) -> Verdict
    ensures { (symbol : Symbol) → slice_get (introduced verdict) place ≡ Some symbol
        → result ≡ Verdict.Wrong (Reason.NotFresh symbol) }
{
    let entries = match verdict {
        Verdict::Structural(map) => map.entries,
        Verdict::Composes(composed) => composed.map.entries,
        other => return other,
    };
    let mut entries = entries.into_vec();
    if place < entries.len() {
        let entry = entries.swap_remove(place);
        return Verdict::Wrong(Reason::NotFresh(entry.symbol));
    }
    Verdict::Over(Limit::NormalForm)
}

/// The place of the first entry, of the step at the place of the list, whose symbol is not fresh.
fn stale_at(symbols: &[SymKey], verdicts: &[Verdict], place: usize) -> Option<usize>
    requires { place < length verdicts.now }
    ensures { (verdict : Judged) → slice_get verdicts.now place ≡ Some verdict
        → IsStalePlace (symbols.now ++ introduced_by (take place verdicts.now))
        (introduced verdict) result }
{
    stale_place(symbols, &verdicts[..place], entries_of(&verdicts[place]))
}

/// Refuses the step at the place of the list, if it is not fresh.
fn freshen_at(symbols: &[SymKey], list: &mut Seq<Verdict>, place: usize)
    requires { place < length list.now }
    ensures { (verdict : Judged) → slice_get list.old place ≡ Some verdict
        → list.new ≡ slice_set list.old place
        (refused_by (stale (symbols.now ++ introduced_by (take place list.old)) verdict)
        verdict) }
{
    if let Some(entry) = stale_at(symbols, list.as_slice(), place) {
        let verdict = list.replace(place, Verdict::Over(Limit::NormalForm));
        list.replace(place, refused(verdict, entry));
    }
}

/// Puts `Wrong` in place of each structural or composed verdict whose map has a symbol that is one of the problem's,
/// stands twice in the map, or is introduced by an earlier step, which may itself not be fresh. The symbol named is that
/// of the map's first such entry. It takes no memory; its time grows with the square of the number of Skolem symbols.
pub fn fresh(problem: &Problem, list: &mut Verdicts)
    ensures { list.new.list ≡ freshened problem.now.symbols list.old.list }
{
    let symbols = problem.symbols.as_slice();
    let count = list.list.len();
    // From the last step to the first, so that what earlier steps introduce is still there.
    for done in 0..count {
        freshen_at(symbols, &mut list.list, count - 1 - done);
    }
}
