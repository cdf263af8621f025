//! Reading a whole text.
#![tactic(auto, using(crate::proofs::TextSteps::text_steps), unfolding(crate::specs::ReadingItems::dotted_at, crate::specs::ReadingItems::one_at, crate::specs::ReadingItems::items_from))]

ghost use Rattle.std.specs.Prelude.{◌≡◌, ◌≢◌, ◌+◌, ◌≤◌, length, true, IfOk, List, Result, Err};
ghost use Rattle.std.specs.Option.{option_copied};
ghost use Rattle.tptp_tokens.specs.Brackets.{too_deep as deep_brackets};
ghost use Rattle.tptp_text.specs.declared.fault.TptpFault.{TptpFault as Fault};
ghost use Rattle.tptp_text.specs.declared.fault.TptpFault.TheVariants.{Memory};
ghost use Rattle.tptp_text.specs.declared.item.Item.{Item as Written};
ghost use Rattle.tptp_text.specs.Items.{kind_of};
ghost use Rattle.tptp_text.specs.ProperItems.{HaveProperFormulas};
ghost use Rattle.tptp_text.specs.ReadingItems.{Answers, one_at, items_at};
ghost use Rattle.tptp_text.specs.Text.{IsReadAnswer};

use crate::fault::TptpFault;
use crate::item::Item;
use crate::items::item_of;
use dk_syntax::{Name, Seq};
use std::alloc::Global;
use tptp_formulas::{Body, OutsideKind};
use tptp_tokens::{Token, Unread, is_too_deep};

/// Whether too many brackets are unclosed, as they are counted one by one.
fn has_deep_brackets(tokens: &[Token]) -> bool
    ensures { result ≡ deep_brackets 0 tokens.now }
{
    is_too_deep(tokens)
}

/// The item that begins here, at that byte, and what stands behind its full stop.
fn one_item<'a>(alloc: Global, at: u64, here: &Unread<'a>) -> Result<(Item, Unread<'a>), TptpFault>
    ensures { Answers (λ x. x) result (one_at at here.now) }
{
    let (tokens, rest) = here.chunk(alloc)?;
    if has_deep_brackets(tokens.as_slice()) {
        return Err(TptpFault::TooDeep { at });
    }
    match rest.behind_dot() {
        None => Err(TptpFault::NotTptp { at }),
        Some(after) => {
            let item = item_of(alloc, at, tokens.as_slice())?;
            Ok((item, after))
        }
    }
}

fn all_items(alloc: Global, bytes: &[u8]) -> Result<Seq<Item>, TptpFault>
    ensures { Answers (λ x. x) result (items_at (length bytes.now) (length bytes.now + 1) 0 true
        bytes.now) }
{
    let mut items = Seq::from_vec(Vec::new(alloc));
    let mut rest = Unread::new(bytes);
    let mut start = true;
    for count in 0..bytes.len() + 1 {
        let here = rest.behind_matter(start);
        if here.is_empty() {
            return Ok(items);
        }
        let at = bytes.len().saturating_sub(here.len()) as u64;
        if count == 65536 {
            return Err(TptpFault::TooMany { at });
        }
        let (item, after) = one_item(alloc, at, &here)?;
        items.push(item)?;
        rest = after;
        start = false;
    }
    Err(TptpFault::NotTptp { at: 0 })
}

/// The items of a text, or its first fault: an item for which there is no room, brackets or a formula
/// that are too deep, or what is no item.
pub fn read_items(alloc: Global, bytes: &[u8]) -> Result<Seq<Item>, TptpFault>
    ensures answer { IsReadAnswer bytes.now result }
    ensures few { IfOk result (λ items. length items ≤ 65536) }
    // Each formula is closed and well-formed, and has no Any.
    ensures proper { IfOk result HaveProperFormulas }
    // Whatever the answer of the text is, it is given, unless memory ran out.
    ensures only { (answer : Result (List Written) Fault) → IsReadAnswer bytes.now answer
        → answer ≢ Err Memory → Answers (λ x. x) result answer }
{
    all_items(alloc, bytes)
}

/// What of an item is outside the profile.
pub fn outside(item: &Item) -> Option<OutsideKind>
    ensures { result ≡ kind_of item.now.body }
{
    match &item.body {
        Body::Plain(_) => None,
        Body::Outside(kind) => Some(*kind),
    }
}

/// The first variable that was free in the formula of an `fof` item.
pub fn closed(item: &Item) -> Option<&Name>
    ensures { option_copied result ≡ item.now.free }
{
    item.free.as_ref()
}
