//! Laws on what the reading of items gives.
#![tactic(auto)]

ghost use Rattle.std.specs.Prelude.{◌≡◌, ◌≢◌, ℕ, true, Bool, List, Result, Ok, Err};
ghost use Rattle.tptp_tokens.specs.declared.Token.{Token};
ghost use Rattle.tptp_text.specs.declared.item.Source.{Source as Said};
ghost use Rattle.tptp_text.specs.declared.item.Item.{Item as Written};
ghost use Rattle.tptp_text.specs.declared.fault.TptpFault.{TptpFault as Fault};
ghost use Rattle.tptp_text.specs.declared.fault.TptpFault.TheVariants.{Memory};
ghost use Rattle.tptp_text.specs.Items.{IsItem};
ghost use Rattle.tptp_text.specs.Text.{IsReadAnswer, Spells};
ghost use Rattle.tptp_text.specs.Opaque.{IsOpaque};
ghost use Rattle.tptp_text.specs.Sources.{IsSource};
ghost use Rattle.tptp_text.specs.Reading.{stops};

/// An opaque term ends at one place, and it says one source.
pub fn one_source()
    ensures place { (in_parent : Bool) (before after other : List Token)
        → IsOpaque in_parent before after → stops in_parent after ≡ true
        → IsOpaque in_parent before other → stops in_parent other ≡ true → after ≡ other }
    ensures value { (in_parent : Bool) (before after other : List Token) (one another : Said)
        → IsSource in_parent before one after → stops in_parent after ≡ true
        → IsSource in_parent before another other → stops in_parent other ≡ true → one ≡ another }
{}

/// Tokens are at most one item.
pub fn one_item()
    ensures { (tokens : List Token) (one another : Written) → IsItem tokens one
        → IsItem tokens another → one ≡ another }
{}

/// A text has at most one answer, and it has one: its items, or its first fault.
pub fn one_reading()
    ensures one { (bytes : List ℕ) (one another : Result (List Written) Fault)
        → IsReadAnswer bytes one → IsReadAnswer bytes another → one ≢ Err Memory
        → another ≢ Err Memory → one ≡ another }
    ensures some { (bytes : List ℕ) → (answer : Result (List Written) Fault)
        × IsReadAnswer bytes answer × (answer ≢ Err Memory) }
{}

/// Bytes spell at most one list of items, and it is their answer exactly where they have no fault.
pub fn one_list()
    ensures one { (bytes : List ℕ) (items others : List Written) → Spells bytes items
        → Spells bytes others → items ≡ others }
    ensures spelled { (bytes : List ℕ) (items : List Written) → IsReadAnswer bytes (Ok items)
        → Spells bytes items }
    ensures read { (bytes : List ℕ) (items : List Written) → Spells bytes items
        → ((fault : Fault) → fault ≢ Memory → IsReadAnswer bytes (Err fault) → ⊥)
        → IsReadAnswer bytes (Ok items) }
{}
