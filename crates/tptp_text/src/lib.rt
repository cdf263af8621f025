//! TPTP texts: the items that bytes spell, after the TPTP language's annotated formulas, or the place of
//! the first fault.
//!
//! A text is tokens by longest match, with white space and comments between them. `read_items` reads it in
//! one pass, an item at a time: the tokens up to the next full stop are counted for brackets, and then read
//! as an item, whose formula is closed and whose source is kept. What an item may be is said by `IsItem`,
//! `IsSource` and `IsOpaque`, one case an alternative, and which answer a text has by `IsReadAnswer`. A text
//! has one answer, and bytes spell at most one list of items. Its formulas are closed and well-formed, and have
//! no `Any` (specs/ProperItems). The texts of names, terms, literals, formulas and items, as `print_item` and the
//! reports of the crates above write them, are defined in specs/Printed. Laws for the crates above stand in
//! `proofs/TextLaws` (a text has one answer, `one_reading`).
//!
//! It stands on `tptp_tokens` (tokens and skipped matter) and `tptp_formulas` (formulas and what they mean).
//! Time and memory grow with the text; a source is read once more for each inference around it. The stack
//! is as deep as the brackets of an item, of which at most 1,000 are unclosed at once.
#![tactic(auto)]

mod copies;
mod fault;
mod item;
mod items;
mod laws;
mod names;
mod opaque;
mod print;
mod sources;
mod text;

pub use copies::copy_items;
pub use fault::TptpFault;
pub use item::{Item, Source};
pub use print::{formula_text, item_name_text, literal_text, name_text, print_item, term_text};
pub use text::{closed, outside, read_items};
pub use tptp_formulas::{Body, Lang, OutsideKind};
