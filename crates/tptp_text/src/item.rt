//! The items of a text.
use dk_syntax::{Name, Seq};
use tptp_formulas::{Body, Lang};

/// Where an item comes from.
#[derive(Debug, Drop)]
pub enum Source {
    /// The item has none.
    Missing,
    /// Another item.
    Plain(Name),
    /// A file, with the name that the item has there where it is known.
    File(Option<Name>),
    /// An inference, with its status where it has one.
    Inference {
        status: Option<Name>,
        parents: Seq<Source>,
    },
    /// Anything else.
    Other,
}

/// An annotated formula. The free variable is the first one of a `fof` item, which the quantifiers put
/// around its formula bind.
#[derive(Debug, Drop)]
pub struct Item {
    pub lang: Lang,
    pub name: Name,
    pub role: Name,
    pub body: Body,
    pub free: Option<Name>,
    pub source: Source,
}
