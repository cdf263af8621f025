//! What of a text is still unread.
ghost use Rattle.std.specs.Prelude.{◌≡◌, ◌∷◌, IsTrue, ◌↔◌, [], true, false, length, IfOk};
ghost use Rattle.tptp_tokens.specs.Skipping.{Between, skip};
ghost use Rattle.tptp_tokens.specs.Chunks.{chunk, behind_dot};
ghost use Rattle.tptp_tokens.specs.Matter.{Skips};
ghost use Rattle.tptp_tokens.specs.TokenLists.{AreTokens};

use crate::chunks::tokens_of;
use crate::matter::{closing_tail, skip_matter};
use crate::quoted::Unclosed;
use crate::token::Token;
use dk_syntax::NoMemory;
use std::alloc::Global;
use std::marker::Model;

/// What of a text is still unread, which contracts see as the list of its bytes. It knows where the last
/// comment of the text ends, so that no end of a comment is searched for in vain, and where the last search for
/// a closing quote ended in vain, so that no later one goes over the same bytes.
#[derive(Drop)]
pub struct Unread<'a> {
    bytes: &'a [u8],
    // How long the tail of the text is that begins at the last `*/`, or 0 where there is none.
    closing: usize,
    unclosed: Unclosed,
}

impl<'a> Model for Unread<'a> {
    ghost use Rattle.std.specs.Prelude.{ℕ, List};

    ghost Value = { List ℕ };

    ghost use Rattle.tptp_tokens.specs.Skipping.{KnowsClosing};
    ghost use Rattle.tptp_tokens.specs.Quotes.{KnowsUnclosed};

    ghost view = { λ unread. unread.bytes.now };

    ghost invariant = { λ unread. KnowsClosing unread.closing unread.bytes.now
        × KnowsUnclosed unread.unclosed unread.bytes.now };
}

impl<'a> Unread<'a> {
    /// A whole text.
    pub fn new(bytes: &'a [u8]) -> Unread<'a>
        ensures { result ≡ bytes.now }
    {
        Unread {
            bytes,
            closing: closing_tail(bytes),
            unclosed: Unclosed::new(bytes),
        }
    }

    /// How many bytes are left.
    pub fn len(&self) -> usize
        ensures { result ≡ length self.now }
    {
        self.bytes.len()
    }

    pub fn is_empty(&self) -> bool
        ensures { IsTrue result ↔ (self.now ≡ []) }
    {
        self.bytes.is_empty()
    }

    /// What stands behind the skipped matter in front, at the start of a line or not.
    pub fn behind_matter(&self, at_start: bool) -> Unread<'a>
        ensures skips { Skips at_start self.now result }
        ensures skipped { result ≡ skip (Between at_start) self.now }
    {
        let bytes = skip_matter(self.closing, at_start, self.bytes);
        Unread {
            bytes,
            closing: self.closing,
            unclosed: self.unclosed,
        }
    }

    /// What stands behind a full stop, where one is in front.
    pub fn behind_dot(&self) -> Option<Unread<'a>>
        ensures { result ≡ behind_dot self.now }
    {
        match self.bytes {
            [b'.', bytes @ ..] => Some(Unread {
                bytes,
                closing: self.closing,
                unclosed: self.unclosed,
            }),
            _ => None,
        }
    }

    /// The tokens up to the first full stop, the first byte that begins no token, or the end, and what is
    /// left from there on.
    pub fn chunk(&self, alloc: Global) -> Result<(Vec<Token>, Unread<'a>), NoMemory>
        ensures are { IfOk result (λ x. AreTokens self.now x.0.items x.1) }
        ensures read { IfOk result (λ x. (x.0.items, x.1) ≡ chunk (length self.now) self.now) }
    {
        let mut unclosed = self.unclosed;
        let (tokens, bytes) = tokens_of(alloc, self.closing, &mut unclosed, self.bytes)?;
        let rest = Unread {
            bytes,
            closing: self.closing,
            unclosed,
        };
        Ok((tokens, rest))
    }
}
