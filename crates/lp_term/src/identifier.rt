//! Identifiers of symbols.
ghost use Rattle.std.specs.Prelude.{◌≡◌, ◌++◌, IfOk, OnOk};
ghost use Rattle.std.specs.List.{list_all};
ghost use Rattle.lp_term.specs.Reserved.{IsFree, IsGrammarName, IsOfOne};
ghost use Rattle.lp_term.specs.Identifiers.{identifier_of, kind_letter, lower_word, name_text, word_byte};

use crate::ident::Ident;
use dk_syntax::{Kind, NoMemory, SymKey};
use itoa::Buffer;
use std::alloc::Global;

/// The letter that identifiers of this kind begin with.
fn letter_of(kind: Kind) -> u8
    ensures { result ≡ kind_letter kind }
{
    match kind {
        Kind::Function => b'f',
        Kind::Predicate => b'p',
    }
}

/// Whether the byte is a letter, a digit or `_`.
fn is_word_byte(byte: u8) -> bool
    ensures { result ≡ word_byte byte }
{
    byte.is_ascii_alphanumeric() || byte == b'_'
}

/// Whether each of the bytes is a letter, a digit or `_`.
fn are_word_bytes(bytes: &[u8]) -> bool
    ensures { result ≡ list_all word_byte bytes.now }
{
    bytes.iter().all(|byte| is_word_byte(*byte))
}

/// Whether a name begins with `a` to `z` and goes on with letters, digits and `_`.
fn is_lower_word(name: &[u8]) -> bool
    ensures { result ≡ lower_word name.now }
{
    match name.split_first() {
        None => false,
        Some((first, rest)) => first.is_ascii_lowercase() && are_word_bytes(rest),
    }
}

fn put_name(alloc: Global, text: &mut Vec<u8>, name: &[u8]) -> Result<(), NoMemory>
    ensures { OnOk result (text.new.items ≡ text.old.items ++ name_text name.now) }
{
    if is_lower_word(name) {
        text.extend_from_slice(name)?;
        return Ok(());
    }
    let digits = hex::encode(alloc, name)?;
    text.push(b'Q')?;
    text.extend_from_slice(digits.as_bytes())?;
    Ok(())
}

/// The identifier of a symbol: no two symbols share one, and none is a name that the grammar, the
/// prelude or the printer takes.
pub fn ident_of(alloc: Global, symbol: &SymKey) -> Result<Ident, NoMemory>
    ensures value { IfOk result (λ id. id ≡ identifier_of symbol.now) }
    ensures of_one { IfOk result (λ id. IsOfOne symbol.now id) }
    ensures grammar { IfOk result (λ id. IsGrammarName id) }
    ensures free { IfOk result (λ id. IsFree id) }
{
    let name = symbol.name.as_bytes();
    let mut buffer = Buffer::new();
    let mut text = Vec::new(alloc);
    text.push(letter_of(symbol.kind))?;
    text.extend_from_slice(buffer.format(symbol.arity).as_bytes())?;
    text.push(b'_')?;
    put_name(alloc, &mut text, name)?;
    Ok(Ident::new(text))
}
