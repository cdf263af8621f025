//! Names that are compared and counted.
ghost use Rattle.std.specs.Prelude.{◌≡◌, nat_eq, nat_lt, count_by, IfOk, OnOk};
ghost use Rattle.std.specs.Cmp.Lexicographic.{pointwise};
ghost use Rattle.std.specs.List.{list_all};
ghost use Rattle.tstp_trace.specs.Names.{AreOnce, is_among, with_name};
ghost use Rattle.tstp_trace.specs.Sources.{is_known_status, most_parents};

use crate::step::MAX_PARENTS;
use dk_syntax::{Name, NoMemory, Seq};
use std::alloc::Global;

/// Whether the name is the word.
pub fn is_word(name: &Name, word: &[u8]) -> bool
    ensures { result ≡ pointwise nat_eq name.now word.now }
{
    name.as_bytes() == word
}

/// Whether the word is one of the names.
pub fn has_word(names: &[Name], word: &[u8]) -> bool
    ensures { result ≡ is_among names.now word.now }
{
    for name in names {
        if word == name.as_bytes() {
            return true;
        }
    }
    false
}

/// Whether the word is two or more of the names.
pub fn has_word_twice(names: &[Name], word: &[u8]) -> bool
    ensures { result ≡ nat_lt 1 (count_by (pointwise nat_eq word.now) names.now) }
{
    let mut found = false;
    for name in names {
        if word == name.as_bytes() {
            if found {
                return true;
            }
            found = true;
        }
    }
    false
}

fn is_known(status: &Name) -> bool
    ensures { result ≡ is_known_status status.now }
{
    is_word(status, b"thm") || is_word(status, b"cth") || is_word(status, b"esa")
}

/// Whether each status is one of the three that a step may have.
pub fn all_known(statuses: &[Name]) -> bool
    ensures { result ≡ list_all is_known_status statuses.now }
{
    for status in statuses {
        if !is_known(status) {
            return false;
        }
    }
    true
}

/// Adds the name, unless it is there.
fn add_once(alloc: Global, seen: &mut Seq<Name>, name: &Name) -> Result<(), NoMemory>
    ensures { OnOk result (seen.new ≡ with_name seen.old name.now) }
{
    if has_word(seen.as_slice(), name.as_bytes()) {
        return Ok(());
    }
    seen.push(name.copy(alloc)?)?;
    Ok(())
}

/// Each name once, by first occurrence; of more than a step may have, as many as show that.
pub fn once(alloc: Global, names: &[Name]) -> Result<Seq<Name>, NoMemory>
    ensures { IfOk result (λ once. AreOnce most_parents names.now once) }
{
    let mut seen = Seq::from_vec(Vec::new(alloc));
    for name in names {
        add_once(alloc, &mut seen, name)?;
        if MAX_PARENTS < seen.len() {
            return Ok(seen);
        }
    }
    Ok(seen)
}
