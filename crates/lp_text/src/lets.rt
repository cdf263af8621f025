//! The lets of a body, rendered beside each other.
ghost use Rattle.std.specs.Prelude.{◌≡◌, ◌++◌, codes, map, IfOk, OnOk};
ghost use Rattle.lp_text.specs.Lets.{let_line, LetsAreLines};
ghost use Rattle.lp_text.specs.Print.{term_text};

use crate::bytes::{put, put_let};
use crate::piece::put_term;
use dk_syntax::{NoMemory, Seq};
use lp_term::Lp;
use rayon::prelude::*;
use std::alloc::Global;
use std::thread::Threads;

/// A `let` without its body: the level of its variable, and the type and the value of it in a place of that level.
#[derive(Drop)]
pub struct LetPiece {
    pub level: u32,
    pub ty: Lp,
    pub term: Lp,
}

fn print_let(alloc: Global, piece: &LetPiece) -> Result<Seq<u8>, NoMemory>
    ensures { IfOk result (λ text. text ≡ let_line piece.now) }
{
    let mut out = Vec::new(alloc);
    put_let(&mut out, piece.level)?;
    put_term(alloc, &mut out, &piece.ty, piece.level)?;
    put(&mut out, b" \xe2\x89\x94 ")?;
    put_term(alloc, &mut out, &piece.term, piece.level)?;
    put(&mut out, b" in\n")?;
    Ok(Seq::from_vec(out))
}

fn rendered<R: Threads + Sync>(
    rt: &R,
    alloc: Global,
    lets: &[LetPiece],
) -> Result<Vec<Seq<u8>>, NoMemory>
    ensures { IfOk result (λ texts. texts.items ≡ map let_line lets.now) }
{
    let texts: Result<Vec<Seq<u8>>, NoMemory> = lets
        .par_iter()
        .with_min_len(1)
        .map(
            |piece: &LetPiece| -> Result<Seq<u8>, NoMemory>
                ensures { IfOk result (λ text. text ≡ let_line piece.now) }
            { print_let(alloc, piece) },
        )
        .collect(rt, alloc)?;
    texts
}

/// The text of each `let` up to its body, in order: its part of a development's text. The texts are made beside each
/// other, by as many threads as the machine has processors.
pub fn print_lets<R: Threads + Sync>(
    rt: &R,
    alloc: Global,
    lets: &Seq<LetPiece>,
) -> Result<Seq<Seq<u8>>, NoMemory>
    ensures { IfOk result (λ texts. texts ≡ map let_line lets.now) }
{
    let texts = rendered(rt, alloc, lets.as_slice())?;
    Ok(Seq::from_vec(texts))
}

/// A `let` is printed as its line and then its body, one level deeper.
pub fn lets_are_lines()
    ensures { LetsAreLines }
{}
