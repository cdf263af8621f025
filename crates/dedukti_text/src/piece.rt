//! Terms, printed over a stack of what is still to be printed.
ghost use Rattle.std.specs.Prelude.{◌≡◌, ◌++◌, ◌+◌, ◌<◌, codes, OnOk};
ghost use Rattle.lp_text.specs.Levels.{bodies_over, over};
ghost use Rattle.lp_term.specs.declared.Lp.{Lp};
ghost use Rattle.lp_text.specs.Print.{bracketed, operand_text};
ghost use Rattle.dedukti_text.specs.Pieces.{piece_over, piece_text, piece_weight, pieces_over, pieces_text, pieces_weight, term_weight};
ghost use Rattle.dedukti_text.specs.Print.{application_text, dk_printed, dk_term_text, product_text};

use crate::bytes::{put, put_binder, put_variable};
use crate::shape::{is_atom, is_operand, occurs};
use dk_syntax::NoMemory;
use lp_term::Lp;
use std::alloc::Global;

/// A part of a text. A term stands in a place of a level.
#[derive(Clone, Copy)]
enum Piece<'a> {
    Bytes(&'a [u8]),
    /// Where it needs no brackets.
    Bare(&'a Lp, u32),
    /// Left of an arrow, as an annotation, or as the head of an application.
    Operand(&'a Lp, u32),
    /// As an argument.
    Argument(&'a Lp, u32),
}

fn add<'a>(rest: &mut Vec<Piece<'a>>, piece: Piece<'a>) -> Result<(), NoMemory>
    ensures text { OnOk result (pieces_text rest.new.items ≡ piece_text piece.entry
        ++ pieces_text rest.old.items) }
    ensures weight { OnOk result (pieces_weight rest.new.items
        ≡ piece_weight piece.entry + pieces_weight rest.old.items) }
    ensures over { OnOk result (pieces_over rest.new.items
        ≡ piece_over piece.entry + pieces_over rest.old.items) }
{
    rest.push(piece)?;
    Ok(())
}

/// `domain MARK body`, the body one level below.
fn add_scope<'a>(
    rest: &mut Vec<Piece<'a>>,
    domain: &'a Lp,
    mark: &'a [u8],
    body: &'a Lp,
    level: u32,
) -> Result<(), NoMemory>
    ensures text { OnOk result (pieces_text rest.new.items ≡ operand_text (dk_printed domain.now) level
        ++ (mark.now ++ (dk_term_text body.now (level + 1) ++ pieces_text rest.old.items))) }
    ensures weight { OnOk result (pieces_weight rest.new.items
        ≡ 3 + term_weight domain.now + 1 + term_weight body.now + pieces_weight rest.old.items) }
    ensures over { OnOk result (pieces_over rest.new.items ≡ bodies_over domain.now level
        + (over (level + 1) + bodies_over body.now (level + 1)) + pieces_over rest.old.items) }
{
    let inner = level.checked_add(1).ok_or(NoMemory)?;
    add(rest, Piece::Bare(body, inner))?;
    add(rest, Piece::Bytes(mark))?;
    add(rest, Piece::Operand(domain, level))
}

/// An abstraction applied, in its own brackets.
fn put_let<'a>(
    out: &mut Vec<u8>,
    rest: &mut Vec<Piece<'a>>,
    domain: &'a Lp,
    body: &'a Lp,
    argument: &'a Lp,
    level: u32,
) -> Result<(), NoMemory>
    ensures text { OnOk result (out.new.items ++ pieces_text rest.new.items ≡ out.old.items
        ++ (application_text (dk_printed (Lp.Lam domain.now body.now)).parts
        (dk_printed (Lp.Lam domain.now body.now)) (dk_printed argument.now) level
        ++ pieces_text rest.old.items)) }
    ensures weight { OnOk result (pieces_weight rest.new.items ≡ 8 + term_weight domain.now
        + term_weight body.now + term_weight argument.now + pieces_weight rest.old.items) }
    ensures over { OnOk result (pieces_over rest.new.items ≡ bodies_over domain.now level
        + (over (level + 1) + bodies_over body.now (level + 1)) + bodies_over argument.now level
        + pieces_over rest.old.items) }
{
    put(out, b"(")?;
    put_binder(out, level)?;
    add(rest, Piece::Argument(argument, level))?;
    add(rest, Piece::Bytes(b") "))?;
    add_scope(rest, domain, b" =>\n", body, level)
}

fn put_application<'a>(
    out: &mut Vec<u8>,
    rest: &mut Vec<Piece<'a>>,
    function: &'a Lp,
    argument: &'a Lp,
    level: u32,
) -> Result<(), NoMemory>
    ensures text { OnOk result (out.new.items ++ pieces_text rest.new.items ≡ out.old.items
        ++ (application_text (dk_printed function.now).parts (dk_printed function.now)
        (dk_printed argument.now) level ++ pieces_text rest.old.items)) }
    ensures weight { OnOk result (pieces_weight rest.new.items < 9 + term_weight function.now +
        term_weight argument.now + pieces_weight rest.old.items) }
    ensures over { OnOk result (pieces_over rest.new.items ≡ bodies_over function.now level
        + bodies_over argument.now level + pieces_over rest.old.items) }
{
    if let Lp::Lam(domain, body) = function {
        return put_let(out, rest, domain.get(), body.get(), argument, level);
    }
    add(rest, Piece::Argument(argument, level))?;
    add(rest, Piece::Bytes(b" "))?;
    add(rest, Piece::Operand(function, level))
}

fn put_product<'a>(
    out: &mut Vec<u8>,
    rest: &mut Vec<Piece<'a>>,
    domain: &'a Lp,
    body: &'a Lp,
    level: u32,
) -> Result<(), NoMemory>
    ensures text { OnOk result (out.new.items ++ pieces_text rest.new.items ≡ out.old.items
        ++ (product_text ((dk_printed body.now).occurs 0) (dk_printed domain.now)
        (dk_printed body.now) level ++ pieces_text rest.old.items)) }
    ensures weight { OnOk result (pieces_weight rest.new.items < 8 + term_weight domain.now +
        term_weight body.now + pieces_weight rest.old.items) }
    ensures over { OnOk result (pieces_over rest.new.items ≡ bodies_over domain.now level
        + (over (level + 1) + bodies_over body.now (level + 1)) + pieces_over rest.old.items) }
{
    if occurs(body, 0)? {
        put_binder(out, level)?;
    }
    add_scope(rest, domain, b" -> ", body, level)
}

/// The root of a term; its parts are still to be printed.
fn put_root<'a>(
    out: &mut Vec<u8>,
    rest: &mut Vec<Piece<'a>>,
    t: &'a Lp,
    level: u32,
) -> Result<(), NoMemory>
    ensures text { OnOk result (out.new.items ++ pieces_text rest.new.items ≡ out.old.items
        ++ (dk_term_text t.now level ++ pieces_text rest.old.items)) }
    ensures weight { OnOk result (pieces_weight rest.new.items < term_weight t.now + pieces_weight
        rest.old.items) }
    ensures over { OnOk result (pieces_over rest.new.items
        ≡ bodies_over t.now level + pieces_over rest.old.items) }
{
    match t {
        Lp::Sort => put(out, b"Type"),
        Lp::Sym(name) => put(out, name.as_bytes()),
        Lp::Var(number) => put_variable(out, level.saturating_sub(1).saturating_sub(*number)),
        Lp::Pat(name) => put(out, name.as_bytes()),
        Lp::App(function, argument) => {
            put_application(out, rest, function.get(), argument.get(), level)
        }
        Lp::Lam(domain, body) => {
            put_binder(out, level)?;
            add_scope(rest, domain.get(), b" => ", body.get(), level)
        }
        Lp::Pi(domain, body) => put_product(out, rest, domain.get(), body.get(), level),
    }
}

fn put_bracketed<'a>(
    out: &mut Vec<u8>,
    rest: &mut Vec<Piece<'a>>,
    t: &'a Lp,
    level: u32,
    needed: bool,
) -> Result<(), NoMemory>
    ensures text { OnOk result (out.new.items ++ pieces_text rest.new.items ≡ out.old.items
        ++ (bracketed needed (dk_term_text t.now level) ++ pieces_text rest.old.items)) }
    ensures weight { OnOk result (pieces_weight rest.new.items < 3 + term_weight t.now +
        pieces_weight rest.old.items) }
    ensures over { OnOk result (pieces_over rest.new.items
        ≡ bodies_over t.now level + pieces_over rest.old.items) }
{
    if !needed {
        return add(rest, Piece::Bare(t, level));
    }
    put(out, b"(")?;
    add(rest, Piece::Bytes(b")"))?;
    add(rest, Piece::Bare(t, level))
}

fn put_piece<'a>(
    out: &mut Vec<u8>,
    rest: &mut Vec<Piece<'a>>,
    piece: Piece<'a>,
) -> Result<(), NoMemory>
    ensures text { OnOk result (out.new.items ++ pieces_text rest.new.items ≡ out.old.items
        ++ (piece_text piece.entry ++ pieces_text rest.old.items)) }
    ensures weight { OnOk result (pieces_weight rest.new.items < piece_weight piece.entry +
        pieces_weight rest.old.items) }
    ensures over { OnOk result (pieces_over rest.new.items
        ≡ piece_over piece.entry + pieces_over rest.old.items) }
{
    match piece {
        Piece::Bytes(bytes) => put(out, bytes),
        Piece::Bare(t, level) => put_root(out, rest, t, level),
        Piece::Operand(t, level) => put_bracketed(out, rest, t, level, !is_operand(t)),
        Piece::Argument(t, level) => put_bracketed(out, rest, t, level, !is_atom(t)),
    }
}

/// Appends the text of a term in a place of that level.
pub(crate) fn put_term(alloc: Global, out: &mut Vec<u8>, t: &Lp, level: u32) -> Result<(), NoMemory>
    ensures text { OnOk result (out.new.items ≡ out.old.items ++ dk_term_text t.now level) }
    ensures over { OnOk result (bodies_over t.now level ≡ 0) }
{
    let mut rest = Vec::new(alloc);
    add(&mut rest, Piece::Bare(t, level))?;
    while let Some(piece) = rest.pop() {
        put_piece(out, &mut rest, piece)?;
    }
    Ok(())
}
