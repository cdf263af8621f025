//! One token of a command.
#![tactic(auto, unfolding(crate::specs::Machine::collapsed, crate::specs::Machine::step))]

ghost use Rattle.std.specs.Prelude.{◌≡◌, Some, IfOk};
ghost use Rattle.dedukti_read.specs.Machine as machine;
ghost use Rattle.dedukti_read.specs.Machine.{GivesTurn, IsWidest, IsWrapped};
ghost use Rattle.dedukti_read.specs.declared.state.Turn.TheVariants.{On};

use crate::read::Read;
use crate::state::{Frame, Mode, Place, Role, Said, Turn, Wrapped};
use crate::token::Token;
use dedukti_text::pattern_names;
use dk_syntax::NoMemory;
use lp_term::Ident;
use std::alloc::Global;

fn on(mode: Mode) -> Option<Turn>
    ensures { result ≡ Some (On mode) }
{
    Some(Turn::On(mode))
}

/// What an identifier means at the place.
fn meaning(place: &Place, name: Ident) -> Result<Read, NoMemory>
    ensures { IfOk result (λ read. read ≡ machine.means place.now name) }
{
    place.scope.meaning(place.patterns.as_slice(), name)
}

/// A term, one frame further in.
fn term_in(place: &mut Place, frame: Frame) -> Result<Option<Turn>, NoMemory>
    ensures { GivesTurn result place.new (Some (On Mode.Term, machine.with_frame frame place.old)) }
{
    place.frames.push(frame)?;
    Ok(on(Mode::Term))
}

/// A body, one binder further in.
fn body_in(place: &mut Place, frame: Frame, name: Option<Ident>) -> Result<Option<Turn>, NoMemory>
    ensures { GivesTurn result place.new (Some (On Mode.Term, machine.below frame name place.old)) }
{
    place.frames.push(frame)?;
    place.scope.enter(name)?;
    Ok(on(Mode::Term))
}

/// Where a term begins.
fn begun(place: &mut Place, token: Token) -> Result<Option<Turn>, NoMemory>
    ensures { GivesTurn result place.new (machine.begun token place.old) }
{
    match token {
        Token::Name(name) => Ok(on(Mode::Begun(name))),
        Token::Sort => Ok(on(Mode::Goes(Read::sort()))),
        Token::OpenBracket => term_in(place, Frame::Bracket),
        _ => Ok(None),
    }
}

/// The term that ends where its body does, if the frame is that of a body.
fn wrap(alloc: Global, frame: Frame, body: Read) -> Result<Wrapped, NoMemory>
    ensures { IfOk result (λ w. IsWrapped frame body w) }
{
    match frame {
        Frame::Abstraction(domain) => Ok(Wrapped::Wider(Read::lambda(alloc, domain, body)?)),
        Frame::Product(domain) => Ok(Wrapped::Wider(Read::product(alloc, domain, body)?)),
        frame => Ok(Wrapped::Stays(frame, body)),
    }
}

/// The widest term that ends here, and the frame that it stands in, if it stands in one.
fn collapse(alloc: Global, place: &mut Place, term: Read) -> Result<Option<(Frame, Read)>, NoMemory>
    ensures widest { IfOk result (λ o. IsWidest (machine.collapsed term place.old.frames
        place.old.scope) place.new o) }
    ensures patterns { place.new.patterns ≡ place.old.patterns }
{
    let mut term = term;
    while let Some(frame) = place.frames.pop() {
        match wrap(alloc, frame, term)? {
            Wrapped::Stays(frame, whole) => return Ok(Some((frame, whole))),
            Wrapped::Wider(wider) => {
                place.scope.leave();
                term = wider;
            }
        }
    }
    Ok(None)
}

fn closed(alloc: Global, frame: Frame, term: Read) -> Result<Option<Turn>, NoMemory>
    ensures { IfOk result (λ o. o ≡ machine.closed frame term) }
{
    match frame {
        Frame::Bracket => Ok(on(Mode::Goes(term))),
        Frame::Argument(function) => {
            let whole = Read::apply(alloc, function, term)?;
            Ok(on(Mode::Goes(whole)))
        }
        Frame::Annotation(name) => Ok(on(Mode::Annotates(name, term))),
        Frame::AnnotationArgument(name, function) => {
            let whole = Read::apply(alloc, function, term)?;
            Ok(on(Mode::Annotates(name, whole)))
        }
        _ => Ok(None),
    }
}

fn finished(frame: Frame, term: Read) -> Option<Turn>
    ensures { result ≡ machine.finished frame term }
{
    match frame {
        Frame::Type(Role::Constant, name) => Some(Turn::End(Said::Constant(name, term))),
        Frame::Type(Role::Symbol, name) => Some(Turn::End(Said::Symbol(name, term))),
        Frame::Definition(name, of) => Some(Turn::End(Said::Define(name, of, term))),
        Frame::Right(left) => Some(Turn::End(Said::Rule(left, term))),
        _ => None,
    }
}

fn defined(place: &mut Place, frame: Frame, term: Read) -> Result<Option<Turn>, NoMemory>
    ensures { GivesTurn result place.new (machine.defined frame term place.old) }
{
    match frame {
        Frame::Type(Role::Symbol, name) => term_in(place, Frame::Definition(name, term)),
        _ => Ok(None),
    }
}

/// Whether the names are these, in this order.
fn are_same(names: &[Ident], others: &[Ident]) -> bool
    ensures { result ≡ machine.are_same names.now others.now }
{
    let mut left = names;
    let mut right = others;
    while let [name, names_left @ ..] = left {
        match right {
            [] => return false,
            [other, others_left @ ..] => {
                if name.as_bytes() != other.as_bytes() {
                    return false;
                }
                left = names_left;
                right = others_left;
            }
        }
    }
    right.is_empty()
}

/// The left side of a rule, whose pattern variables are to be those that were listed.
fn rewritten(
    alloc: Global,
    place: &mut Place,
    frame: Frame,
    term: Read,
) -> Result<Option<Turn>, NoMemory>
    ensures { GivesTurn result place.new (machine.rewritten frame term place.old) }
{
    match frame {
        Frame::Left => {
            let names = pattern_names(alloc, term.as_term())?;
            if !are_same(place.patterns.as_slice(), names.as_slice()) {
                return Ok(None);
            }
            term_in(place, Frame::Right(term))
        }
        _ => Ok(None),
    }
}

/// A term in its frame, before the token.
fn ended_by(
    alloc: Global,
    place: &mut Place,
    token: Token,
    frame: Frame,
    term: Read,
) -> Result<Option<Turn>, NoMemory>
    ensures { GivesTurn result place.new (machine.ended_by token frame term place.old) }
{
    match token {
        Token::CloseBracket => closed(alloc, frame, term),
        Token::Stop => Ok(finished(frame, term)),
        Token::Defined => defined(place, frame, term),
        Token::Rewrites => rewritten(alloc, place, frame, term),
        _ => Ok(None),
    }
}

/// Where a term ends, before the token.
fn ended(
    alloc: Global,
    place: &mut Place,
    token: Token,
    term: Read,
) -> Result<Option<Turn>, NoMemory>
    ensures { GivesTurn result place.new (machine.ended token place.old.patterns
        (machine.collapsed term place.old.frames place.old.scope)) }
{
    match collapse(alloc, place, term)? {
        None => Ok(None),
        Some((frame, whole)) => ended_by(alloc, place, token, frame, whole),
    }
}

/// Behind an application.
fn gone_on(
    alloc: Global,
    place: &mut Place,
    token: Token,
    term: Read,
) -> Result<Option<Turn>, NoMemory>
    ensures { GivesTurn result place.new (machine.gone_on term token place.old) }
{
    match token {
        Token::Arrow => body_in(place, Frame::Product(term), None),
        Token::OpenBracket => term_in(place, Frame::Argument(term)),
        Token::Name(name) => {
            let argument = meaning(place, name)?;
            Ok(on(Mode::Goes(Read::apply(alloc, term, argument)?)))
        }
        Token::Sort => Ok(on(Mode::Goes(Read::apply(alloc, term, Read::sort())?))),
        _ => ended(alloc, place, token, term),
    }
}

/// Behind the name that begins a term.
fn bound_or(
    alloc: Global,
    place: &mut Place,
    token: Token,
    name: Ident,
) -> Result<Option<Turn>, NoMemory>
    ensures { GivesTurn result place.new (machine.bound_or name token place.old) }
{
    match token {
        Token::Colon => Ok(on(Mode::Annotated(name))),
        _ => {
            let term = meaning(place, name)?;
            gone_on(alloc, place, token, term)
        }
    }
}

fn annotated(place: &mut Place, token: Token, name: Ident) -> Result<Option<Turn>, NoMemory>
    ensures { GivesTurn result place.new (machine.annotated name token place.old) }
{
    match token {
        Token::Name(other) => {
            let term = meaning(place, other)?;
            Ok(on(Mode::Annotates(name, term)))
        }
        Token::Sort => Ok(on(Mode::Annotates(name, Read::sort()))),
        Token::OpenBracket => term_in(place, Frame::Annotation(name)),
        _ => Ok(None),
    }
}

fn annotates(
    alloc: Global,
    place: &mut Place,
    token: Token,
    name: Ident,
    term: Read,
) -> Result<Option<Turn>, NoMemory>
    ensures { GivesTurn result place.new (machine.annotates name term token place.old) }
{
    match token {
        Token::Name(other) => {
            let argument = meaning(place, other)?;
            Ok(on(Mode::Annotates(name, Read::apply(alloc, term, argument)?)))
        }
        Token::Sort => {
            let whole = Read::apply(alloc, term, Read::sort())?;
            Ok(on(Mode::Annotates(name, whole)))
        }
        Token::OpenBracket => term_in(place, Frame::AnnotationArgument(name, term)),
        Token::Maps => body_in(place, Frame::Abstraction(term), Some(name)),
        Token::Arrow => body_in(place, Frame::Product(term), Some(name)),
        _ => Ok(None),
    }
}

fn started(token: Token) -> Option<Turn>
    ensures { result ≡ machine.started token }
{
    match token {
        Token::Def => on(Mode::Named),
        Token::Name(name) => on(Mode::Colon(Role::Constant, name)),
        Token::OpenSquare => on(Mode::First),
        _ => None,
    }
}

fn named(token: Token) -> Option<Turn>
    ensures { result ≡ machine.named token }
{
    match token {
        Token::Name(name) => on(Mode::Colon(Role::Symbol, name)),
        _ => None,
    }
}

fn typed(place: &mut Place, role: Role, name: Ident, token: Token) -> Result<Option<Turn>, NoMemory>
    ensures { GivesTurn result place.new (machine.typed role name token place.old) }
{
    match token {
        Token::Colon => term_in(place, Frame::Type(role, name)),
        _ => Ok(None),
    }
}

/// Behind a pattern variable.
fn listed(place: &mut Place, token: Token) -> Result<Option<Turn>, NoMemory>
    ensures { GivesTurn result place.new (machine.listed token place.old) }
{
    match token {
        Token::Comma => Ok(on(Mode::Further)),
        Token::CloseSquare => term_in(place, Frame::Left),
        _ => Ok(None),
    }
}

fn further(place: &mut Place, token: Token) -> Result<Option<Turn>, NoMemory>
    ensures { GivesTurn result place.new (machine.further token place.old) }
{
    match token {
        Token::Name(name) => {
            place.patterns.push(name)?;
            Ok(on(Mode::Listed))
        }
        _ => Ok(None),
    }
}

fn first(place: &mut Place, token: Token) -> Result<Option<Turn>, NoMemory>
    ensures { GivesTurn result place.new (machine.first token place.old) }
{
    match token {
        Token::CloseSquare => term_in(place, Frame::Left),
        _ => further(place, token),
    }
}

/// What a token leads to, and what is around the place behind it.
pub(crate) fn step(
    alloc: Global,
    place: &mut Place,
    mode: Mode,
    token: Token,
) -> Result<Option<Turn>, NoMemory>
    ensures { GivesTurn result place.new (machine.step mode token place.old) }
{
    match mode {
        Mode::Command => Ok(started(token)),
        Mode::Named => Ok(named(token)),
        Mode::Colon(role, name) => typed(place, role, name, token),
        Mode::First => first(place, token),
        Mode::Listed => listed(place, token),
        Mode::Further => further(place, token),
        Mode::Term => begun(place, token),
        Mode::Begun(name) => bound_or(alloc, place, token, name),
        Mode::Goes(term) => gone_on(alloc, place, token, term),
        Mode::Annotated(name) => annotated(place, token, name),
        Mode::Annotates(name, term) => annotates(alloc, place, token, name, term),
    }
}
