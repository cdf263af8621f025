//! One token of a command.
#![tactic(auto, unfolding(crate::specs::Machine::collapsed, crate::specs::Machine::step))]

ghost use Rattle.std.specs.Prelude.{◌≡◌, Some, IfOk};
ghost use Rattle.lp_read.specs.Machine as machine;
ghost use Rattle.lp_read.specs.Machine.{GivesTurn, IsWidest, IsWrapped};
ghost use Rattle.lp_read.specs.declared.state.Turn.TheVariants.{On};

use crate::read::Read;
use crate::state::{Binder, Frame, Mode, Place, Role, Said, Turn, Wrapped};
use crate::token::Token;
use dk_syntax::NoMemory;
use lp_term::Ident;
use std::alloc::Global;

fn on(mode: Mode) -> Option<Turn>
    ensures { result ≡ Some (On mode) }
{
    Some(Turn::On(mode))
}

/// The term that a token is.
fn atom(place: &Place, token: Token) -> Result<Option<Read>, NoMemory>
    ensures { IfOk result (λ o. o ≡ machine.atom_at token place.now) }
{
    match token {
        Token::Name(name) => Ok(Some(place.scope.meaning(name)?)),
        Token::Pattern(name) => {
            if place.patterns {
                Ok(Some(Read::pattern(name)))
            } else {
                Ok(None)
            }
        }
        Token::Sort => Ok(Some(Read::sort())),
        _ => Ok(None),
    }
}

/// Where a term begins.
fn begun(place: &mut Place, token: Token) -> Result<Option<Turn>, NoMemory>
    ensures { GivesTurn result place.new (machine.begun token place.old) }
{
    match token {
        Token::Lambda => Ok(on(Mode::Open(Binder::Abstraction))),
        Token::Product => Ok(on(Mode::Open(Binder::Product))),
        Token::Let => Ok(on(Mode::Named(Role::Let))),
        Token::OpenBracket => {
            place.frames.push(Frame::Bracket)?;
            Ok(on(Mode::Term))
        }
        _ => match atom(place, token)? {
            Some(term) => Ok(on(Mode::Goes(term))),
            None => Ok(None),
        },
    }
}

/// The term that ends where its body does, if the frame is that of a body.
fn wrap(alloc: Global, frame: Frame, body: Read) -> Result<Wrapped, NoMemory>
    ensures { IfOk result (λ w. IsWrapped frame body w) }
{
    match frame {
        Frame::Abstraction(domain) => Ok(Wrapped::Wider(Read::lambda(alloc, domain, body)?)),
        Frame::Product(domain) => Ok(Wrapped::Wider(Read::product(alloc, domain, body)?)),
        Frame::LetBody(of, value) => {
            let function = Read::lambda(alloc, of, body)?;
            Ok(Wrapped::Wider(Read::apply(alloc, function, value)?))
        }
        frame => Ok(Wrapped::Stays(frame, body)),
    }
}

/// The widest term that ends here, and the frame that it stands in, if it stands in one.
fn collapse(alloc: Global, place: &mut Place, term: Read) -> Result<Option<(Frame, Read)>, NoMemory>
    ensures widest { IfOk result (λ o. IsWidest (machine.collapsed term place.old.frames
        place.old.scope) place.new o) }
    ensures patterns { place.new.patterns ≡ place.old.patterns }
{
    let mut term = term;
    while let Some(frame) = place.frames.pop() {
        match wrap(alloc, frame, term)? {
            Wrapped::Stays(frame, whole) => return Ok(Some((frame, whole))),
            Wrapped::Wider(wider) => {
                place.scope.leave();
                term = wider;
            }
        }
    }
    Ok(None)
}

fn closed(alloc: Global, frame: Frame, term: Read) -> Result<Option<Turn>, NoMemory>
    ensures { IfOk result (λ o. o ≡ machine.closed frame term) }
{
    match frame {
        Frame::Bracket => Ok(on(Mode::Goes(term))),
        Frame::Argument(function) => {
            let whole = Read::apply(alloc, function, term)?;
            Ok(on(Mode::Goes(whole)))
        }
        Frame::Type(Role::Binder(binder), name) => Ok(on(Mode::Comma(binder, name, term))),
        _ => Ok(None),
    }
}

fn finished(frame: Frame, term: Read) -> Option<Turn>
    ensures { result ≡ machine.finished frame term }
{
    match frame {
        Frame::Type(Role::Constant, name) => Some(Turn::End(Said::Constant(name, term))),
        Frame::Type(Role::Symbol, name) => Some(Turn::End(Said::Symbol(name, term))),
        Frame::Definition(name, of) => Some(Turn::End(Said::Define(name, of, term))),
        Frame::Right(left) => Some(Turn::End(Said::Rule(left, term))),
        _ => None,
    }
}

fn defined(place: &mut Place, frame: Frame, term: Read) -> Result<Option<Turn>, NoMemory>
    ensures { GivesTurn result place.new (machine.defined frame term place.old) }
{
    match frame {
        Frame::Type(Role::Let, name) => {
            place.frames.push(Frame::Value(name, term))?;
            Ok(on(Mode::Term))
        }
        Frame::Type(Role::Symbol, name) => {
            place.frames.push(Frame::Definition(name, term))?;
            Ok(on(Mode::Term))
        }
        _ => Ok(None),
    }
}

fn valued(place: &mut Place, frame: Frame, term: Read) -> Result<Option<Turn>, NoMemory>
    ensures { GivesTurn result place.new (machine.valued frame term place.old) }
{
    match frame {
        Frame::Value(name, of) => {
            place.frames.push(Frame::LetBody(of, term))?;
            place.scope.enter(Some(name))?;
            Ok(on(Mode::Term))
        }
        _ => Ok(None),
    }
}

fn rewritten(place: &mut Place, frame: Frame, term: Read) -> Result<Option<Turn>, NoMemory>
    ensures { GivesTurn result place.new (machine.rewritten frame term place.old) }
{
    match frame {
        Frame::Left => {
            place.frames.push(Frame::Right(term))?;
            Ok(on(Mode::Term))
        }
        _ => Ok(None),
    }
}

/// A term in its frame, before the token.
fn ended_by(
    alloc: Global,
    place: &mut Place,
    token: Token,
    frame: Frame,
    term: Read,
) -> Result<Option<Turn>, NoMemory>
    ensures { GivesTurn result place.new (machine.ended_by token frame term place.old) }
{
    match token {
        Token::CloseBracket => closed(alloc, frame, term),
        Token::Semicolon => Ok(finished(frame, term)),
        Token::Defined => defined(place, frame, term),
        Token::In => valued(place, frame, term),
        Token::Rewrites => rewritten(place, frame, term),
        _ => Ok(None),
    }
}

/// Where a term ends, before the token.
fn ended(
    alloc: Global,
    place: &mut Place,
    token: Token,
    term: Read,
) -> Result<Option<Turn>, NoMemory>
    ensures { GivesTurn result place.new (machine.ended token place.old.patterns
        (machine.collapsed term place.old.frames place.old.scope)) }
{
    match collapse(alloc, place, term)? {
        None => Ok(None),
        Some((frame, whole)) => ended_by(alloc, place, token, frame, whole),
    }
}

/// An argument that is one token.
fn applied(
    alloc: Global,
    place: &Place,
    token: Token,
    function: Read,
) -> Result<Option<Turn>, NoMemory>
    ensures { GivesTurn result place.now (machine.applied function place.now
        (machine.atom_at token place.now)) }
{
    match atom(place, token)? {
        None => Ok(None),
        Some(argument) => {
            let whole = Read::apply(alloc, function, argument)?;
            Ok(on(Mode::Goes(whole)))
        }
    }
}

/// Behind an application.
fn gone_on(
    alloc: Global,
    place: &mut Place,
    token: Token,
    term: Read,
) -> Result<Option<Turn>, NoMemory>
    ensures { GivesTurn result place.new (machine.gone_on term token place.old) }
{
    match token {
        Token::Arrow => {
            place.frames.push(Frame::Product(term))?;
            place.scope.enter(None)?;
            Ok(on(Mode::Term))
        }
        Token::OpenBracket => {
            place.frames.push(Frame::Argument(term))?;
            Ok(on(Mode::Term))
        }
        Token::Name(_) | Token::Pattern(_) | Token::Sort => applied(alloc, place, token, term),
        _ => ended(alloc, place, token, term),
    }
}

fn started(place: &mut Place, token: Token) -> Result<Option<Turn>, NoMemory>
    ensures { GivesTurn result place.new (machine.started token place.old) }
{
    match token {
        Token::Constant => Ok(on(Mode::Keyword)),
        Token::Symbol => Ok(on(Mode::Named(Role::Symbol))),
        Token::Rule => {
            place.frames.push(Frame::Left)?;
            place.patterns = true;
            Ok(on(Mode::Term))
        }
        _ => Ok(None),
    }
}

fn keyword(token: Token) -> Option<Turn>
    ensures { result ≡ machine.keyword token }
{
    match token {
        Token::Symbol => on(Mode::Named(Role::Constant)),
        _ => None,
    }
}

fn opened(binder: Binder, token: Token) -> Option<Turn>
    ensures { result ≡ machine.opened binder token }
{
    match token {
        Token::OpenBracket => on(Mode::Named(Role::Binder(binder))),
        _ => None,
    }
}

fn named(role: Role, token: Token) -> Option<Turn>
    ensures { result ≡ machine.named role token }
{
    match token {
        Token::Name(name) => on(Mode::Colon(role, name)),
        _ => None,
    }
}

fn typed(place: &mut Place, role: Role, name: Ident, token: Token) -> Result<Option<Turn>, NoMemory>
    ensures { GivesTurn result place.new (machine.typed role name token place.old) }
{
    match token {
        Token::Colon => {
            place.frames.push(Frame::Type(role, name))?;
            Ok(on(Mode::Term))
        }
        _ => Ok(None),
    }
}

fn body_frame(binder: Binder, domain: Read) -> Frame
    ensures { result ≡ machine.body_frame binder domain }
{
    match binder {
        Binder::Abstraction => Frame::Abstraction(domain),
        Binder::Product => Frame::Product(domain),
    }
}

fn entered(
    place: &mut Place,
    binder: Binder,
    name: Ident,
    domain: Read,
    token: Token,
) -> Result<Option<Turn>, NoMemory>
    ensures { GivesTurn result place.new (machine.entered binder name domain token place.old) }
{
    match token {
        Token::Comma => {
            place.frames.push(body_frame(binder, domain))?;
            place.scope.enter(Some(name))?;
            Ok(on(Mode::Term))
        }
        _ => Ok(None),
    }
}

/// What a token leads to, and what is around the place behind it.
pub(crate) fn step(
    alloc: Global,
    place: &mut Place,
    mode: Mode,
    token: Token,
) -> Result<Option<Turn>, NoMemory>
    ensures { GivesTurn result place.new (machine.step mode token place.old) }
{
    match mode {
        Mode::Command => started(place, token),
        Mode::Keyword => Ok(keyword(token)),
        Mode::Open(binder) => Ok(opened(binder, token)),
        Mode::Named(role) => Ok(named(role, token)),
        Mode::Colon(role, name) => typed(place, role, name, token),
        Mode::Comma(binder, name, domain) => entered(place, binder, name, domain, token),
        Mode::Term => begun(place, token),
        Mode::Goes(term) => gone_on(alloc, place, token, term),
    }
}
