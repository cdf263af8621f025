use dk_syntax::{NoMemory, Seq};
use lp_term::{
    Command, Dev, Ident, Lp, apply, apply_both, arrow, lambda, negation, prelude, proof_type,
    symbol,
};
use lp_text::{LetPiece, print, print_lets};
use std::alloc::Global;
use std::test::Fail;

const PRELUDE: &str = "constant symbol I : TYPE;
constant symbol Prop : TYPE;
symbol Prf : Prop → TYPE;
constant symbol imp : Prop → Prop → Prop;
constant symbol and : Prop → Prop → Prop;
constant symbol or : Prop → Prop → Prop;
constant symbol iff : Prop → Prop → Prop;
constant symbol not : Prop → Prop;
constant symbol top : Prop;
constant symbol bot : Prop;
constant symbol all : (I → Prop) → Prop;
constant symbol ex : (I → Prop) → Prop;
constant symbol any : I;
rule Prf (imp $p $q) ↪ Prf $p → Prf $q;
rule Prf (not $p) ↪ Prf $p → Prf bot;
rule Prf (all $f) ↪ Π (v0 : I), Prf ($f v0);
rule Prf bot ↪ Π (v0 : Prop), Prf v0;
rule Prf top ↪ Π (v0 : Prop), Prf v0 → Prf v0;
rule Prf (and $p $q) ↪ Π (v0 : Prop), (Prf $p → Prf $q → Prf v0) → Prf v0;
rule Prf (or $p $q) ↪ Π (v0 : Prop), (Prf $p → Prf v0) → (Prf $q → Prf v0) → Prf v0;
rule Prf (ex $f) ↪ Π (v0 : Prop), (Π (v1 : I), Prf ($f v1) → Prf v0) → Prf v0;
rule Prf (iff $p $q) ↪ Π (v0 : Prop), ((Prf $p → Prf $q) → (Prf $q → Prf $p) → Prf v0) → Prf v0;
symbol em : Π (v0 : Prop), Prf (or v0 (not v0));
";

const GOAL: &str =
    "symbol goal : Prf p0_p → Prf (not p0_p) → Prf bot ≔ λ (v0 : Prf p0_p), λ (v1 : Prf (not p0_p)), em bot bot (λ (v2 : Prf bot), v2) (λ (v2 : Prf (not bot)), let v3 : Prf (not p0_p) → Prf bot ≔ λ (v3 : Prf (not p0_p)), v3 v0 in
let v4 : Prf p0_p → Prf bot ≔ λ (v4 : Prf p0_p), v1 v4 in
let v5 : Prf bot ≔ v3 (λ (v5 : Prf p0_p), v4 v5) in
v5 bot);
";

const SHAPES: &str = "symbol d : (let v0 : A ≔ f in
v0) a ≔ λ (v0 : (λ (v0 : A), v0) → A), f (f v0) (let v1 : A ≔ a in
v1);
rule (let v0 : A ≔ a in
v0) → A ↪ TYPE;
";

fn ident(alloc: Global, name: &str) -> Result<Ident, NoMemory> {
    Ok(Ident::new(Vec::from_slice(alloc, name.as_bytes())?))
}

fn text_of_one(alloc: Global, command: Command) -> Result<Vec<u8>, NoMemory> {
    let commands = Seq::from_vec(vec![in alloc; command]?);
    print(alloc, &Dev { commands })
}

/// `Prf p0_p`.
fn positive(alloc: Global) -> Result<Lp, NoMemory> {
    proof_type(alloc, symbol(alloc, b"p0_p")?)
}

/// `Prf (not p0_p)`.
fn negative(alloc: Global) -> Result<Lp, NoMemory> {
    proof_type(alloc, negation(alloc, symbol(alloc, b"p0_p")?)?)
}

/// `Prf bot`.
fn absurdity(alloc: Global) -> Result<Lp, NoMemory> {
    proof_type(alloc, symbol(alloc, b"bot")?)
}

fn local(alloc: Global, of: Lp, value: Lp, body: Lp) -> Result<Lp, NoMemory> {
    apply(alloc, lambda(alloc, of, body)?, value)
}

fn last_let(alloc: Global) -> Result<Lp, NoMemory> {
    let inner = lambda(
        alloc,
        positive(alloc)?,
        apply(alloc, Lp::Var(1), Lp::Var(0))?,
    )?;
    let value = apply(alloc, Lp::Var(1), inner)?;
    let body = apply(alloc, Lp::Var(0), symbol(alloc, b"bot")?)?;
    local(alloc, absurdity(alloc)?, value, body)
}

fn middle_let(alloc: Global) -> Result<Lp, NoMemory> {
    let of = arrow(alloc, positive(alloc)?, &absurdity(alloc)?)?;
    let value = lambda(
        alloc,
        positive(alloc)?,
        apply(alloc, Lp::Var(3), Lp::Var(0))?,
    )?;
    local(alloc, of, value, last_let(alloc)?)
}

fn first_let(alloc: Global) -> Result<Lp, NoMemory> {
    let of = arrow(alloc, negative(alloc)?, &absurdity(alloc)?)?;
    let value = lambda(
        alloc,
        negative(alloc)?,
        apply(alloc, Lp::Var(0), Lp::Var(3))?,
    )?;
    local(alloc, of, value, middle_let(alloc)?)
}

fn goal(alloc: Global) -> Result<Command, NoMemory> {
    let bot = symbol(alloc, b"bot")?;
    let middle = apply_both(alloc, symbol(alloc, b"em")?, bot, symbol(alloc, b"bot")?)?;
    let same = lambda(alloc, absurdity(alloc)?, Lp::Var(0))?;
    let denied = proof_type(alloc, negation(alloc, symbol(alloc, b"bot")?)?)?;
    let other = lambda(alloc, denied, first_let(alloc)?)?;
    let inside = apply_both(alloc, middle, same, other)?;
    let body = lambda(
        alloc,
        positive(alloc)?,
        lambda(alloc, negative(alloc)?, inside)?,
    )?;
    let inner = arrow(alloc, negative(alloc)?, &absurdity(alloc)?)?;
    let of = arrow(alloc, positive(alloc)?, &inner)?;
    Ok(Command::Define(ident(alloc, "goal")?, of, body))
}

/// `let v : A ≔ value in`, a newline, `v`.
fn renamed(alloc: Global, value: &[u8]) -> Result<Lp, NoMemory> {
    local(
        alloc,
        symbol(alloc, b"A")?,
        symbol(alloc, value)?,
        Lp::Var(0),
    )
}

fn shapes(alloc: Global) -> Result<Vec<u8>, NoMemory> {
    let of = apply(alloc, renamed(alloc, b"f")?, symbol(alloc, b"a")?)?;
    let same = lambda(alloc, symbol(alloc, b"A")?, Lp::Var(0))?;
    let domain = arrow(alloc, same, &symbol(alloc, b"A")?)?;
    let once = apply(alloc, symbol(alloc, b"f")?, Lp::Var(0))?;
    let inside = apply_both(alloc, symbol(alloc, b"f")?, once, renamed(alloc, b"a")?)?;
    let body = lambda(alloc, domain, inside)?;
    let left = arrow(alloc, renamed(alloc, b"a")?, &symbol(alloc, b"A")?)?;
    let commands = vec![in alloc;
        Command::Define(ident(alloc, "d")?, of, body),
        Command::Rule(left, Lp::Sort),
    ]?;
    print(
        alloc,
        &Dev {
            commands: Seq::from_vec(commands),
        },
    )
}

fn nested(alloc: Global, count: u32) -> Result<Vec<u8>, NoMemory> {
    let mut t = Lp::Var(0);
    for _ in 0..count {
        t = local(alloc, symbol(alloc, b"A")?, symbol(alloc, b"a")?, t)?;
    }
    text_of_one(
        alloc,
        Command::Define(ident(alloc, "d")?, symbol(alloc, b"A")?, t),
    )
}

#[test]
fn prints(rt: HostRuntime) -> Result<(), Fail> {
    let alloc = rt.alloc();
    let commands = prelude(alloc)?;
    let text = print(alloc, &Dev { commands })?;
    assert_eq!(rt; text.as_slice(), PRELUDE.as_bytes());
    let text = text_of_one(alloc, goal(alloc)?)?;
    assert_eq!(rt; text.as_slice(), GOAL.as_bytes());
    let text = shapes(alloc)?;
    assert_eq!(rt; text.as_slice(), SHAPES.as_bytes());
    let text = nested(alloc, 10_000)?;
    assert_eq!(rt; text.len(), 228_914);
    Ok(())
}

// Each let but the first has the variable of the one before as its value.
#[test]
fn lets_are_rendered_in_order(rt: HostRuntime) -> Result<(), Fail> {
    let alloc = rt.alloc();
    let mut lets = Seq::new(alloc);
    for before in 0..5_000u32 {
        lets.push(LetPiece {
            level: before.saturating_add(1),
            ty: proof_type(alloc, symbol(alloc, b"bot")?)?,
            term: Lp::Var(0),
        })
        .map_err(|_| "memory")?;
    }
    let texts = print_lets(&rt, alloc, &lets)?;
    assert_eq!(rt; texts.len(), 5_000);
    for (before, text) in (0..5_000u32).zip(texts.as_slice()) {
        let level = before.saturating_add(1);
        let line = format!(in alloc; "let v{level} : Prf bot ≔ v{before} in\n")?;
        assert_eq!(rt; text.as_slice(), line.as_bytes(), "{before}");
    }
    Ok(())
}
