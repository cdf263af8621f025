//! Names, terms, literals, formulas and items, printed.
#![tactic(auto, using(crate::proofs::Printing::text_steps))]

ghost use Rattle.std.specs.Prelude.{◌≡◌, ◌⊎◌, ◌++◌, ◌∷◌, [], codes, map, IfOk, List, OnOk, Result, Ok, Err};
ghost use Rattle.tptp_tokens.specs.Bytes.{is_digit, is_word};
ghost use Rattle.std.specs.List.{list_all};
ghost use Rattle.tptp_text.specs.Printed as printed;
ghost use Rattle.tptp_text.specs.Text.{IsReadAnswer};
ghost use Rattle.tptp_text.specs.declared.fault.TptpFault.{TptpFault as Fault};
ghost use Rattle.tptp_text.specs.declared.fault.TptpFault.TheVariants.{Memory};
ghost use Rattle.tptp_text.specs.declared.item.Item.{Item as Written};

use dk_syntax::{Formula, Literal, Name, NoMemory, Term};
use itoa::Buffer;
use std::alloc::Global;

fn put(out: &mut Vec<u8>, bytes: &[u8]) -> Result<(), NoMemory>
    ensures { OnOk result (out.new.items ≡ out.old.items ++ bytes.now) }
{
    out.extend_from_slice(bytes)?;
    Ok(())
}

fn is_word_byte(b: u8) -> bool
    ensures { result ≡ is_word b }
{
    b.is_ascii_lowercase() || b.is_ascii_uppercase() || b.is_ascii_digit() || b == b'_'
}

fn are_word_bytes(bytes: &[u8]) -> bool
    ensures { result ≡ list_all is_word bytes.now }
{
    bytes.iter().all(|b| is_word_byte(*b))
}

fn are_digits(bytes: &[u8]) -> bool
    ensures { result ≡ list_all is_digit bytes.now }
{
    bytes.iter().all(|b| is_digit_byte(*b))
}

fn is_digit_byte(b: u8) -> bool
    ensures { result ≡ is_digit b }
{
    b.is_ascii_digit()
}

/// Whether a name begins with `a` to `z` and goes on with letters, digits and `_`.
fn is_lower_word(name: &[u8]) -> bool
    ensures { result ≡ printed.is_lower_word name.now }
{
    match name.split_first() {
        None => false,
        Some((first, rest)) => first.is_ascii_lowercase() && are_word_bytes(rest),
    }
}

/// Whether a name is one digit or more.
fn is_digit_run(name: &[u8]) -> bool
    ensures { result ≡ printed.is_digit_run name.now }
{
    match name.split_first() {
        None => false,
        Some((first, rest)) => is_digit_byte(*first) && are_digits(rest),
    }
}

fn put_quoted(out: &mut Vec<u8>, name: &[u8]) -> Result<(), NoMemory>
    ensures { OnOk result (out.new.items ≡ out.old.items ++ printed.quoted_name name.now) }
{
    put(out, b"'")?;
    for b in name {
        if *b == b'\'' || *b == b'\\' {
            out.push(b'\\')?;
        }
        out.push(*b)?;
    }
    put(out, b"'")
}

fn put_name(out: &mut Vec<u8>, name: &Name) -> Result<(), NoMemory>
    ensures { OnOk result (out.new.items ≡ out.old.items ++ printed.printed_name name.now) }
{
    let bytes = name.as_bytes();
    if is_lower_word(bytes) {
        put(out, bytes)
    } else {
        put_quoted(out, bytes)
    }
}

fn put_item_name(out: &mut Vec<u8>, name: &Name) -> Result<(), NoMemory>
    ensures { OnOk result (out.new.items ≡ out.old.items ++ printed.printed_item_name name.now) }
{
    let bytes = name.as_bytes();
    if is_lower_word(bytes) || is_digit_run(bytes) {
        put(out, bytes)
    } else {
        put_quoted(out, bytes)
    }
}

/// The text of a symbol's name: a lower word as it is, any other name in quotes.
pub fn name_text(alloc: Global, name: &Name) -> Result<Vec<u8>, NoMemory>
    ensures { IfOk result (λ text. text.items ≡ printed.printed_name name.now) }
{
    let mut out = Vec::new(alloc);
    put_name(&mut out, name)?;
    Ok(out)
}

/// The text of an item's name: a lower word or a run of digits as it is, any other name in quotes.
pub fn item_name_text(alloc: Global, name: &Name) -> Result<Vec<u8>, NoMemory>
    ensures { IfOk result (λ text. text.items ≡ printed.printed_item_name name.now) }
{
    let mut out = Vec::new(alloc);
    put_item_name(&mut out, name)?;
    Ok(out)
}

/// The variable of the quantifier with so many quantifiers around it.
fn put_variable(out: &mut Vec<u8>, level: u32) -> Result<(), NoMemory>
    ensures { OnOk result (out.new.items ≡ out.old.items ++ printed.variable_text level) }
{
    let mut buffer = Buffer::new();
    put(out, b"X")?;
    put(out, buffer.format(level).as_bytes())
}

/// A term in a place with so many quantifiers around.
#[cycle(put_term)]
fn put_term(out: &mut Vec<u8>, term: &Term, level: u32) -> Result<(), NoMemory>
    ensures { OnOk result (out.new.items ≡ out.old.items ++ printed.printed_term term.now level) }
{
    match term {
        Term::Var(number) => put_variable(out, level.saturating_sub(1).saturating_sub(*number)),
        Term::App(symbol, args) => {
            put_name(out, &symbol.name)?;
            put_arguments(out, args.as_slice(), level)
        }
        Term::Any => put(out, b"$any"),
    }
}

/// No arguments, or a list of them in brackets.
#[cycle(put_term)]
fn put_arguments(out: &mut Vec<u8>, terms: &[Term], level: u32) -> Result<(), NoMemory>
    ensures { OnOk result (out.new.items ≡ out.old.items
        ++ printed.arguments_text (map printed.printed_term terms.now) level) }
{
    if terms.is_empty() {
        return Ok(());
    }
    let mut mark = b'(';
    for term in terms {
        out.push(mark)?;
        put_term(out, term, level)?;
        mark = b',';
    }
    put(out, b")")
}

fn put_sign(out: &mut Vec<u8>, positive: bool) -> Result<(), NoMemory>
    ensures { OnOk result (out.new.items ≡ out.old.items ++ printed.sign_text positive) }
{
    if positive { Ok(()) } else { put(out, b"~") }
}

fn put_literal(out: &mut Vec<u8>, literal: &Literal, level: u32) -> Result<(), NoMemory>
    ensures { OnOk result (out.new.items ≡ out.old.items
        ++ printed.printed_literal literal.now level) }
{
    put_sign(out, literal.positive)?;
    put_name(out, &literal.pred.name)?;
    put_arguments(out, literal.args.as_slice(), level)
}

/// The text of a term in a place with so many quantifiers around: 0 where no variable stands in it, and for a
/// term of a clause the number of its variables. `Any` is `$any`.
pub fn term_text(alloc: Global, term: &Term, level: u32) -> Result<Vec<u8>, NoMemory>
    ensures { IfOk result (λ text. text.items ≡ printed.printed_term term.now level) }
{
    let mut out = Vec::new(alloc);
    put_term(&mut out, term, level)?;
    Ok(out)
}

/// The text of a literal in such a place, with `~` before it where its sign is negative.
pub fn literal_text(alloc: Global, literal: &Literal, level: u32) -> Result<Vec<u8>, NoMemory>
    ensures { IfOk result (λ text. text.items ≡ printed.printed_literal literal.now level) }
{
    let mut out = Vec::new(alloc);
    put_literal(&mut out, literal, level)?;
    Ok(out)
}

/// `(A MARK B)`.
#[cycle(put_formula)]
fn put_binary(
    out: &mut Vec<u8>,
    mark: &[u8],
    a: &Formula,
    b: &Formula,
    level: u32,
) -> Result<(), NoMemory>
    ensures { OnOk result (out.new.items ≡ out.old.items
        ++ printed.binary_text mark.now (printed.printed_formula a.now)
        (printed.printed_formula b.now) level) }
{
    put(out, b"(")?;
    put_formula(out, a, level)?;
    put(out, mark)?;
    put_formula(out, b, level)?;
    put(out, b")")
}

/// `MARK[X]:A`.
#[cycle(put_formula)]
fn put_quantified(out: &mut Vec<u8>, mark: &[u8], a: &Formula, level: u32) -> Result<(), NoMemory>
    ensures { OnOk result (out.new.items ≡ out.old.items
        ++ printed.quantified_text mark.now (printed.printed_formula a.now) level) }
{
    let inner = level.checked_add(1).ok_or(NoMemory)?;
    put(out, mark)?;
    put(out, b"[")?;
    put_variable(out, level)?;
    put(out, b"]:")?;
    put_formula(out, a, inner)
}

/// A formula in a place with so many quantifiers around.
#[cycle(put_formula)]
fn put_formula(out: &mut Vec<u8>, f: &Formula, level: u32) -> Result<(), NoMemory>
    ensures { OnOk result (out.new.items ≡ out.old.items ++ printed.printed_formula f.now level) }
{
    match f {
        Formula::True => put(out, b"$true"),
        Formula::False => put(out, b"$false"),
        Formula::Atom(symbol, args) => {
            put_name(out, &symbol.name)?;
            put_arguments(out, args.as_slice(), level)
        }
        Formula::Not(a) => {
            put(out, b"~")?;
            put_formula(out, a.get(), level)
        }
        Formula::And(a, b) => put_binary(out, b" & ", a.get(), b.get(), level),
        Formula::Or(a, b) => put_binary(out, b" | ", a.get(), b.get(), level),
        Formula::Imp(a, b) => put_binary(out, b" => ", a.get(), b.get(), level),
        Formula::Iff(a, b) => put_binary(out, b" <=> ", a.get(), b.get(), level),
        Formula::All(a) => put_quantified(out, b"!", a.get(), level),
        Formula::Ex(a) => put_quantified(out, b"?", a.get(), level),
    }
}

/// The text of a formula in a place with so many quantifiers around: 0 for a formula by itself.
pub fn formula_text(alloc: Global, formula: &Formula, level: u32) -> Result<Vec<u8>, NoMemory>
    ensures { IfOk result (λ text. text.items ≡ printed.printed_formula formula.now level) }
{
    let mut out = Vec::new(alloc);
    put_formula(&mut out, formula, level)?;
    Ok(out)
}

fn item_text(
    alloc: Global,
    name: &Name,
    role: &Name,
    formula: &Formula,
) -> Result<Vec<u8>, NoMemory>
    ensures { IfOk result (λ text. text.items
        ≡ printed.printed_item name.now role.now formula.now) }
{
    let mut out = Vec::new(alloc);
    put(&mut out, b"fof(")?;
    put_item_name(&mut out, name)?;
    put(&mut out, b",")?;
    put_name(&mut out, role)?;
    put(&mut out, b",")?;
    put_formula(&mut out, formula, 0)?;
    put(&mut out, b").\n")?;
    Ok(out)
}

/// `fof(NAME,ROLE,FORMULA).` and a newline, which `read_items` reads back as that item where it is
/// printable. A formula under 2^32 quantifiers wants too much memory.
pub fn print_item(
    alloc: Global,
    name: &Name,
    role: &Name,
    formula: &Formula,
) -> Result<Vec<u8>, NoMemory>
    ensures text { IfOk result (λ text. text.items
        ≡ printed.printed_item name.now role.now formula.now) }
    // A printed item is read back, and on its text nothing else is answered but want of memory.
    ensures reads { IfOk result (λ text. printed.IsPrintable name.now role.now formula.now
        → IsReadAnswer text.items (Ok (printed.printed_as name.now role.now formula.now ∷ []))) }
    ensures only { IfOk result (λ text. printed.IsPrintable name.now role.now formula.now
        → (answer : Result (List Written) Fault) → IsReadAnswer text.items answer
        → (answer ≡ Ok (printed.printed_as name.now role.now formula.now ∷ []))
        ⊎ (answer ≡ Err Memory)) }
{
    let text = item_text(alloc, name, role, formula)?;
    Ok(text)
}
