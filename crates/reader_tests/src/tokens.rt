//! Texts and their tokens.
use dk_syntax::{Name, NoMemory};
use std::alloc::Global;
use std::test::Fail;
use tptp_tokens::{Token, Unread, is_too_deep, token_of};

fn put(out: &mut Vec<u8>, text: &str) -> Result<(), NoMemory> {
    for b in text.as_bytes() {
        out.push(*b)?;
    }
    Ok(())
}

fn put_name(out: &mut Vec<u8>, kind: &str, name: &Name) -> Result<(), NoMemory> {
    put(out, kind)?;
    for b in name.as_bytes() {
        out.push(*b)?;
    }
    Ok(())
}

fn put_mark(out: &mut Vec<u8>, token: &Token) -> Result<(), NoMemory> {
    let text = match token {
        Token::OpenRound => "(",
        Token::CloseRound => ")",
        Token::OpenSquare => "[",
        Token::CloseSquare => "]",
        Token::Comma => ",",
        Token::Dot => ".",
        Token::Colon => ":",
        Token::Not => "~",
        Token::And => "&",
        Token::Or => "|",
        Token::Implies => "=>",
        Token::ImpliedBy => "<=",
        Token::Iff => "<=>",
        Token::Differs => "<~>",
        Token::Nor => "~|",
        Token::Nand => "~&",
        Token::ForAll => "!",
        Token::Exists => "?",
        Token::Equal => "=",
        Token::Unequal => "!=",
        _ => "",
    };
    put(out, text)
}

fn put_token(out: &mut Vec<u8>, token: &Token) -> Result<(), NoMemory> {
    match token {
        Token::Lower(name) => put_name(out, "lower:", name),
        Token::Upper(name) => put_name(out, "upper:", name),
        Token::Dollar(name) => put_name(out, "dollar:", name),
        Token::Quoted(name) => put_name(out, "quoted:", name),
        Token::Distinct(name) => put_name(out, "distinct:", name),
        Token::Number(name) => put_name(out, "number:", name),
        Token::Other(b) => {
            put(out, "other:")?;
            out.push(*b)?;
            Ok(())
        }
        mark => put_mark(out, mark),
    }
}

// the tokens, with a space behind each, and then what is left
fn shown(alloc: Global, text: &str) -> Result<Vec<u8>, NoMemory> {
    let unread = Unread::new(text.as_bytes()).behind_matter(true);
    let (tokens, rest) = unread.chunk(alloc)?;
    let mut out = Vec::new(alloc);
    for token in tokens.as_slice() {
        put_token(&mut out, token)?;
        out.push(b' ')?;
    }
    if let Some(_) = rest.behind_dot() {
        put(&mut out, "stop")?;
    }
    Ok(out)
}

#[test]
fn texts_have_their_tokens(rt: HostRuntime) -> Result<(), Fail> {
    for (text, expected) in [
        ("p1_B(X)&q.", "lower:p1_B ( upper:X ) & lower:q stop"),
        (
            "1 -2 +3 4/5 6.7",
            "number:1 number:-2 number:+3 number:4/5 number:6.7 ",
        ),
        ("8.9E+1 1e5 2.e 3", "number:8.9E+1 number:1e5 number:2 stop"),
        (
            "1/x 1e- 12.",
            "number:1 other:/ lower:x number:1 lower:e other:- number:12 stop",
        ),
        (
            "$true $$f $A $",
            "dollar:$true dollar:$$f other:$ upper:A other:$ ",
        ),
        ("'a\\'b' 'x y'", "quoted:a'b quoted:x y "),
        (
            "'' 'a\\b'",
            "other:' quoted:  lower:a other:\\ lower:b other:' ",
        ),
        ("\"\" \"a\\\"b\" \"", "distinct: distinct:a\"b other:\" "),
        ("'\\'a", "other:' other:\\ other:' lower:a "),
        ("'\\\\'", "quoted:\\ "),
        ("'\\'\n'a'", "other:' other:\\ other:' quoted:a "),
        ("'\\'\"a\"", "other:' other:\\ other:' distinct:a "),
        ("'\\a'b'", "other:' other:\\ lower:a quoted:b "),
        ("= => <= <=> <~> !", "= => <= <=> <~> ! "),
        ("~|~& ~~? != <~ <==", "~| ~& ~ ~ ? != other:< ~ <= = "),
        (
            "_ @ [*]:+,/\\#",
            "other:_ other:@ [ other:* ] : other:+ , other:/ other:\\ other:# ",
        ),
        ("é", ""),
    ] {
        let found = shown(rt.alloc(), text)?;
        assert_eq!(rt; found.as_slice(), expected.as_bytes(), "at {text}");
    }
    Ok(())
}

#[test]
fn matter_is_skipped(rt: HostRuntime) -> Result<(), Fail> {
    for (text, expected) in [
        ("# a\n% b.\r\n\tc % d", "lower:c "),
        ("a # b\n# c\n#", "lower:a other:# lower:b "),
        ("a%\n/* b */# c", "lower:a other:# lower:c "),
        ("/*/ a */ b /**/.", "lower:b stop"),
        ("/* a * / **/ b /* c", "lower:b other:/ other:* lower:c "),
        ("/* \n */", ""),
    ] {
        let found = shown(rt.alloc(), text)?;
        assert_eq!(rt; found.as_slice(), expected.as_bytes(), "at {text}");
    }
    Ok(())
}

// so many quotes with a `\` behind each
fn slashed(alloc: Global, quote: u8, count: usize) -> Result<Vec<u8>, NoMemory> {
    let mut text = Vec::new(alloc);
    for _ in 0..count {
        text.push(quote)?;
        text.push(b'\\')?;
    }
    Ok(text)
}

// each quote but the first is escaped for the one before it, so that a search from any of them goes on to the end
#[test]
fn unclosed_quotes_are_read_at_once(rt: HostRuntime) -> Result<(), Fail> {
    for quote in [b'\'', b'"'] {
        let text = slashed(rt.alloc(), quote, 200_000)?;
        let (tokens, rest) = Unread::new(text.as_slice()).chunk(rt.alloc())?;
        assert_eq!(rt; tokens.len(), 400_000);
        assert!(rt; rest.is_empty());
    }
    Ok(())
}

// one closing bracket, opening ones, and then a closing and an opening one
fn brackets(alloc: Global, opening: u32) -> Result<Vec<Token>, NoMemory> {
    let mut tokens = Vec::new(alloc);
    tokens.push(Token::CloseSquare)?;
    for _ in 0..opening {
        tokens.push(Token::OpenRound)?;
    }
    tokens.push(Token::CloseSquare)?;
    tokens.push(Token::OpenSquare)?;
    Ok(tokens)
}

#[test]
fn a_thousand_brackets_may_be_unclosed(rt: HostRuntime) -> Result<(), Fail> {
    for (opening, deep) in [(0, false), (1000, false), (1001, true)] {
        let tokens = brackets(rt.alloc(), opening)?;
        assert_eq!(rt; is_too_deep(tokens.as_slice()), deep, "at {opening}");
    }
    Ok(())
}

#[test]
fn some_bytes_begin_no_token(rt: HostRuntime) -> Result<(), Fail> {
    for (b, begins) in [
        (b' ', false),
        (0x7f, false),
        (0x80, false),
        (7, false),
        (b'!', true),
    ] {
        let bytes = [b];
        let found = token_of(rt.alloc(), &bytes)?;
        assert_eq!(rt; found.is_some(), begins, "at {b}");
    }
    let unread = Unread::new(b"ab");
    assert_eq!(rt; unread.len(), 2);
    assert!(rt; !unread.is_empty());
    Ok(())
}
