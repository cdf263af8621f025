//! What is skipped between tokens.
#![tactic(auto, using(crate::proofs::Places::places), unfolding(crate::specs::Skipping::skip))]

ghost use Rattle.std.specs.Prelude.{◌≡◌, true, false, MatchOption, IfSome};
ghost use Rattle.tptp_tokens.specs.Matter.{begins, closes};
ghost use Rattle.tptp_tokens.specs.Skipping.{Between, InLine, InBlock, skip, last_closing, KnowsClosing, IsTail};

/// How long the tail is that begins at the last `*/`, or 0 where there is none.
pub(crate) fn closing_tail(bytes: &[u8]) -> usize
    ensures { result ≡ last_closing bytes.now }
{
    let mut closing = 0;
    let mut rest = bytes;
    while let [b, next @ ..] = rest {
        if *b == b'*' && begins_with_slash(next) {
            closing = rest.len();
        }
        rest = next;
    }
    closing
}

fn begins_with_slash(bytes: &[u8]) -> bool
    ensures { result ≡ begins 47 bytes.now }
{
    match bytes {
        [b'/', ..] => true,
        _ => false,
    }
}

/// What stands behind the end of the line.
fn after_line(bytes: &[u8]) -> &[u8]
    ensures rest { skip (Between true) result.now ≡ skip InLine bytes.now }
    ensures tail { IsTail result.now bytes.now }
{
    let mut rest = bytes;
    while let [b, next @ ..] = rest {
        if *b == b'\n' {
            return next;
        }
        rest = next;
    }
    rest
}

/// What stands behind the end of the comment, where it has one.
fn after_block(bytes: &[u8]) -> Option<&[u8]>
    ensures rest { MatchOption result (closes bytes.now ≡ false)
        (λ r. (closes bytes.now ≡ true) × (skip (Between false) r.now ≡ skip InBlock bytes.now)) }
    ensures tail { IfSome result (λ r. IsTail r.now bytes.now) }
{
    let mut rest = bytes;
    while let [b, next @ ..] = rest {
        if *b == b'*' {
            if let [b'/', after @ ..] = next {
                return Some(after);
            }
        }
        rest = next;
    }
    None
}

/// The same, where the tail that begins at the last `*/` is known, so that none is searched for in vain.
fn after_comment(closing: usize, bytes: &[u8]) -> Option<&[u8]>
    requires { KnowsClosing closing bytes.now }
    ensures rest { MatchOption result (closes bytes.now ≡ false)
        (λ r. (closes bytes.now ≡ true) × (skip (Between false) r.now ≡ skip InBlock bytes.now)) }
    ensures tail { IfSome result (λ r. IsTail r.now bytes.now) }
{
    if closing == 0 {
        None
    } else if bytes.len() < closing {
        None
    } else {
        after_block(bytes)
    }
}

/// The bytes from the next token on, at the start of a line or not.
pub(crate) fn skip_matter(closing: usize, at_start: bool, bytes: &[u8]) -> &[u8]
    requires { KnowsClosing closing bytes.now }
    ensures rest { result.now ≡ skip (Between at_start) bytes.now }
    ensures tail { IsTail result.now bytes.now }
{
    let mut start = at_start;
    let mut rest = bytes;
    while let [b, next @ ..] = rest {
        let b = *b;
        if b == b' ' || b == b'\t' || b == b'\n' || b == b'\r' {
            start = b == b'\n';
            rest = next;
        } else if b == b'%' || (start && b == b'#') {
            start = true;
            rest = after_line(next);
        } else if b == b'/' {
            match next {
                [b'*', inside @ ..] => match after_comment(closing, inside) {
                    Some(after) => {
                        start = false;
                        rest = after;
                    }
                    None => return rest,
                },
                _ => return rest,
            }
        } else {
            return rest;
        }
    }
    rest
}
