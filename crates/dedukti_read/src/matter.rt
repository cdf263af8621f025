//! What is skipped between tokens.
#![tactic(auto, unfolding(crate::specs::Scan::skip_from))]

ghost use Rattle.std.specs.Prelude.{◌≡◌, ◌≤◌, true, false, length, IfNone, IfSome};
ghost use Rattle.dedukti_read.specs.Matter.{has_end, is_comment, is_end};
ghost use Rattle.dedukti_read.specs.Scan.{Inside, Opened, Outside, skip, skip_from};

fn is_end(b: u8, bytes: &[u8]) -> bool
    ensures { result ≡ is_end b bytes.now }
{
    match bytes {
        [b')', ..] => b == b';',
        _ => false,
    }
}

/// What stands behind the comment, where it ends.
fn behind_end(bytes: &[u8]) -> Option<&[u8]>
    ensures none { IfNone result (has_end bytes.now ≡ false) }
    ensures ends { IfSome result (λ rest. has_end bytes.now ≡ true) }
    ensures rest { IfSome result (λ rest. skip rest.now ≡ skip_from Inside bytes.now) }
    ensures less { IfSome result (λ rest. length rest.now ≤ length bytes.now) }
{
    let mut rest = bytes;
    while let [b, next @ ..] = rest {
        if is_end(*b, next) {
            return next.get(1..);
        }
        rest = next;
    }
    None
}

/// What stands behind the comment whose bracket stands before the bytes, if it is one.
fn behind_comment(bytes: &[u8]) -> Option<&[u8]>
    ensures none { IfNone result (is_comment bytes.now ≡ false) }
    ensures is { IfSome result (λ rest. is_comment bytes.now ≡ true) }
    ensures rest { IfSome result (λ rest. skip rest.now ≡ skip_from Opened bytes.now) }
    ensures less { IfSome result (λ rest. length rest.now ≤ length bytes.now) }
{
    match bytes {
        [b';', inner @ ..] => behind_end(inner),
        _ => None,
    }
}

/// The bytes from the next token on.
pub(crate) fn skip_matter(bytes: &[u8]) -> &[u8]
    ensures { result.now ≡ skip bytes.now }
{
    let mut rest = bytes;
    while let [b, next @ ..] = rest {
        let b = *b;
        if b == b' ' || b == b'\t' || b == b'\n' || b == b'\r' {
            rest = next;
        } else if b == b'(' {
            match behind_comment(next) {
                None => return rest,
                Some(behind) => rest = behind,
            }
        } else {
            return rest;
        }
    }
    rest
}
