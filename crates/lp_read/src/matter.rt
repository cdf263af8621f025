//! What is skipped between tokens.
#![tactic(auto, unfolding(crate::specs::Scan::skip))]

ghost use Rattle.std.specs.Prelude.{◌≡◌, ◌≤◌, true, false, length};
ghost use Rattle.lp_read.specs.Matter.{begins_with_slash};
ghost use Rattle.lp_read.specs.Scan.{skip};

fn begins_with_slash(bytes: &[u8]) -> bool
    ensures { result ≡ begins_with_slash bytes.now }
{
    match bytes {
        [b'/', ..] => true,
        _ => false,
    }
}

/// What stands behind the end of the line.
fn after_line(bytes: &[u8]) -> &[u8]
    ensures rest { skip false result.now ≡ skip true bytes.now }
    ensures less { length result.now ≤ length bytes.now }
{
    let mut rest = bytes;
    while let [b, next @ ..] = rest {
        if *b == b'\n' {
            return next;
        }
        rest = next;
    }
    rest
}

/// The bytes from the next token on.
pub(crate) fn skip_matter(bytes: &[u8]) -> &[u8]
    ensures { result.now ≡ skip false bytes.now }
{
    let mut rest = bytes;
    while let [b, next @ ..] = rest {
        let b = *b;
        if b == b' ' || b == b'\t' || b == b'\n' || b == b'\r' {
            rest = next;
        } else if b == b'/' && begins_with_slash(next) {
            rest = after_line(next);
        } else {
            return rest;
        }
    }
    rest
}
