//! Numbers among the words.
ghost use Rattle.std.specs.Prelude.{◌≡◌, ◌&&◌, ◌≤◌, None, Some, if◌then◌else◌, length, nat_le, nat_lt, option_map};
ghost use Rattle.std.specs.Char.{is_ascii_digit};
ghost use Rattle.std.specs.List.{list_all};
ghost use Rattle.words.specs.Reading.{is_number, number_or, number_to};

fn has_digits(bytes: &[u8]) -> bool
    ensures { result ≡ list_all is_ascii_digit bytes.now }
{
    bytes.iter().all(|byte| byte.is_ascii_digit())
}

fn has_length(bytes: &[u8]) -> bool
    ensures { result ≡ (nat_lt 0 (length bytes.now) && nat_le (length bytes.now) 8) }
{
    0 < bytes.len() && bytes.len() <= 8
}

/// One to eight decimal digits.
fn is_number(text: &str) -> bool
    ensures { result ≡ is_number text.now }
{
    has_length(text.as_bytes()) && has_digits(text.as_bytes())
}

fn in_range(most: u32, number: u32) -> Option<u32>
    ensures { result ≡ (if nat_le 1 number && nat_le number most then Some number else None) }
{
    if 1 <= number && number <= most {
        Some(number)
    } else {
        None
    }
}

/// The number from 1 to `most` that a text writes.
pub fn number_to(most: u32, text: &str) -> Option<u32>
    ensures { result ≡ number_to most text.now }
{
    if !is_number(text) {
        return None;
    }
    match text.parse::<u32>() {
        Ok(number) => in_range(most, number),
        Err(_) => None,
    }
}

/// The number that an option gives, or its default.
pub fn number_or(default: u32, most: u32, text: Option<&str>) -> Option<u32>
    ensures { result ≡ number_or default most (option_map (λ t. t.now) text.entry) }
{
    match text {
        None => Some(default),
        Some(text) => number_to(most, text),
    }
}
