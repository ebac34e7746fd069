//! The numbers of workers and levels.
ghost use Rattle.std.specs.Prelude.{◌≡◌, ◌<◌, ◌-◌, IfSome, option_map, Some, None, if◌then◌else◌};
ghost use Rattle.std.specs.Char.{is_ascii_digit};
ghost use Rattle.pipe_words.specs.Numbers.{limited, number_of, number_or};

const MOST: u32 = 64;

fn digit(byte: u8) -> Option<u32>
    ensures value { result ≡ (if is_ascii_digit byte then Some (byte - 48) else None) }
    ensures small { IfSome result (λ d. d < 10) }
{
    if byte.is_ascii_digit() {
        Some((byte - b'0') as u32)
    } else {
        None
    }
}

// The number, where it is lawful.
fn within_limits(number: u32) -> Option<u32>
    ensures { result ≡ limited number }
{
    if 1 <= number && number <= MOST {
        Some(number)
    } else {
        None
    }
}

// The number of one or two digits, from 1 to 64.
fn number_of_text(text: &str) -> Option<u32>
    ensures { result ≡ number_of text.now }
{
    match text.as_bytes() {
        [one] => within_limits(digit(*one)?),
        [ten, one] => within_limits(10 * digit(*ten)? + digit(*one)?),
        _ => None,
    }
}

/// The number of an option's text, or the fallback where the option isn't given.
pub fn number_or_else(fallback: u32, text: Option<&str>) -> Option<u32>
    ensures { result ≡ number_or fallback (option_map (λ t. t.now) text.entry) }
{
    match text {
        None => Some(fallback),
        Some(text) => number_of_text(text),
    }
}
