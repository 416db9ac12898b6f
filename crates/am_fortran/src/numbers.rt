ghost use Rattle.std.specs.Prelude.{◌≡◌};
ghost use Rattle.std.specs.List.{list_all};
ghost use Rattle.std.specs.Char.{is_ascii_digit};
ghost use Rattle.am_fortran.specs.Guess.{small_number, integer_of, is_signed_digits};

/// The number below 2^32 that the text spells in digits, else 0.
#[tactic(auto, unfolding(crate::specs::Guess::small_number))]
pub fn number(text: &str) -> u32
    ensures { result ≡ small_number text.now }
{
    if !all_digits(text.as_bytes()) {
        return 0;
    }
    match text.parse::<u32>() {
        Ok(number) => number,
        Err(_) => 0,
    }
}

/// The number from -2^63 to 2^63 - 1 that the text spells in digits, with a minus sign or without,
/// else 0.
#[tactic(auto, unfolding(crate::specs::Guess::integer_of))]
pub fn integer(text: &str) -> i64
    ensures { result ≡ integer_of text.now }
{
    if !is_integer(text.as_bytes()) {
        return 0;
    }
    match text.parse::<i64>() {
        Ok(number) => number,
        Err(_) => 0,
    }
}

fn is_integer(text: &[u8]) -> bool
    ensures { result ≡ is_signed_digits text.now }
{
    match text {
        [b'-', digits @ ..] => all_digits(digits),
        _ => all_digits(text),
    }
}

fn all_digits(text: &[u8]) -> bool
    ensures { result ≡ list_all is_ascii_digit text.now }
{
    text.iter().all(|byte| byte.is_ascii_digit())
}
