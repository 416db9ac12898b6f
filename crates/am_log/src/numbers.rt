ghost use Rattle.std.specs.Prelude.{◌≡◌};
ghost use Rattle.std.specs.List.{list_all};
ghost use Rattle.std.specs.Char.{is_ascii_digit};
ghost use Rattle.am_log.specs.Guess.{number_in_word, small_value};

/// The number below 2^32 that the text spells in digits, else 0.
#[tactic(auto, unfolding(crate::specs::Guess::number_in_word))]
pub fn parsed(text: &str) -> u32
    ensures { result ≡ number_in_word text.now }
{
    if !all_digits(text.as_bytes()) {
        return 0;
    }
    match text.parse::<u32>() {
        Ok(number) => number,
        Err(_) => 0,
    }
}

/// The number where it is from 0 to 2^32 - 1, else 0.
pub fn small(number: i64) -> u32
    ensures { result ≡ small_value number }
{
    match u32::try_from(number) {
        Ok(number) => number,
        Err(_) => 0,
    }
}

fn all_digits(text: &[u8]) -> bool
    ensures { result ≡ list_all is_ascii_digit text.now }
{
    for byte in text {
        if !byte.is_ascii_digit() {
            return false;
        }
    }
    true
}
