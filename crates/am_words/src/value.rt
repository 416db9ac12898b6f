ghost use Rattle.std.specs.List.{list_all};
ghost use Rattle.std.specs.Prelude.{◌≡◌, IfOk, IfErr, option_map};
ghost use Rattle.am_term.specs.Names.{is_digit as digit};
ghost use Rattle.am_words.specs.Numbers.{number_between, short_number, number_or, choice};

use crate::fault::WordsFault;
use am_term::Name;
use std::alloc::Global;

/// The name of this text.
pub fn name(alloc: Global, text: &str) -> Result<Name, WordsFault>
    ensures ok { IfOk result (λ n. n ≡ text.now) }
    ensures fault { IfErr result (λ e. e ≡ WordsFault.NoMemory) }
{
    match Name::new(alloc, text) {
        Ok(name) => Ok(name),
        Err(_) => Err(WordsFault::NoMemory),
    }
}

/// Whether the byte is a decimal digit.
fn is_digit(byte: u8) -> bool
    ensures { result ≡ digit byte }
{
    byte >= b'0' && byte <= b'9'
}

/// Whether each byte is a decimal digit.
fn all_digits(text: &str) -> bool
    ensures { result ≡ list_all digit text.now }
{
    text.as_bytes().iter().all(|b| is_digit(*b))
}

/// The number that one to nine digits are.
pub fn nine_digits(text: &str) -> Option<u32>
    ensures { result ≡ short_number text.now }
{
    if text.len() < 1 || text.len() > 9 || !all_digits(text) {
        return None;
    }
    text.parse::<u32>().ok()
}

/// The number of one to nine digits that a text is, if it is in the range.
pub fn read_number(text: &str, least: u32, most: u32) -> Option<u32>
    ensures { result ≡ number_between least most text.now }
{
    match nine_digits(text) {
        Some(number) if least <= number && number <= most => Some(number),
        _ => None,
    }
}

/// The number of an option, or its default.
pub fn number_or_default(text: Option<&str>, least: u32, most: u32, default: u32) -> Option<u32>
    ensures { result ≡ number_or least most default (option_map (λ t. t.now) text.entry) }
{
    match text {
        None => Some(default),
        Some(text) => read_number(text, least, most),
    }
}

/// The place of the chooser of this name, from 0, or the default.
pub fn read_choice(text: Option<&str>) -> Option<u8>
    ensures { result ≡ choice (option_map (λ t. t.now) text.entry) }
{
    match text {
        None => Some(0),
        Some("weight") => Some(0),
        Some("age") => Some(1),
        Some("mixed") => Some(2),
        Some(_) => None,
    }
}
