ghost use Rattle.std.specs.Prelude.{◌≡◌};
ghost use Rattle.am_text.specs.Atoms.{has_digits, is_number, node_spelled};

use crate::form::FormNode;
use am_term::Name;

#[tactic(auto, using(crate::proofs::Numbers::digit_laws))]
fn has_digits(bytes: &[u8]) -> bool
    ensures { result ≡ has_digits bytes.now }
{
    if bytes.is_empty() {
        return false;
    }
    for byte in bytes {
        if !byte.is_ascii_digit() {
            return false;
        }
    }
    true
}

fn is_number(bytes: &[u8]) -> bool
    ensures { result ≡ is_number bytes.now }
{
    match bytes {
        [b'-', rest @ ..] => has_digits(rest),
        _ => has_digits(bytes),
    }
}

/// The form that a word is: a number or a word; None for a number that doesn't fit 64 bits.
#[tactic(auto, using(crate::proofs::Numbers::atom_laws))]
pub fn atom(word: Name) -> Option<FormNode>
    ensures { result ≡ node_spelled word }
{
    if !is_number(word.as_str().as_bytes()) {
        return Some(FormNode::Word(word));
    }
    match word.as_str().parse::<i64>() {
        Ok(number) => Some(FormNode::Number(number)),
        Err(_) => None,
    }
}
