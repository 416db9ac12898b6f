ghost use Rattle.std.specs.Prelude.{◌≡◌, ◌<◌, ◌≤◌, ◌+◌, ◌∷◌, length, IfOk};
ghost use Rattle.std.specs.Str.{bytes_eq};
ghost use Rattle.am_log.specs.Cut.{wrapped};
ghost use Rattle.am_log.specs.Groups.{groups, ends_group as group_ends};
ghost use Rattle.am_log.specs.Unwrapped.{first_length, unwrapped as text_unwrapped};

use crate::wrapping::push_wrapped;
use am_term::NoMemory;
use std::alloc::Global;

/// How many bytes the first group has: a line and the lines behind it that begin with `C+`.
#[tactic(auto, unfolding(crate::specs::Unwrapped::first_length), using(crate::proofs::ReadSteps::group_laws))]
fn first_group(bytes: &[u8]) -> usize
    ensures value { result ≡ first_length bytes.now }
    ensures within { result ≤ length bytes.now }
{
    let mut rest = bytes;
    let mut count: usize = 0;
    while let [byte, behind @ ..] = rest {
        count += 1;
        if ends_group(*byte, behind) {
            return count;
        }
        rest = behind;
    }
    count
}

/// The first group, and what stands behind it.
#[tactic(auto, using(crate::proofs::ReadSteps::group_laws))]
pub fn split_group(bytes: &[u8]) -> (&[u8], &[u8])
    requires { 0 < length bytes.now }
    ensures groups { groups bytes.now ≡ result.0.now ∷ groups result.1.now }
    ensures some { 0 < length result.0.now }
    ensures all { length result.0.now + length result.1.now ≡ length bytes.now }
{
    let end = first_group(bytes);
    (&bytes[..end], &bytes[end..])
}

fn ends_group(byte: u8, behind: &[u8]) -> bool
    ensures { result ≡ group_ends byte behind.now }
{
    byte == b'\n' && !behind.starts_with(b"C+")
}

/// What stands behind the first two bytes of each line.
#[tactic(auto, unfolding(crate::specs::Unwrapped::unwrapped))]
pub fn unwrapped(alloc: Global, group: &[u8]) -> Result<Vec<u8>, NoMemory>
    ensures { IfOk result (λ text. text.items ≡ text_unwrapped 2 group.now) }
{
    let mut text = Vec::new(alloc);
    let mut skip: usize = 2;
    let mut rest = group;
    while let [byte, behind @ ..] = rest {
        if skip > 0 {
            skip -= 1;
        } else if *byte == b'\n' {
            skip = 2;
        } else {
            text.push(*byte)?;
        }
        rest = behind;
    }
    Ok(text)
}

/// Whether the group is the lines of the text.
pub fn is_wrapped(alloc: Global, text: &[u8], group: &[u8]) -> Result<bool, NoMemory>
    ensures { IfOk result (λ same. same ≡ bytes_eq (wrapped text.now) group.now) }
{
    let mut lines = Vec::new(alloc);
    push_wrapped(&mut lines, text)?;
    Ok(lines.as_slice() == group)
}
