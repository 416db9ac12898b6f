ghost use Rattle.std.specs.Prelude.{◌≡◌, ◌+◌, IfOk};

use am_term::NoMemory;

/// The number that is k greater. What is too great for a variable's number wants more memory than there is.
pub fn raised(n: u32, k: u32) -> Result<u32, NoMemory>
    ensures { IfOk result (λ m. m ≡ n + k) }
{
    n.checked_add(k).ok_or(NoMemory)
}

/// The place or count as a variable's number, likewise.
pub fn numbered(place: usize) -> Result<u32, NoMemory>
    ensures { IfOk result (λ n. n ≡ place) }
{
    match u32::try_from(place) {
        Ok(n) => Ok(n),
        Err(_) => Err(NoMemory),
    }
}
