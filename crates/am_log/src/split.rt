ghost use Rattle.std.specs.Prelude.{◌≡◌, ◌≤◌, length, take, drop, true};
ghost use Rattle.am_log.specs.Split.{IsSplit, proof_bytes};

/// How many bytes the proof part of a text has: its longest prefix of lines that begin with `C`. The
/// rest is its unit part.
#[tactic(auto, using(crate::proofs::Parts::split_laws))]
pub fn proof_length(text: &[u8]) -> usize
    ensures within { result ≤ length text.now }
    ensures split { IsSplit text.now (take result text.now) (drop result text.now) }
{
    first_without(text)
}

/// Where the first line stands that doesn't begin with `C`, or the end.
#[tactic(auto, unfolding(crate::specs::Split::proof_bytes))]
fn first_without(text: &[u8]) -> usize
    ensures { result ≡ proof_bytes true text.now }
{
    let mut rest = text;
    let mut count: usize = 0;
    let mut starts = true;
    while let [byte, behind @ ..] = rest {
        if starts && *byte != b'C' {
            return count;
        }
        starts = *byte == b'\n';
        count += 1;
        rest = behind;
    }
    count
}
