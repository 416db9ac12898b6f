ghost use Rattle.std.specs.Prelude.{◌≡◌, ◌+◌, ◌≤◌, length};
ghost use Rattle.am_log.specs.Faults.{lines_in as ends_in};
ghost use Rattle.am_check.specs.FirstFault.{row_line as line_of_row};
ghost use Rattle.am_check.specs.Phases.{line_of_group};

/// How many lines end in the bytes.
pub fn lines_in(bytes: &[u8]) -> u32
    requires { length bytes.now ≤ 16777216 }
    ensures value { result ≡ ends_in bytes.now }
    ensures within { result ≤ length bytes.now }
{
    let mut rest = bytes;
    let mut count: u32 = 0;
    while let [byte, behind @ ..] = rest {
        if *byte == b'\n' {
            count += 1;
        }
        rest = behind;
    }
    count
}

/// The first line of the row of this number in a proof part; of number 0 the line that begins it.
#[tactic(auto, using(crate::proofs::Counted::rows_counted))]
pub fn row_line(proof: &[u8], number: usize) -> u32
    requires { length proof.now ≤ 16777216 }
    ensures { result ≡ line_of_row proof.now number }
{
    let mut rest = proof;
    let mut left = number;
    let mut line: u32 = 1;
    while let [byte, behind @ ..] = rest {
        if left == 0 {
            return line;
        }
        if *byte == b'\n' {
            line += 1;
            if !behind.starts_with(b"C+") {
                left -= 1;
            }
        }
        rest = behind;
    }
    line
}

/// The line of a unit part at which the group at this place, from 0, begins: a line with the continuation lines behind
/// it.
#[tactic(auto, using(crate::proofs::Counted::groups_counted))]
pub fn group_line(unit: &[u8], place: usize) -> u32
    requires { length unit.now ≤ 16777216 }
    ensures value { result ≡ line_of_group unit.now place }
    ensures within { result ≤ 1 + length unit.now }
{
    let mut rest = unit;
    let mut left = place;
    let mut line: u32 = 1;
    while let [byte, behind @ ..] = rest {
        if left == 0 {
            return line;
        }
        if *byte == b'\n' {
            line += 1;
            if !behind.starts_with(b"     .") {
                left -= 1;
            }
        } else if behind.is_empty() {
            line += 1;
        }
        rest = behind;
    }
    line
}
