ghost use Rattle.std.specs.Prelude.{◌≡◌, ◌<◌, length, true};
ghost use Rattle.am_fortran.specs.Lines.{lines_of, goes_on as is_going_on};
ghost use Rattle.am_fortran.specs.Drafts.{is_ended, IsGroupFront, IsLineFront};

/// How many bytes and how many lines the first group of the bytes has: a line and the continuation
/// lines behind it.
pub fn first_group(bytes: &[u8]) -> (usize, usize)
    requires { 0 < length bytes.now }
    ensures { IsGroupFront bytes.now result.0 result.1 }
{
    let mut end = first_line(bytes);
    let mut count = 1;
    while goes_on(&bytes[end..]) {
        end += first_line(&bytes[end..]);
        count += 1;
    }
    (end, count)
}

/// Whether the last byte ends a line.
#[tactic(auto, using(crate::proofs::Grouping::last_laws))]
pub fn ended(bytes: &[u8]) -> bool
    ensures { result ≡ is_ended bytes.now }
{
    match bytes {
        [.., last] => *last == b'\n',
        [] => true,
    }
}

fn first_line(bytes: &[u8]) -> usize
    requires { 0 < length bytes.now }
    ensures { IsLineFront bytes.now result }
{
    for (i, byte) in bytes.iter().enumerate() {
        if *byte == b'\n' {
            return i + 1;
        }
    }
    bytes.len()
}

#[tactic(auto, using(crate::proofs::Grouping::first_laws))]
fn goes_on(bytes: &[u8]) -> bool
    ensures { result ≡ is_going_on (lines_of bytes.now) }
{
    bytes.starts_with(b"     .")
}
