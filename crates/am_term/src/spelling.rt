ghost use Rattle.std.specs.Prelude.{◌≡◌};
ghost use Rattle.std.specs.List.{list_all};
ghost use Rattle.std.specs.Str.{bytes_eq};
ghost use Rattle.am_term.specs.Names.{is_name as is_spelled_name, is_fortran_name as is_spelled_fortran, is_local_name as is_spelled_local, is_lower, is_upper, is_digit, is_name_byte, is_fortran_byte, is_reserved};

/// Whether the bytes are a name of a theory or a diagram: a lower-case letter and then lower-case
/// letters, digits and hyphens, at most 31 bytes, and none of `all`, `exists`, `and`, `or`, `not`.
/// This project's own rule.
#[tactic(auto, unfolding(crate::specs::Names::is_name))]
pub fn is_name(text: &[u8]) -> bool
    ensures { result ≡ is_spelled_name text.now }
{
    let [first, rest @ ..] = text else {
        return false;
    };
    lower(*first) && all_name_bytes(rest) && rest.len() <= 30 && !reserved(text)
}

/// Whether the bytes are a FORTRAN name: one to six upper-case letters and digits that begin with a
/// letter, as in ANSI X3.9-1978.
#[tactic(auto, unfolding(crate::specs::Names::is_fortran_name))]
pub fn is_fortran_name(text: &[u8]) -> bool
    ensures { result ≡ is_spelled_fortran text.now }
{
    let [first, rest @ ..] = text else {
        return false;
    };
    upper(*first) && all_fortran_bytes(rest) && rest.len() <= 5
}

/// Whether the bytes are `T` and five digits, the spelling of a unit's own locals. This project's own
/// rule.
#[tactic(auto, unfolding(crate::specs::Names::is_local_name))]
pub fn is_local_name(text: &[u8]) -> bool
    ensures { result ≡ is_spelled_local text.now }
{
    let [first, rest @ ..] = text else {
        return false;
    };
    *first == b'T' && all_digits(rest) && rest.len() == 5
}

#[tactic(auto, using(crate::proofs::Bytes::byte_laws))]
fn all_name_bytes(bytes: &[u8]) -> bool
    ensures { result ≡ list_all is_name_byte bytes.now }
{
    for byte in bytes {
        if !name_byte(*byte) {
            return false;
        }
    }
    true
}

#[tactic(auto, using(crate::proofs::Bytes::byte_laws))]
fn all_fortran_bytes(bytes: &[u8]) -> bool
    ensures { result ≡ list_all is_fortran_byte bytes.now }
{
    for byte in bytes {
        if !fortran_byte(*byte) {
            return false;
        }
    }
    true
}

#[tactic(auto, using(crate::proofs::Bytes::byte_laws))]
fn all_digits(bytes: &[u8]) -> bool
    ensures { result ≡ list_all is_digit bytes.now }
{
    for byte in bytes {
        if !digit(*byte) {
            return false;
        }
    }
    true
}

fn name_byte(byte: u8) -> bool
    ensures { result ≡ is_name_byte byte }
{
    lower(byte) || digit(byte) || byte == b'-'
}

fn fortran_byte(byte: u8) -> bool
    ensures { result ≡ is_fortran_byte byte }
{
    upper(byte) || digit(byte)
}

fn lower(byte: u8) -> bool
    ensures { result ≡ is_lower byte }
{
    b'a' <= byte && byte <= b'z'
}

fn upper(byte: u8) -> bool
    ensures { result ≡ is_upper byte }
{
    b'A' <= byte && byte <= b'Z'
}

fn digit(byte: u8) -> bool
    ensures { result ≡ is_digit byte }
{
    b'0' <= byte && byte <= b'9'
}

fn reserved(text: &[u8]) -> bool
    ensures { result ≡ is_reserved text.now }
{
    is_word(text, b"all")
        || is_word(text, b"exists")
        || is_word(text, b"and")
        || is_word(text, b"or")
        || is_word(text, b"not")
}

fn is_word(text: &[u8], word: &[u8]) -> bool
    ensures { result ≡ bytes_eq text.now word.now }
{
    text == word
}
