ghost use Rattle.std.specs.Prelude.{◌≡◌};
ghost use Rattle.am_text.specs.Bytes.{is_blank, is_word_byte, is_text_byte};

/// Whether the byte is a blank: tab, line feed, carriage return or space.
pub fn is_blank(byte: u8) -> bool
    ensures { result ≡ is_blank byte }
{
    byte == b'\t' || byte == b'\n' || byte == b'\r' || byte == b' '
}

/// Whether the byte may stand in a word: a letter, a digit or one of `-=<>?`.
pub fn is_word_byte(byte: u8) -> bool
    ensures { result ≡ is_word_byte byte }
{
    byte.is_ascii_alphanumeric()
        || byte == b'-'
        || byte == b'='
        || byte == b'<'
        || byte == b'>'
        || byte == b'?'
}

/// Whether the byte may stand in a text: 32 to 126 but neither kind of quotation mark.
pub fn is_text_byte(byte: u8) -> bool
    ensures { result ≡ is_text_byte byte }
{
    32 <= byte && byte <= 126 && byte != b'"' && byte != b'\''
}
