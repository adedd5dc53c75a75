ghost use Rattle.std.specs.Prelude.{◌≡◌};
ghost use Rattle.vl_token.specs.Lexical.{is_blank, is_start, is_part, is_mark};

/// White space: space, tab, LF, CR.
pub fn is_blank(byte: u8) -> bool
    ensures { result ≡ is_blank byte }
{
    byte == b' ' || byte == b'\t' || byte == b'\n' || byte == b'\r'
}

/// What a word begins with.
pub fn is_start(byte: u8) -> bool
    ensures { result ≡ is_start byte }
{
    byte.is_ascii_alphabetic() || byte == b'_'
}

/// What a word goes on with.
pub fn is_part(byte: u8) -> bool
    ensures { result ≡ is_part byte }
{
    byte.is_ascii_alphabetic() || byte.is_ascii_digit() || byte == b'_' || byte == b'$'
}

/// A byte that is a token by itself, wherever it stands.
pub fn is_mark(byte: u8) -> bool
    ensures { result ≡ is_mark byte }
{
    byte == b'('
        || byte == b')'
        || byte == b'*'
        || byte == b'+'
        || byte == b','
        || byte == b'.'
        || byte == b';'
        || byte == b'='
}
