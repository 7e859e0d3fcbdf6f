//! What a byte can be to the reading of a form.
ghost use Rattle.std.specs.Prelude.{◌≡◌};
ghost use Rattle.nesl_lex.specs.Lexemes.{is_capital, is_letter, small_letter};
ghost use Rattle.nesl_forms.specs.Bytes.{kind_of};

/// What a byte is to a form that is read.
#[derive(Clone, Copy)]
pub enum ByteKind {
    /// An LF.
    LineEnd,
    /// A space, a tab or a CR.
    Blank,
    Percent,
    Quote,
    Backquote,
    /// `(` or `[`
    OpenBracket,
    OpenBrace,
    /// `)`, `]` or `}`
    Close,
    Semicolon,
    Colon,
    Backslash,
    /// A letter, as a small one.
    Letter(u8),
    /// What a name may have besides letters: a digit or `_`.
    Digit,
    Other,
}

fn is_capital(byte: u8) -> bool
    ensures { result ≡ is_capital byte }
{
    byte >= b'A' && byte <= b'Z'
}

fn is_letter(byte: u8) -> bool
    ensures { result ≡ is_letter byte }
{
    is_capital(byte) || (byte >= b'a' && byte <= b'z')
}

fn small_letter(byte: u8) -> u8
    ensures { result ≡ small_letter byte }
{
    if is_capital(byte) { byte + 32 } else { byte }
}

/// Returns what a byte is.
pub fn kind_of(byte: u8) -> ByteKind
    ensures { result ≡ kind_of byte }
{
    if is_letter(byte) {
        return ByteKind::Letter(small_letter(byte));
    }
    match byte {
        b'\n' => ByteKind::LineEnd,
        b' ' | b'\t' | b'\r' => ByteKind::Blank,
        b'%' => ByteKind::Percent,
        b'"' => ByteKind::Quote,
        b'`' => ByteKind::Backquote,
        b'(' | b'[' => ByteKind::OpenBracket,
        b'{' => ByteKind::OpenBrace,
        b')' | b']' | b'}' => ByteKind::Close,
        b';' => ByteKind::Semicolon,
        b':' => ByteKind::Colon,
        b'\\' => ByteKind::Backslash,
        b'0'..=b'9' | b'_' => ByteKind::Digit,
        _ => ByteKind::Other,
    }
}
