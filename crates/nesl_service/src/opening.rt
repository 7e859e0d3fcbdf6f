//! Checks the first line of a connection byte by byte.
ghost use Rattle.std.specs.Prelude.{◌≡◌};
ghost use Rattle.nesl_service.specs.Opening.{after_name, after_word, is_refused, opening_after};

use nesl_house::roster::MOST_NAME_BYTES;

/// What has arrived of a first line.
#[derive(Clone, Copy, PartialEq, Eq, Debug)]
pub(crate) enum Opening {
    /// The first bytes of `user `: this number of them.
    Word(usize),
    /// `user `, and this number of bytes of a name.
    Name(usize),
    /// A user line and a CR; the LF is missing.
    Return,
    /// The whole line.
    Whole,
    /// Bytes that begin no line with a valid user name.
    Refused,
}

impl Opening {
    /// Nothing has arrived.
    pub(crate) fn new() -> Opening
        ensures { result ≡ Opening.Word 0 }
    {
        Opening::Word(0)
    }

    /// Whether no line with a valid user name begins so.
    pub(crate) fn is_refused(self) -> bool
        ensures { result ≡ is_refused self }
    {
        match self {
            Opening::Refused => true,
            Opening::Word(_) | Opening::Name(_) | Opening::Return | Opening::Whole => false,
        }
    }

    /// Returns the state after another byte.
    pub(crate) fn after(self, byte: u8) -> Opening
        ensures { result ≡ opening_after self byte }
    {
        match self {
            Opening::Whole | Opening::Refused => self,
            _ if byte == b'\n' => Opening::Whole,
            Opening::Word(length) => after_word(length, byte),
            Opening::Name(length) => after_name(length, byte),
            Opening::Return => Opening::Refused,
        }
    }
}

// Returns the state after this number of bytes of `user ` and another byte.
fn after_word(length: usize, byte: u8) -> Opening
    ensures { result ≡ after_word length byte }
{
    let word = b"user ";
    if length >= word.len() || word[length] != byte {
        Opening::Refused
    } else if length + 1 < word.len() {
        Opening::Word(length + 1)
    } else {
        Opening::Name(0)
    }
}

// Returns the state after this number of bytes of a name and another byte.
fn after_name(length: usize, byte: u8) -> Opening
    ensures { result ≡ after_name length byte }
{
    if byte == b'\r' {
        return Opening::Return;
    }
    let is_part = byte.is_ascii_lowercase() || length > 0 && byte.is_ascii_digit();
    if is_part && length < MOST_NAME_BYTES {
        Opening::Name(length + 1)
    } else {
        Opening::Refused
    }
}
