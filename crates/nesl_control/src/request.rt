//! The lines of an operator.
ghost use Rattle.std.specs.Prelude.{◌≡◌, IfSome};
ghost use Rattle.nesl_control.specs.Requests.{line_of};

/// What a line of an operator asks for.
#[derive(Clone, Copy)]
pub enum Request<'a> {
    /// A row for each user.
    Seats,
    /// How the service is doing.
    Check,
    /// To open the file of the log anew.
    Reopen,
    /// To read the file of keys again.
    Keys,
    /// To end the connections of a user.
    End(&'a [u8]),
    /// To end the session of a user, and to begin another one.
    Renew(&'a [u8]),
    /// To end the service once all users have left.
    Stop,
    /// The same, but no later than after these seconds, in digits.
    StopWithin(&'a [u8]),
}

/// The most seconds until a service stops: a day.
pub const MOST_SECONDS: u64 = 86_400;

/// The most digits of such a number.
const MOST_DIGITS: usize = 5;

/// Returns what a line asks for, without its line end.
pub fn parse(line: &[u8]) -> Option<Request<'_>>
    ensures { IfSome result (λ request. line_of request ≡ line.now) }
{
    match line {
        b"seats" => Some(Request::Seats),
        b"check" => Some(Request::Check),
        b"reopen" => Some(Request::Reopen),
        b"keys" => Some(Request::Keys),
        b"stop" => Some(Request::Stop),
        _ => parse_with_word(line),
    }
}

// Returns what a line asks for that has a word of its own after the first one.
fn parse_with_word(line: &[u8]) -> Option<Request<'_>>
    ensures { IfSome result (λ request. line_of request ≡ line.now) }
{
    if let Some(user) = line.strip_prefix(b"end ".as_slice()) {
        return Some(Request::End(user));
    }
    if let Some(user) = line.strip_prefix(b"renew ".as_slice()) {
        return Some(Request::Renew(user));
    }
    let seconds = line.strip_prefix(b"stop ".as_slice())?;
    Some(Request::StopWithin(seconds))
}

/// Returns the number that these digits spell: at most `MOST_SECONDS`.
pub fn seconds_in(digits: &[u8]) -> Option<u64> {
    if digits.is_empty() || digits.len() > MOST_DIGITS {
        return None;
    }
    let mut seconds = 0u64;
    for digit in digits {
        if !digit.is_ascii_digit() {
            return None;
        }
        let more = u64::from(digit.saturating_sub(b'0'));
        seconds = seconds.saturating_mul(10).saturating_add(more);
    }
    if seconds <= MOST_SECONDS {
        Some(seconds)
    } else {
        None
    }
}
