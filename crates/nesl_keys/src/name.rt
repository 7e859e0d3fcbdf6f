//! The names of users.
ghost use Rattle.std.specs.Prelude.{◌≡◌, ◌||◌};
ghost use Rattle.std.specs.List.{list_all};
ghost use Rattle.nesl_keys.specs.Names.{is_digit, is_small_letter, is_user_name};

/// The most bytes of a user name.
const MOST_NAME_BYTES: usize = 16;

/// Whether this is a user name: 1 to 16 bytes, a letter `a` to `z`, then letters and digits.
pub fn is_user_name(name: &[u8]) -> bool
    ensures { result ≡ is_user_name name.now }
{
    let Some(first) = name.first() else {
        return false;
    };
    if !is_letter(*first) {
        return false;
    }
    if name.len() > MOST_NAME_BYTES {
        return false;
    }
    is_spelled(name)
}

// Whether these bytes are letters and digits.
fn is_spelled(name: &[u8]) -> bool
    ensures { result ≡ list_all (λ b. is_small_letter b || is_digit b) name.now }
{
    name.iter().all(|b| is_letter(*b) || is_digit(*b))
}

fn is_letter(b: u8) -> bool
    ensures { result ≡ is_small_letter b }
{
    b'a' <= b && b <= b'z'
}

fn is_digit(b: u8) -> bool
    ensures { result ≡ is_digit b }
{
    b'0' <= b && b <= b'9'
}
