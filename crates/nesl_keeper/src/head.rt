//! The first line of a file: the version of its format, and what the last reset left of the session.
ghost use Rattle.std.specs.Prelude.{◌≡◌, ◌==◌, ◌⊎◌, ◌<◌, ◌^◌, ℕ, [], IfErr, IfOk, IfSome, Some, decimal, length};
ghost use Rattle.std.specs.Prelude.{position};
ghost use Rattle.nesl_session_meaning.specs.State.{State};
ghost use Rattle.nesl_session_meaning.specs.Solo.{Replays};
ghost use Rattle.nesl_line.specs.declared.keeper.KeepFault.TheVariants.{Memory, Strange};
ghost use Rattle.nesl_line.specs.declared.keeper.Mismatch.TheVariants.{Head};
ghost use Rattle.nesl_keeper.specs.Files.{head_text, IsNoHead};

use itoa::Buffer;
use nesl_line::keeper::{KeepFault, Mismatch};
use nesl_session::MOST_RECORDED;
use nesl_session::limits::Limits;
use nesl_session::session::Session;
use std::alloc::{AllocError, Global};

const VERSION: &[u8] = b"pazkindu 1 ";

// The numbers of a head: the work that was left at the last reset, and the lines recorded until then.
#[derive(Clone, Copy)]
struct Numbers {
    base: u64,
    cleared: u64,
}

/// The head of the file of a session.
pub(crate) fn head_of(alloc: Global, session: &Session) -> Result<Vec<u8>, AllocError>
    ensures { IfOk result (λ head. head.items ≡ head_text session.now.base session.now.cleared) }
{
    let mut head = Vec::from_slice(alloc, b"pazkindu 1 ")?;
    let mut buffer = Buffer::new();
    head.extend_from_slice(buffer.format(session.base()).as_bytes())?;
    head.push(b' ')?;
    head.extend_from_slice(buffer.format(session.cleared()).as_bytes())?;
    Ok(head)
}

/// The session that a head names, in which nothing is stored yet. The head is written again and compared, so that there
/// is one head for each session.
pub fn open(alloc: Global, limits: Limits, head: &[u8]) -> Result<Session, KeepFault>
    ensures head { IfOk result (λ s. head_text s.base s.cleared ≡ head.now) }
    ensures empty { IfOk result (λ s. s.lines ≡ []) }
    ensures limits { IfOk result (λ s. s.limits ≡ limits) }
    ensures replayed { IfOk result (λ s. (state : State) × Replays s state) }
    ensures refused { IfErr result (λ fault. (fault ≡ Memory) ⊎ ((fault ≡ Strange Head) × IsNoHead limits head.now)) }
{
    let most_work = limits.session_work;
    let Some(numbers) = numbers_in(head) else {
        return Err(KeepFault::Strange(Mismatch::Head));
    };
    if numbers.base > most_work || numbers.cleared > MOST_RECORDED {
        return Err(KeepFault::Strange(Mismatch::Head));
    }
    let session = Session::opened(alloc, limits, numbers.base, numbers.cleared);
    match head_of(alloc, &session) {
        Ok(written) if written.as_slice() == head => Ok(session),
        Ok(_) => Err(KeepFault::Strange(Mismatch::Head)),
        Err(_) => Err(KeepFault::Memory),
    }
}

// The numbers of a head, if it is one of this version.
fn numbers_in(head: &[u8]) -> Option<Numbers>
    ensures { (base cleared : ℕ) → base < 2 ^ 64 → cleared < 2 ^ 64 → head.now ≡ head_text base cleared
        → result ≡ Some (record { base = base; cleared = cleared }) }
{
    let rest = head.strip_prefix(VERSION)?;
    let blank = find_blank(rest)?;
    Some(Numbers {
        base: number_in(&rest[..blank])?,
        cleared: number_in(&rest[blank + 1..])?,
    })
}

// The place of the first blank.
fn find_blank(bytes: &[u8]) -> Option<usize>
    ensures place { result ≡ position (λ b. b == 32) bytes.now }
    ensures within { IfSome result (λ place. place < length bytes.now) }
{
    bytes.iter().position(|b| *b == b' ')
}

fn number_in(digits: &[u8]) -> Option<u64>
    ensures { (number : ℕ) → number < 2 ^ 64 → digits.now ≡ decimal number → result ≡ Some number }
{
    match str::from_utf8(digits) {
        Ok(digits) => digits.parse::<u64>().ok(),
        Err(_) => None,
    }
}
