//! What holds of texts and conversations.
ghost use Rattle.std.specs.Prelude.{◌≡◌, ℕ, ◌+◌, ◌^◌, ◌<◌, ◌≤◌, List, Option};
ghost use Rattle.nesl_house.specs.Script.{Event, replies_of};
ghost use Rattle.nesl_house.specs.Runs.{Account, roster_of};
ghost use Rattle.nesl_line.specs.Lines.{AllLines, WholeLines};
ghost use Rattle.nesl_line.specs.Conversation.{Conversation};
ghost use Rattle.nesl_line.specs.Laws.{OneAnswer};
ghost use Rattle.nesl_line.specs.Tally.{risen_by};

use nesl_house::laws::own_lines_decide;

/// A text has one list of lines, read to its end or up to a fault.
pub fn one_list_of_lines()
    ensures all { (text : List ℕ) (lines others : List (List ℕ)) → AllLines text lines → AllLines text others
        → lines ≡ others }
    ensures whole { (text : List ℕ) (lines others : List (List ℕ)) → WholeLines text lines → WholeLines text others
        → lines ≡ others }
{}

/// A conversation is determined by its lines, the roster, the user selected at first, and the sessions' replies. These
/// determine the texts, what is said to sessions, and the user selected in the end.
pub fn one_conversation()
    ensures { (house other : List Account) (who last final : Option (List ℕ)) (lines texts others : List (List ℕ))
        (events said : List Event)
        → roster_of house ≡ roster_of other → Conversation house who lines texts events last
        → Conversation other who lines others said final
        → replies_of events ≡ replies_of said → (texts ≡ others) × (events ≡ said) × (last ≡ final) }
{}

/// A text determines the replies of a house to it, and each user's session afterwards, where memory doesn't run out.
pub fn one_answer()
    ensures { OneAnswer }
{
    own_lines_decide();
}

/// A count with k more is at least what it was, and at most k more. Below 2^64 it is exactly k more.
pub fn counts_rise()
    ensures least { (n k : ℕ) → n ≤ risen_by k n }
    ensures most { (n k : ℕ) → risen_by k n ≤ n + k }
    ensures exact { (n k : ℕ) → n + k < 2 ^ 64 → risen_by k n ≡ n + k }
{}
