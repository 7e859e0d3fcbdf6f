//! A law of conversations at a prompt.
ghost use Rattle.nesl_prompt.specs.Laws.{PromptsAreSessions};

/// Holds where only replies are written and no line is one of the prompt's own. Then what was written is the session's
/// replies to some lines, in order.
pub fn is_the_sessions()
    ensures { PromptsAreSessions }
{}
