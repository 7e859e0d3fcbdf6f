//! The look of a conversation.
ghost use Rattle.std.specs.Prelude.{◌≡◌, false};
ghost use Rattle.nesl_prompt.specs.Points.{is_plain};

/// What is written besides the replies.
#[derive(Clone, Copy, PartialEq, Eq, Debug)]
pub struct Style {
    /// Whether a greeting, and a prompt before each line, are written.
    pub prompts: bool,
    /// Whether a hint is written below each fault.
    pub hints: bool,
}

/// Only the replies are written.
pub const PLAIN: Style = Style {
    prompts: false,
    hints: false,
};

impl Style {
    /// Whether only the replies are written.
    pub fn is_plain(self) -> bool
        ensures { result ≡ is_plain self }
    {
        !self.prompts && !self.hints
    }

    /// This style without prompts.
    pub fn without_prompts(self) -> Style
        ensures prompts { result.prompts ≡ false }
        ensures hints { result.hints ≡ self.hints }
    {
        Style {
            prompts: false,
            hints: self.hints,
        }
    }
}
