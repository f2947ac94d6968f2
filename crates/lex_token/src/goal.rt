//! What may come at a place of a text.

/// The goal under which a token is read (ECMA-262, clause 12).
#[derive(Clone, Copy, Debug, PartialEq, Eq)]
pub enum LexicalGoal {
    /// A slash divides.
    Div,
    /// A slash opens a regular expression.
    RegExp,
    /// The characters of a template come: behind a back quote, or behind the brace that closes a `${`.
    TemplateTail,
    /// What ends these characters comes: a back quote or `${`.
    TemplateEnd,
}

impl LexicalGoal {
    ghost use Rattle.std.specs.Prelude.{◌≡◌};
    ghost use Rattle.lex_token.specs.Sorts.{opens_regexp};

    /// Whether a slash opens a regular expression.
    pub fn opens_regexp(self) -> bool
        ensures { result ≡ opens_regexp self }
    {
        matches!(self, LexicalGoal::RegExp)
    }
}
