//! Tokens that are looked at without going on.
ghost use Rattle.std.specs.Prelude.{◌≡◌, Some, option_map, MatchResult};
ghost use Rattle.base_token.specs.declared.error.SyntaxError.TheVariants.{Memory};
ghost use Rattle.lex_source.specs.Looks.{behind_by, seen};
ghost use Rattle.lex_source.specs.Machine.{shown_spot, told_of};
ghost use Rattle.lex_source.specs.Settings.{settings_in, with_next_regexp};
ghost use Rattle.ecma_lexer.specs.Lexer.{state_in};
ghost use Rattle.ecma_lexer.specs.Machine.{step_of};

use crate::lexer::Lexer;
use base_token::{BytePos, Error, TokenAndSpan};
use lex_comments::Comments;
use lex_source::{Look, Settings};

impl<'a> Lexer<'a> {
    /// A lexer that stands where this one stands, told this. It keeps no comments, and takes no memory.
    fn scout(&self, settings: Settings) -> Lexer<'a>
        ensures { state_in result ≡ told_of (settings_in settings) (state_in self.now) }
    {
        Lexer {
            alloc: self.alloc,
            text: self.text.copied(),
            settings,
            full: self.full,
            keeps: false,
            comments: Comments::new(self.alloc),
        }
    }

    /// The next token, without going on.
    ///
    /// # Errors
    ///
    /// Want of memory.
    fn look_next(&self) -> Result<Option<TokenAndSpan<'a>>, Error>
        ensures { MatchResult result (λ t. option_map shown_spot t ≡ (step_of (state_in self.now)).0) (λ e. e.kind ≡ Memory) }
    {
        let mut scout = self.scout(self.settings.scout(self.alloc));
        scout.next()
    }

    /// The same where the slash at this place is asked for again.
    ///
    /// # Errors
    ///
    /// Want of memory.
    fn look_again(&self, place: BytePos) -> Result<Option<TokenAndSpan<'a>>, Error>
        ensures { MatchResult result (λ t. option_map shown_spot t ≡ (step_of (told_of (with_next_regexp (Some place.0) (state_in self.now).settings) (state_in self.now))).0) (λ e. e.kind ≡ Memory) }
    {
        let mut settings = self.settings.scout(self.alloc);
        settings.next_regexp = Some(place);
        let mut scout = self.scout(settings);
        scout.next()
    }

    /// The token behind the next one.
    ///
    /// # Errors
    ///
    /// Want of memory.
    #[tactic(auto, using(crate::proofs::LookLemmas::none_shown))]
    fn look_behind(&self) -> Result<Option<TokenAndSpan<'a>>, Error>
        ensures { MatchResult result (λ t. option_map shown_spot t ≡ behind_by step_of (step_of (state_in self.now)).0 (step_of (state_in self.now)).1) (λ e. e.kind ≡ Memory) }
    {
        let mut scout = self.scout(self.settings.scout(self.alloc));
        match scout.next()? {
            Some(_) => scout.next(),
            None => Ok(None),
        }
    }

    /// A token that comes, without going on. It takes no more time for what was handed out, kept and recorded so far.
    ///
    /// # Errors
    ///
    /// Want of memory.
    pub fn look(&self, at: Look) -> Result<Option<TokenAndSpan<'a>>, Error>
        ensures { MatchResult result (λ t. option_map shown_spot t ≡ seen step_of at (state_in self.now)) (λ e. e.kind ≡ Memory) }
    {
        match at {
            Look::Next => self.look_next(),
            Look::Slash(place) => self.look_again(place),
            Look::Second => self.look_behind(),
        }
    }
}
