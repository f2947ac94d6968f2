//! The settings that a spelling depends on.

ghost use Rattle.std.specs.Prelude.{◌≡◌};
ghost use Rattle.print_spelling.specs.Styles as spec;

use lex_literal::EsVersion;

/// The settings that a spelling depends on.
#[derive(Clone, Copy, Debug, Default)]
pub struct Style {
    /// The edition that the text is written for.
    pub target: EsVersion,
    /// Whether the text is to be short: else literals stand as they were read, where that serves.
    pub minify: bool,
    /// Whether strings, names and untagged templates have ASCII characters alone.
    pub ascii_only: bool,
    /// Whether the text may stand between `<script>` and `</script>`.
    pub inline_script: bool,
}

impl Style {
    /// Whether the edition is ES3.
    pub fn is_below_es5(&self) -> bool
        ensures { result ≡ spec.is_below_es5 self.now }
    {
        self.target < EsVersion::Es5
    }

    /// Whether the edition is ES3 or ES5, which have no escape of a code point past U+FFFF.
    pub fn is_up_to_es5(&self) -> bool
        ensures { result ≡ spec.is_up_to_es5 self.now }
    {
        self.target < EsVersion::Es2015
    }

    /// Whether numbers of the edition have no `_`.
    pub fn is_below_es2021(&self) -> bool
        ensures { result ≡ spec.is_below_es2021 self.now }
    {
        self.target < EsVersion::Es2021
    }
}
