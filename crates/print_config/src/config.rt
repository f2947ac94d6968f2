//! How a text is to look.
ghost use Rattle.std.specs.Prelude.{◌≡◌};

use base_token::EsVersion;
use serde::{Deserialize, Serialize};

/// How a text is to look. It is written and read with keys in camel case; a key that is absent has its default.
#[derive(Clone, Copy, Debug, Default, Serialize, Deserialize)]
#[serde(rename_all = "camelCase", default)]
pub struct Config {
    /// The edition that the text is written for.
    #[serde(with = "crate::edition")]
    pub target: EsVersion,
    /// Whether strings, names and untagged templates have ASCII characters alone.
    pub ascii_only: bool,
    /// Whether the text is to be short.
    pub minify: bool,
    /// Whether the last semicolon of a program may go.
    pub omit_last_semi: bool,
    /// Whether import attributes follow `assert`, as they did once, and not `with`.
    pub emit_assert_for_import_attributes: bool,
    /// Whether the text may stand between `<script>` and `</script>`.
    pub inline_script: bool,
}

impl Config {
    /// The same for this edition.
    pub fn with_target(self, target: EsVersion) -> Config
        ensures { result ≡ record self { target = target } }
    {
        Config { target, ..self }
    }

    /// The same, short or not.
    pub fn with_minify(self, minify: bool) -> Config
        ensures { result ≡ record self { minify = minify } }
    {
        Config { minify, ..self }
    }

    /// The same, with ASCII characters alone or not.
    pub fn with_ascii_only(self, ascii_only: bool) -> Config
        ensures { result ≡ record self { ascii_only = ascii_only } }
    {
        Config { ascii_only, ..self }
    }

    /// The same, where the last semicolon may go or not.
    pub fn with_omit_last_semi(self, omit_last_semi: bool) -> Config
        ensures { result ≡ record self { omit_last_semi = omit_last_semi } }
    {
        Config {
            omit_last_semi,
            ..self
        }
    }

    /// The same, with `assert` before import attributes or not.
    pub fn with_emit_assert_for_import_attributes(self, asserts: bool) -> Config
        ensures { result ≡ record self { emit_assert_for_import_attributes = asserts } }
    {
        Config {
            emit_assert_for_import_attributes: asserts,
            ..self
        }
    }

    /// The same, for a script in a page or not.
    pub fn with_inline_script(self, inline_script: bool) -> Config
        ensures { result ≡ record self { inline_script = inline_script } }
    {
        Config {
            inline_script,
            ..self
        }
    }
}
