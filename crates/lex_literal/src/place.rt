//! The front of a text before a rest of it.

ghost use Rattle.std.specs.Prelude.{◌≡◌, ◌++◌, IsUtf8};
ghost use Rattle.std.specs.Str.{chars};
ghost use Rattle.lex_literal.specs.Places.{EndsWith};

/// What of a text comes before this rest of it.
pub(crate) fn before<'a>(text: &'a str, rest: &str) -> &'a str
    requires { EndsWith (chars text.now) (chars rest.now) }
    ensures cut { chars text.now ≡ chars result.now ++ chars rest.now }
    ensures text { IsUtf8 result.now }
{
    let (own, _) = text.split_at(text.len() - rest.len());
    own
}
