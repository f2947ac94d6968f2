//! Names and spellings that strict code and async arrows refuse (ECMA-262, 13.1.1, 13.15.1, 15.9.1, B.1.1 and B.1.2).
ghost use Rattle.std.specs.Prelude.{◌≡◌, List, ℕ};
ghost use Rattle.grammar_spec.specs.Judge.Early.{all_octal, has_octal, is_await, is_evil, is_legacy};
ghost use Rattle.base_token.specs.Reserved.{is_among, strict_reserved};

/// Whether a name is `eval` or `arguments`.
pub fn is_evil(name: &str) -> bool
    ensures { result ≡ is_evil name.now }
{
    name == "eval" || name == "arguments"
}

/// Whether a name is `await`.
pub fn is_await(name: &str) -> bool
    ensures { result ≡ is_await name.now }
{
    name == "await"
}

/// Whether a word is no name in strict code.
pub fn is_strict_reserved(name: &str) -> bool
    ensures { result ≡ is_among strict_reserved name.now }
{
    "implements" == name
        || "interface" == name
        || "let" == name
        || "package" == name
        || "private" == name
        || "protected" == name
        || "public" == name
        || "static" == name
        || "yield" == name
}

/// Whether a number's spelling is a zero and a digit more.
pub fn is_legacy(raw: &[u8]) -> bool
    ensures { result ≡ is_legacy raw.now }
{
    matches!(raw, [b'0', b'0'..=b'9', ..])
}

/// Whether all of a spelling are octal digits.
pub fn all_octal(raw: &[u8]) -> bool
    ensures { result ≡ all_octal raw.now }
{
    for c in raw {
        if !(b'0'..=b'7').contains(c) {
            return false;
        }
    }
    true
}

/// Whether a string's spelling has an octal escape, `\8` or `\9`.
pub fn has_octal(raw: &[u8]) -> bool
    ensures { result ≡ has_octal raw.now }
{
    let mut rest = raw;
    while let [c, after @ ..] = rest {
        if *c != b'\\' {
            rest = after;
            continue;
        }
        match after {
            [b'0', b'0'..=b'9', ..] | [b'1'..=b'9', ..] => return true,
            [_, behind @ ..] => rest = behind,
            [] => return false,
        }
    }
    false
}
