//! Regular expressions.

ghost use Rattle.std.specs.Prelude.{◌≡◌, []};
ghost use Rattle.print_spelling.specs.Template.RegExps.{reg_exp_text};
ghost use Rattle.print_spelling.specs.Template.RegExpTexts.{joined};

/// A regular expression in its four parts, one after the other. It takes no memory.
#[derive(Clone, Copy, Debug)]
pub struct RegExpText<'a> {
    pub opening: &'static str,
    pub body: &'a str,
    pub closing: &'static str,
    pub flags: &'a str,
}

/// A regular expression, as it was read, by its body and its flags (ECMA-262, 12.9.5).
pub fn reg_exp<'a>(body: &'a str, flags: &'a str) -> RegExpText<'a>
    ensures { joined result ≡ reg_exp_text body.now flags.now [] }
{
    RegExpText {
        opening: "/",
        body,
        closing: "/",
        flags,
    }
}
