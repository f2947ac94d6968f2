//! The code around a node.
ghost use Rattle.std.specs.Prelude.{◌≡◌, true, false, ◌&&◌, ◌||◌};
ghost use Rattle.grammar_spec.specs.Judge.Early.{as_block, as_body, as_function, as_method, heading, in_arrow, in_arrow_params, in_constructor, in_function, in_part, looping, outermost, past_head, strictly, switching};
ghost use Rattle.judge.specs.Base.Around.{scope_of, after_statement, labels_of};

use crate::base::labels::Labels;
use base_token::EsSyntax;

/// The code around a node: whether it is strict, and what labels, loops and functions it stands in.
#[derive(Clone, Copy)]
pub struct Code<'a> {
    /// Strict code.
    pub strict: bool,
    /// The directives of a body may still come.
    pub starts: bool,
    /// The labels around.
    pub labels: Labels<'a>,
    /// In a loop, which `continue` without a label ends.
    pub loops: bool,
    /// In a loop or a `switch`, which `break` without a label ends.
    pub breaks: bool,
    /// In a function, which `return` ends.
    pub returns: bool,
    /// Where `super.x` may stand.
    pub supers: bool,
    /// Where `super()` may stand.
    pub calls: bool,
    /// Where `new.target` may stand.
    pub targets: bool,
    /// The next function is a method.
    pub method: bool,
    /// The next declaration heads a `for`-`in` or a `for`-`of`.
    pub heads: bool,
    /// Among the parameters of an async arrow, where `await` is no name.
    pub awaits: bool,
    /// Optional parts of the language.
    pub syntax: EsSyntax,
}

impl<'a> Code<'a> {
    /// The code at the start of a script or a module.
    pub fn outermost(syntax: EsSyntax) -> Code<'a>
        ensures { scope_of result ≡ outermost syntax false }
    {
        Code {
            strict: false,
            starts: false,
            labels: Labels::Outermost,
            loops: false,
            breaks: false,
            returns: false,
            supers: false,
            calls: false,
            targets: false,
            method: false,
            heads: false,
            awaits: false,
            syntax,
        }
    }

    /// The same, as strict code.
    pub fn strictly(self) -> Code<'a>
        ensures { scope_of result ≡ strictly (scope_of self.entry) }
    {
        Code {
            strict: true,
            ..self
        }
    }

    /// In a loop.
    pub fn looping(self) -> Code<'a>
        ensures { scope_of result ≡ looping (scope_of self.entry) }
    {
        Code {
            loops: true,
            breaks: true,
            ..self
        }
    }

    /// In a `switch`.
    pub fn switching(self) -> Code<'a>
        ensures { scope_of result ≡ switching (scope_of self.entry) }
    {
        Code {
            breaks: true,
            ..self
        }
    }

    /// In an arrow function, which keeps what `super` and `new.target` mean.
    pub fn in_arrow(self) -> Code<'a>
        ensures { scope_of result ≡ in_arrow (scope_of self.entry) }
    {
        Code {
            starts: false,
            heads: false,
            labels: Labels::Outermost,
            loops: false,
            breaks: false,
            returns: true,
            awaits: false,
            ..self
        }
    }

    /// Among the parameters of an arrow function, which is async or not.
    pub fn in_arrow_params(self, is_async: bool) -> Code<'a>
        ensures { scope_of result ≡ in_arrow_params is_async (scope_of self.entry) }
    {
        Code {
            awaits: is_async || self.awaits,
            ..self.in_arrow()
        }
    }

    /// In a function that is no arrow function.
    pub fn in_function(self) -> Code<'a>
        ensures { scope_of result ≡ in_function (scope_of self.entry) }
    {
        Code {
            supers: self.method,
            calls: false,
            targets: true,
            method: false,
            ..self.in_arrow()
        }
    }

    /// In a constructor, of a class that is derived or not.
    pub fn in_constructor(self, derived: bool) -> Code<'a>
        ensures { scope_of result ≡ in_constructor derived (scope_of self.entry) }
    {
        Code {
            supers: true,
            calls: derived,
            targets: true,
            method: false,
            ..self.in_arrow()
        }
    }

    /// In the value of a field, or in a static block.
    pub fn in_part(self) -> Code<'a>
        ensures { scope_of result ≡ in_part (scope_of self.entry) }
    {
        Code {
            returns: false,
            supers: true,
            calls: false,
            targets: true,
            method: false,
            ..self.in_arrow()
        }
    }

    /// Before a function that is a method.
    pub fn as_method(self) -> Code<'a>
        ensures { scope_of result ≡ as_method (scope_of self.entry) }
    {
        Code {
            method: true,
            ..self
        }
    }

    /// Before a function that is no method, and its name.
    pub fn as_function(self) -> Code<'a>
        ensures { scope_of result ≡ as_function (scope_of self.entry) }
    {
        Code {
            method: false,
            awaits: false,
            ..self
        }
    }

    /// At the start of a body, whose directives come.
    pub fn as_body(self) -> Code<'a>
        ensures { scope_of result ≡ as_body (scope_of self.entry) }
    {
        Code {
            starts: true,
            ..self
        }
    }

    /// Past a body's directives.
    pub fn as_block(self) -> Code<'a>
        ensures { scope_of result ≡ as_block (scope_of self.entry) }
    {
        Code {
            starts: false,
            ..self
        }
    }

    /// After a statement, which is a directive or not, and `'use strict'` or not.
    pub fn after(self, is_use_strict: bool, is_directive: bool) -> Code<'a>
        ensures { scope_of result ≡ after_statement is_use_strict is_directive (scope_of self.entry) }
    {
        Code {
            strict: self.strict || (self.starts && is_use_strict),
            starts: self.starts && is_directive,
            heads: false,
            ..self
        }
    }

    /// Before a declaration that heads a `for`-`in` or a `for`-`of`.
    pub fn heading(self) -> Code<'a>
        ensures { scope_of result ≡ heading (scope_of self.entry) }
    {
        Code {
            heads: true,
            ..self
        }
    }

    /// Past such a declaration's head.
    pub fn past_head(self) -> Code<'a>
        ensures { scope_of result ≡ past_head (scope_of self.entry) }
    {
        Code {
            heads: false,
            ..self
        }
    }

    /// In the members of a class that is derived or not.
    pub fn in_class(self, derived: bool) -> Code<'a>
        ensures { scope_of result ≡ record (scope_of self.entry) { calls = derived } }
    {
        Code {
            calls: derived,
            ..self
        }
    }
}
