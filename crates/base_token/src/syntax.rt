//! Which optional parts of the language a text may use.
ghost use Rattle.std.specs.Prelude.{◌≡◌, false};

use serde::{Deserialize, Serialize};

/// The dialect of a text.
#[derive(Clone, Copy, Debug, PartialEq, Eq, Hash)]
pub enum Syntax {
    /// ECMAScript.
    Es(EsSyntax),
}

/// The optional parts of ECMAScript, each off unless it is set.
#[derive(Clone, Copy, Debug, Default, PartialEq, Eq, Hash, Serialize, Deserialize)]
#[serde(rename_all = "camelCase", default)]
pub struct EsSyntax {
    /// JSX. The flag is kept, and changes nothing.
    pub jsx: bool,
    /// Function binding. The flag is kept, and changes nothing.
    #[serde(rename = "functionBind")]
    pub fn_bind: bool,
    /// Decorators.
    pub decorators: bool,
    /// Decorators before `export`.
    pub decorators_before_export: bool,
    /// `export a from "b"`.
    pub export_default_from: bool,
    /// `import a from "b" with {key: "text"}`.
    #[serde(alias = "importAssertions")]
    pub import_attributes: bool,
    /// `super` outside methods.
    pub allow_super_outside_method: bool,
    /// `return` outside functions.
    pub allow_return_outside_function: bool,
    /// `accessor` fields of classes.
    pub auto_accessors: bool,
    /// `using` declarations.
    pub explicit_resource_management: bool,
}

/// The older name of `EsSyntax`.
pub type EsConfig = EsSyntax;

impl Default for Syntax {
    ghost use Rattle.base_token.specs.Dialect.{plain_dialect};
    ghost use Rattle.std.specs.Prelude.{◌≡◌};

    ghost is_default = { λ syntax. syntax ≡ plain_dialect };

    fn default() -> Syntax {
        Syntax::Es(EsSyntax::default())
    }
}

impl Syntax {
    ghost use Rattle.base_token.specs.Dialect.{parts_of};

    /// The optional parts that are on.
    fn parts(self) -> EsSyntax
        ensures { result ≡ parts_of self }
    {
        let Syntax::Es(parts) = self;
        parts
    }

    /// Whether imports may have attributes.
    pub fn import_attributes(self) -> bool
        ensures { result ≡ (parts_of self).import_attributes }
    {
        self.parts().import_attributes
    }

    /// Whether the flag for JSX is set.
    pub fn jsx(self) -> bool
        ensures { result ≡ (parts_of self).jsx }
    {
        self.parts().jsx
    }

    /// Whether the flag for function binding is set.
    pub fn fn_bind(self) -> bool
        ensures { result ≡ (parts_of self).fn_bind }
    {
        self.parts().fn_bind
    }

    /// Whether there are decorators.
    pub fn decorators(self) -> bool
        ensures { result ≡ (parts_of self).decorators }
    {
        self.parts().decorators
    }

    /// Whether decorators may stand before `export`.
    pub fn decorators_before_export(self) -> bool
        ensures { result ≡ (parts_of self).decorators_before_export }
    {
        self.parts().decorators_before_export
    }

    /// Whether `export a from "b"` is read.
    pub fn export_default_from(self) -> bool
        ensures { result ≡ (parts_of self).export_default_from }
    {
        self.parts().export_default_from
    }

    /// Whether there are `using` declarations.
    pub fn explicit_resource_management(self) -> bool
        ensures { result ≡ (parts_of self).explicit_resource_management }
    {
        self.parts().explicit_resource_management
    }

    /// Whether the text is TypeScript: never.
    pub fn typescript(self) -> bool
        ensures { result ≡ false }
    {
        false
    }

    /// Whether the text is a TypeScript declaration file: never.
    pub fn dts(self) -> bool
        ensures { result ≡ false }
    {
        self.typescript()
    }
}
