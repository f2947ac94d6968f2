//! What a run is asked to do.

use base_token::{EsSyntax, EsVersion, Syntax};

/// Whether a text is read as a script or as a module.
#[derive(Clone, Copy, Debug, Default, PartialEq, Eq, Hash)]
pub enum Goal {
    Script,
    #[default]
    Module,
}

/// How a program is laid out.
#[derive(Clone, Copy, Debug, Default, PartialEq, Eq, Hash)]
pub enum Style {
    /// For people, with lines and indentation.
    #[default]
    Format,
    /// As short as it can be with the same tokens.
    Minify,
}

/// What ends a line that is written.
#[derive(Clone, Copy, Debug, Default, PartialEq, Eq, Hash)]
pub enum LineEnd {
    #[default]
    Lf,
    CrLf,
}

/// One step of indentation.
#[derive(Clone, Copy, Debug, PartialEq, Eq, Hash)]
pub enum Indent {
    /// That many blanks, at most 8.
    Blanks(u8),
    /// That many tabs, at most 8.
    Tabs(u8),
}

impl Indent {
    ghost use Rattle.std.specs.Prelude.{◌≡◌};
    ghost use Rattle.run_command.specs.Options.{width_of};

    /// How many characters one step takes.
    pub fn width(self) -> u8
        ensures { result ≡ width_of self }
    {
        match self {
            Indent::Blanks(count) | Indent::Tabs(count) => count,
        }
    }
}

impl Default for Indent {
    ghost use Rattle.std.specs.Prelude.{◌≡◌};
    ghost use Rattle.run_command.specs.Options.{default_indent};

    ghost is_default = { λ indent. indent ≡ default_indent };

    fn default() -> Indent {
        Indent::Blanks(4)
    }
}

/// The settings of a run.
#[derive(Clone, Copy, Debug, PartialEq, Eq, Hash)]
pub struct Options {
    pub goal: Goal,
    pub style: Style,
    /// The edition that the output is written for.
    pub target: EsVersion,
    /// Whether characters past ASCII are written as escapes.
    pub ascii_only: bool,
    /// Whether the output may stand inside a `script` element.
    pub inline_script: bool,
    pub line_end: LineEnd,
    pub indent: Indent,
    pub syntax: Syntax,
    /// How deep the tree may nest: from 1 to 4,096.
    pub nesting: u32,
    /// Whether the run answers positions: the places of the source that are marked, each with the line and the column at
    /// which it is written.
    pub positions: bool,
}

impl Default for Options {
    ghost use Rattle.std.specs.Prelude.{◌≡◌};
    ghost use Rattle.run_command.specs.Options.{default_options};

    ghost is_default = { λ options. options ≡ default_options };

    fn default() -> Options {
        Options {
            goal: Goal::Module,
            style: Style::Format,
            target: EsVersion::EsNext,
            ascii_only: false,
            inline_script: false,
            line_end: LineEnd::Lf,
            indent: Indent::default(),
            syntax: Syntax::Es(EsSyntax::default()),
            nesting: 256,
            positions: false,
        }
    }
}

impl Options {
    ghost use Rattle.std.specs.Prelude.{◌≡◌};
    ghost use Rattle.run_command.specs.Options.{are_refused};

    /// The deepest nesting that may be asked for.
    pub const DEEPEST: u32 = 4096;

    /// The widest step of indentation that may be asked for.
    pub const WIDEST: u8 = 8;

    /// Whether a run refuses these settings, which it then does before it reads or writes anything.
    pub fn are_refused(&self) -> bool
        ensures { result ≡ are_refused self.now }
    {
        let Syntax::Es(syntax) = self.syntax;
        syntax.jsx
            || self.nesting == 0
            || self.nesting > Options::DEEPEST
            || self.indent.width() > Options::WIDEST
    }
}
