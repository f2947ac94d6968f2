//! The settings of a file.

ghost use Rattle.std.specs.Prelude.{◌≡◌};
ghost use Rattle.run_settings.specs.Settings.{options_of, over};

use base_token::{EsSyntax, EsVersion, Syntax};
use run_command::{Goal, Indent, LineEnd, Options, Style};

/// The settings that one place says: a command line, a settings file. What it doesn't say is left to another.
#[derive(Clone, Copy)]
pub struct Settings {
    pub goal: Option<Goal>,
    pub target: Option<EsVersion>,
    pub ascii_only: Option<bool>,
    pub inline_script: Option<bool>,
    pub line_end: Option<LineEnd>,
    pub indent: Option<Indent>,
    pub nesting: Option<u32>,
}

impl Settings {
    /// Nothing is said.
    pub const NONE: Settings = Settings {
        goal: None,
        target: None,
        ascii_only: None,
        inline_script: None,
        line_end: None,
        indent: None,
        nesting: None,
    };

    /// What these settings say, and where they say nothing what the others do.
    pub fn over(self, other: Settings) -> Settings
        ensures { result ≡ over self other }
    {
        Settings {
            goal: self.goal.or(other.goal),
            target: self.target.or(other.target),
            ascii_only: self.ascii_only.or(other.ascii_only),
            inline_script: self.inline_script.or(other.inline_script),
            line_end: self.line_end.or(other.line_end),
            indent: self.indent.or(other.indent),
            nesting: self.nesting.or(other.nesting),
        }
    }

    /// The settings of a run in a style, of a text that is read as a script or as a module. What isn't said is as where no setting is
    /// given; import attributes and `using` are read.
    pub fn options(&self, style: Style, goal: Goal) -> Options
        ensures { result ≡ options_of self.now style goal }
    {
        let standing = Options::default();
        let syntax = EsSyntax {
            import_attributes: true,
            explicit_resource_management: true,
            ..EsSyntax::default()
        };
        Options {
            goal,
            style,
            target: self.target.unwrap_or(standing.target),
            ascii_only: self.ascii_only.unwrap_or(standing.ascii_only),
            inline_script: self.inline_script.unwrap_or(standing.inline_script),
            line_end: self.line_end.unwrap_or(standing.line_end),
            indent: self.indent.unwrap_or(standing.indent),
            syntax: Syntax::Es(syntax),
            nesting: self.nesting.unwrap_or(standing.nesting),
            positions: false,
        }
    }
}
