//! How a text is to look, by the settings of a run.
ghost use Rattle.std.specs.Prelude.{◌≡◌, ◌≤◌, codes};
ghost use Rattle.ecma_codegen.specs.Settings as settings;
ghost use Rattle.print_writers.specs.Pages.{times};
ghost use Rattle.run_command.specs.Options.{width_of};
ghost use Rattle.run_print.specs.Layouts.{indent_of, line_end_of, look_of};

use ecma_codegen::Config;
use run_command::{Indent, LineEnd, Options, Style};

/// What ends a line.
pub(crate) fn line_end(asked: LineEnd) -> &'static str
    ensures { result.now ≡ line_end_of asked }
{
    match asked {
        LineEnd::Lf => "\n",
        LineEnd::CrLf => "\r\n",
    }
}

/// So many blanks.
fn blanks(count: u8) -> &'static str
    requires { count ≤ 8 }
    ensures { result.now ≡ times count (codes " ") }
{
    match count {
        0 => "",
        1 => " ",
        2 => "  ",
        3 => "   ",
        4 => "    ",
        5 => "     ",
        6 => "      ",
        7 => "       ",
        8 => "        ",
        _ => unreachable!(),
    }
}

/// So many tabs.
fn tabs(count: u8) -> &'static str
    requires { count ≤ 8 }
    ensures { result.now ≡ times count (codes "\t") }
{
    match count {
        0 => "",
        1 => "\t",
        2 => "\t\t",
        3 => "\t\t\t",
        4 => "\t\t\t\t",
        5 => "\t\t\t\t\t",
        6 => "\t\t\t\t\t\t",
        7 => "\t\t\t\t\t\t\t",
        8 => "\t\t\t\t\t\t\t\t",
        _ => unreachable!(),
    }
}

/// One step of the indentation.
pub(crate) fn indent(asked: Indent) -> &'static str
    requires { width_of asked ≤ 8 }
    ensures { result.now ≡ indent_of asked }
{
    match asked {
        Indent::Blanks(count) => blanks(count),
        Indent::Tabs(count) => tabs(count),
    }
}

/// How the text is to look.
pub(crate) fn config(options: Options) -> Config
    ensures { settings.look_of result ≡ look_of options }
{
    let minify = options.style == Style::Minify;
    Config {
        target: options.target,
        ascii_only: options.ascii_only,
        minify,
        omit_last_semi: minify,
        emit_assert_for_import_attributes: false,
        inline_script: options.inline_script,
    }
}
