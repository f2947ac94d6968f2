//! Formatting and minifying a text in memory.
ghost use Rattle.std.specs.Prelude.{◌≡◌, ◌↔◌, true, false, None, Some, IsErrOf, string_bytes};
ghost use Rattle.run_command.specs.Options.{are_refused};
ghost use Rattle.run_command.specs.declared.options.Style.TheVariants as styles;
ghost use Rattle.ecma_front.specs.Run.{Formats, SucceedsExactly, in_style};

use crate::fault::Fault;
use crate::reading::read;
use crate::writing::told;
use run_command::{Options, Style};
use run_print::text_of;
use std::alloc::Global;

/// What is written of a text.
fn written(alloc: Global, text: &str, options: Options) -> Result<String, Fault>
    requires { options.positions ≡ false }
    ensures settings { IsErrOf result Fault.Options ↔ (are_refused options ≡ true) }
    ensures answer { Formats (λ x. string_bytes x) options text.now result }
{
    let program = match read(alloc, text, options) {
        Ok(program) => program,
        Err(fault) => return Err(fault),
    };
    match text_of(alloc, &program, options) {
        Ok(text) => Ok(text),
        Err(fault) => Err(told(fault)),
    }
}

/// A text, formatted. Of the settings the style and the positions are not looked at.
///
/// # Errors
///
/// `Options` where the settings are refused, which is judged first; `TooLong` for more than 4,294,967,294 bytes; `Syntax`
/// where the text is no program, with its first early error where that alone is wrong; `TooDeep` where it nests too deeply;
/// `Memory`.
pub fn format(alloc: Global, text: &str, options: Options) -> Result<String, Fault>
    ensures exact { SucceedsExactly (in_style styles.Format options) (Some text.now) None result }
    ensures settings { IsErrOf result Fault.Options ↔ (are_refused options ≡ true) }
    ensures answer { Formats (λ x. string_bytes x) (in_style styles.Format options) text.now result }
{
    written(
        alloc,
        text,
        Options {
            style: Style::Format,
            positions: false,
            ..options
        },
    )
}

/// A text, minified. Of the settings the style and the positions are not looked at.
///
/// # Errors
///
/// Those of `format`.
pub fn minify(alloc: Global, text: &str, options: Options) -> Result<String, Fault>
    ensures exact { SucceedsExactly (in_style styles.Minify options) (Some text.now) None result }
    ensures settings { IsErrOf result Fault.Options ↔ (are_refused options ≡ true) }
    ensures answer { Formats (λ x. string_bytes x) (in_style styles.Minify options) text.now result }
{
    written(
        alloc,
        text,
        Options {
            style: Style::Minify,
            positions: false,
            ..options
        },
    )
}
