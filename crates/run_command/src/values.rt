//! The values of the command line's options.
ghost use Rattle.std.specs.Prelude.{◌≡◌, true, option_map, IfErr, IfOk};
ghost use Rattle.run_command.specs.Command.{SetsIndent, SetsNesting, SetsTarget};
ghost use Rattle.run_command.specs.Values.{indent_of, is_listed, nesting_of, target_of};

use crate::options::{Indent, Options};
use crate::request::CliFault;
use base_token::EsVersion;
use std::alloc::{AllocError, Global};

/// What a refusal says of the names of editions.
const EDITIONS: &str =
    "\n  [possible values: es2015, es2016, es2017, es2018, es2019, es2020, es2021, es2022, esnext]";

/// What it says of the steps of indentation.
const STEPS: &str = "\n  [possible values: 0, 1, 2, 3, 4, 5, 6, 7, 8, tab]";

/// And of numbers.
const NUMBERS: &str = ": not a number in 0..=4294967295";

/// The edition of a name.
#[tactic(auto, unfolding(crate::specs::Values::target_of))]
fn target_of(name: &str) -> Option<EsVersion>
    ensures { result ≡ target_of name.now }
{
    match name {
        "es2015" => Some(EsVersion::Es2015),
        "es2016" => Some(EsVersion::Es2016),
        "es2017" => Some(EsVersion::Es2017),
        "es2018" => Some(EsVersion::Es2018),
        "es2019" => Some(EsVersion::Es2019),
        "es2020" => Some(EsVersion::Es2020),
        "es2021" => Some(EsVersion::Es2021),
        "es2022" => Some(EsVersion::Es2022),
        "esnext" => Some(EsVersion::EsNext),
        _ => None,
    }
}

/// The step of indentation of a name.
#[tactic(auto, unfolding(crate::specs::Values::indent_of))]
fn indent_of(name: &str) -> Option<Indent>
    ensures { result ≡ indent_of name.now }
{
    match name {
        "0" => Some(Indent::Blanks(0)),
        "1" => Some(Indent::Blanks(1)),
        "2" => Some(Indent::Blanks(2)),
        "3" => Some(Indent::Blanks(3)),
        "4" => Some(Indent::Blanks(4)),
        "5" => Some(Indent::Blanks(5)),
        "6" => Some(Indent::Blanks(6)),
        "7" => Some(Indent::Blanks(7)),
        "8" => Some(Indent::Blanks(8)),
        "tab" => Some(Indent::Tabs(1)),
        _ => None,
    }
}

/// The number that a text of decimal digits writes, where it is a `u32`. No sign may stand before it.
fn nesting_of(text: &str) -> Option<u32>
    ensures { result ≡ nesting_of text.now }
{
    if text.starts_with('+') {
        None
    } else {
        text.parse::<u32>().ok()
    }
}

/// The fault of a value that an option doesn't take, with a text in clap's form.
fn refusal(alloc: Global, value: &str, option: &str, wanted: &str) -> Result<CliFault, AllocError> {
    let text = format!(in alloc;
        "error: invalid value '{value}' for '{option}'{wanted}\n\nFor more information, try '--help'.\n"
    )?;
    Ok(CliFault::Refused(text))
}

/// The edition that the output is written for, where `value` is what the words give for it.
pub(crate) fn target(alloc: Global, value: Option<&str>) -> Result<EsVersion, CliFault>
    ensures asked { IfOk result (SetsTarget (option_map (λ s. s.now) value.entry)) }
    ensures refused { IfErr result (λ fault. is_listed target_of (option_map (λ s. s.now) value.entry) ≡ true → fault ≡ CliFault.Memory) }
{
    let Some(name) = value else {
        return Ok(Options::default().target);
    };
    match target_of(name) {
        Some(target) => Ok(target),
        None => Err(refusal(alloc, name, "--target <TARGET>", EDITIONS)?),
    }
}

/// The step of indentation, where `value` is what the words give for it.
pub(crate) fn indent(alloc: Global, value: Option<&str>) -> Result<Indent, CliFault>
    ensures asked { IfOk result (SetsIndent (option_map (λ s. s.now) value.entry)) }
    ensures refused { IfErr result (λ fault. is_listed indent_of (option_map (λ s. s.now) value.entry) ≡ true → fault ≡ CliFault.Memory) }
{
    let Some(name) = value else {
        return Ok(Options::default().indent);
    };
    match indent_of(name) {
        Some(indent) => Ok(indent),
        None => Err(refusal(alloc, name, "--indent <INDENT>", STEPS)?),
    }
}

/// How deep the tree may nest, where `value` is what the words give for it.
pub(crate) fn nesting(alloc: Global, value: Option<&str>) -> Result<u32, CliFault>
    ensures asked { IfOk result (SetsNesting (option_map (λ s. s.now) value.entry)) }
    ensures refused { IfErr result (λ fault. is_listed nesting_of (option_map (λ s. s.now) value.entry) ≡ true → fault ≡ CliFault.Memory) }
{
    let Some(text) = value else {
        return Ok(Options::default().nesting);
    };
    match nesting_of(text) {
        Some(nesting) => Ok(nesting),
        None => Err(refusal(alloc, text, "--nesting <N>", NUMBERS)?),
    }
}
