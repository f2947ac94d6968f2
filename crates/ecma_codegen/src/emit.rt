//! Printing a node to a writer.
ghost use Rattle.std.specs.Prelude.{◌≡◌, None};
ghost use Rattle.ecma_codegen.specs.Emits.{Emits, Notes, Stays, IsHeld};
ghost use Rattle.ecma_codegen.specs.Settings as settings;

use crate::alone::PrintAlone;
use base_token::Spanned;
use lex_comments::Comments;
use print_comments::WithComments;
use print_config::Config;
use print_layout_spec::Look;
use print_pieces::Printer;
use print_spelling::Style;
use print_writers::{EmitError, WriteJs};

/// How a text looks by these settings.
pub(crate) fn look_of(cfg: Config) -> Look
    ensures { result ≡ settings.look_of cfg }
{
    Look {
        style: Style {
            target: cfg.target,
            minify: cfg.minify,
            ascii_only: cfg.ascii_only,
            inline_script: cfg.inline_script,
        },
        omits_last: cfg.omit_last_semi,
        asserts: cfg.emit_assert_for_import_attributes,
    }
}

/// Prints a node alone: its layout, or with a fault a beginning of it.
pub(crate) fn emit<N: PrintAlone, W: WriteJs>(
    node: &N,
    wr: &mut W,
    look: Look,
) -> Result<(), EmitError>
    ensures value { Emits W.tells W.state (N.alone look node.now) wr.old wr.new result }
    ensures keeps { Stays W.state W.failed_writes W.loans wr.old wr.new result }
{
    let mut p = Printer { wr, fault: None };
    node.print_alone(&mut p, look);
    let Printer { wr: _, fault } = p;
    match fault {
        None => Ok(()),
        Some(fault) => Err(fault),
    }
}

/// Prints a node, and the comments of its source between its parts and up to its end.
pub(crate) fn emit_noting<N: PrintAlone + Spanned, W: WriteJs>(
    node: &N,
    wr: &mut W,
    comments: &mut Comments,
    look: Look,
) -> Result<(), EmitError>
    ensures value { Notes W.state (N.alone look node.now) wr.old result }
    ensures keeps { Stays W.state W.failed_writes W.loans wr.old wr.new result }
{
    let mut noting = WithComments::new(wr, comments, look.style.minify);
    match emit(node, &mut noting, look) {
        Ok(()) => {}
        Err(fault) => return Err(fault),
    }
    noting.finish(node.span_hi())
}

/// Prints a node, with comments where there are some.
pub(crate) fn emit_with_comments<N: PrintAlone + Spanned, W: WriteJs>(
    node: &N,
    wr: &mut W,
    comments: &mut Option<&mut Comments>,
    look: Look,
) -> Result<(), EmitError>
    ensures bare { comments.old ≡ None → Emits W.tells W.state (N.alone look node.now) wr.old wr.new result }
    ensures noted { Notes W.state (N.alone look node.now) wr.old result }
    ensures keeps { Stays W.state W.failed_writes W.loans wr.old wr.new result }
    ensures held { IsHeld comments.old comments.new }
{
    match comments {
        None => emit(node, wr, look),
        Some(comments) => emit_noting(node, wr, comments, look),
    }
}
