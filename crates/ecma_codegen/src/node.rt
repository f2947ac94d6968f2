//! What can be printed.
ghost use Rattle.std.specs.Prelude.{◌≡◌, None};
ghost use Rattle.ecma_codegen.specs.Emits.{Emits, Notes, Stays, IsHeld};
ghost use Rattle.ecma_codegen.specs.Settings as settings;

use crate::alone::PrintAlone;
use crate::emit::{emit_with_comments, look_of};
use crate::emitter::Emitter;
use base_token::Spanned;
use print_writers::{EmitError, WriteJs};

/// A part of a tree that can be printed and has a place: every node, also lent, in a box and where it may be left out.
pub trait Node: PrintAlone + Spanned {
    /// Prints it alone, to the writer of a printer: its layout, or with a fault a beginning of it, and the comments up to its
    /// end.
    fn emit_with<S, W: WriteJs>(&self, emitter: &mut Emitter<'_, S, W>) -> Result<(), EmitError>
        ensures value { emitter.old.comments ≡ None → Emits W.tells W.state (Self.alone (settings.look_of emitter.old.cfg) self.now) emitter.old.wr emitter.new.wr result }
        ensures noted { Notes W.state (Self.alone (settings.look_of emitter.old.cfg) self.now) emitter.old.wr result }
        ensures keeps { Stays W.state W.failed_writes W.loans emitter.old.wr emitter.new.wr result }
        ensures settings { emitter.new.cfg ≡ emitter.old.cfg }
        ensures source { emitter.new.cm ≡ emitter.old.cm }
        ensures comments { IsHeld emitter.old.comments emitter.new.comments };
}

impl<N: PrintAlone + Spanned> Node for N {
    fn emit_with<S, W: WriteJs>(&self, emitter: &mut Emitter<'_, S, W>) -> Result<(), EmitError> {
        emit_with_comments(
            self,
            &mut emitter.wr,
            &mut emitter.comments,
            look_of(emitter.cfg),
        )
    }
}
