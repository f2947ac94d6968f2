//! The printer over a writer.
ghost use Rattle.std.specs.Prelude.{◌≡◌, None};
ghost use Rattle.print_layout_spec.specs.Layout.{laid};
ghost use Rattle.print_layout_spec.specs.declared.look.Stand.TheVariants.{Alone};
ghost use Rattle.tree_nodes.specs.Placed.{inner};
ghost use Rattle.tree_nodes.specs.View.{view_module, view_module_export_name, view_module_item, view_script};
ghost use Rattle.ecma_codegen.specs.Emits.{Emits, Notes, Stays, IsHeld};
ghost use Rattle.ecma_codegen.specs.Items.{ItemsAreProgram, item_laid};
ghost use Rattle.ecma_codegen.specs.Settings as settings;

use crate::emit::{emit_with_comments, look_of};
use lex_comments::Comments;
use print_config::Config;
use print_writers::{EmitError, WriteJs};
use std::alloc::Global;
use tree_nodes::{Module, ModuleExportName, ModuleItem, Program, Script};

/// A printer over a writer.
#[derive(Drop)]
pub struct Emitter<'a, S, W> {
    /// What allocates.
    pub alloc: Global,
    /// How the text is to look.
    pub cfg: Config,
    /// Who knows the lines of the source.
    pub cm: S,
    /// The comments of the source. Each is taken from them as it is printed.
    pub comments: Option<&'a mut Comments>,
    /// The writer.
    pub wr: W,
}

impl<'a, S, W: WriteJs> Emitter<'a, S, W> {
    /// Prints a program: its layout, or with a fault a beginning of it, and the comments up to its end.
    pub fn emit_program(&mut self, node: &Program) -> Result<(), EmitError>
        ensures value { self.old.comments ≡ None → Emits W.tells W.state (laid (settings.look_of self.old.cfg) Alone (node.now)) self.old.wr self.new.wr result }
        ensures noted { Notes W.state (laid (settings.look_of self.old.cfg) Alone (node.now)) self.old.wr result }
        ensures keeps { Stays W.state W.failed_writes W.loans self.old.wr self.new.wr result }
        ensures settings { self.new.cfg ≡ self.old.cfg }
        ensures source { self.new.cm ≡ self.old.cm }
        ensures comments { IsHeld self.old.comments self.new.comments }
    {
        emit_with_comments(node, &mut self.wr, &mut self.comments, look_of(self.cfg))
    }

    /// Prints a module: its layout, or with a fault a beginning of it, and the comments up to its end.
    pub fn emit_module(&mut self, node: &Module) -> Result<(), EmitError>
        ensures value { self.old.comments ≡ None → Emits W.tells W.state (laid (settings.look_of self.old.cfg) Alone (view_module inner node.now)) self.old.wr self.new.wr result }
        ensures noted { Notes W.state (laid (settings.look_of self.old.cfg) Alone (view_module inner node.now)) self.old.wr result }
        ensures keeps { Stays W.state W.failed_writes W.loans self.old.wr self.new.wr result }
        ensures settings { self.new.cfg ≡ self.old.cfg }
        ensures source { self.new.cm ≡ self.old.cm }
        ensures comments { IsHeld self.old.comments self.new.comments }
    {
        emit_with_comments(node, &mut self.wr, &mut self.comments, look_of(self.cfg))
    }

    /// Prints a script: its layout, or with a fault a beginning of it, and the comments up to its end.
    pub fn emit_script(&mut self, node: &Script) -> Result<(), EmitError>
        ensures value { self.old.comments ≡ None → Emits W.tells W.state (laid (settings.look_of self.old.cfg) Alone (view_script inner node.now)) self.old.wr self.new.wr result }
        ensures noted { Notes W.state (laid (settings.look_of self.old.cfg) Alone (view_script inner node.now)) self.old.wr result }
        ensures keeps { Stays W.state W.failed_writes W.loans self.old.wr self.new.wr result }
        ensures settings { self.new.cfg ≡ self.old.cfg }
        ensures source { self.new.cm ≡ self.old.cm }
        ensures comments { IsHeld self.old.comments self.new.comments }
    {
        emit_with_comments(node, &mut self.wr, &mut self.comments, look_of(self.cfg))
    }

    /// Prints a part of a module with its end: its layout, or with a fault a beginning of it, and the comments up to its end.
    pub fn emit_module_item(&mut self, node: &ModuleItem) -> Result<(), EmitError>
        ensures value { self.old.comments ≡ None → Emits W.tells W.state (item_laid (settings.look_of self.old.cfg) (view_module_item inner node.now)) self.old.wr self.new.wr result }
        ensures noted { Notes W.state (item_laid (settings.look_of self.old.cfg) (view_module_item inner node.now)) self.old.wr result }
        ensures keeps { Stays W.state W.failed_writes W.loans self.old.wr self.new.wr result }
        ensures settings { self.new.cfg ≡ self.old.cfg }
        ensures source { self.new.cm ≡ self.old.cm }
        ensures comments { IsHeld self.old.comments self.new.comments }
    {
        emit_with_comments(node, &mut self.wr, &mut self.comments, look_of(self.cfg))
    }

    /// Prints a name of an import or an export: its layout, or with a fault a beginning of it, and the comments up to its end.
    pub fn emit_module_export_name(&mut self, node: &ModuleExportName) -> Result<(), EmitError>
        ensures value { self.old.comments ≡ None → Emits W.tells W.state (laid (settings.look_of self.old.cfg) Alone (view_module_export_name node.now)) self.old.wr self.new.wr result }
        ensures noted { Notes W.state (laid (settings.look_of self.old.cfg) Alone (view_module_export_name node.now)) self.old.wr result }
        ensures keeps { Stays W.state W.failed_writes W.loans self.old.wr self.new.wr result }
        ensures settings { self.new.cfg ≡ self.old.cfg }
        ensures source { self.new.cm ≡ self.old.cm }
        ensures comments { IsHeld self.old.comments self.new.comments }
    {
        emit_with_comments(node, &mut self.wr, &mut self.comments, look_of(self.cfg))
    }
}

/// Law: the parts of a program that can be printed give its text where they are printed one after the other.
pub fn items_are_program()
    ensures { ItemsAreProgram }
{}
