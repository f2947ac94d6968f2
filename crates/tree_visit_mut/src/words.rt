//! A visitor of names, literals and places alone.
use crate::hooks::VisitMut;
use base_token::Span;
use tree_nodes::{BigInt, Ident, IdentName, Number, PrivateName, Str, TplElement};

/// Changes names, literals, texts of templates and places. Each hook does nothing by itself. Who needs no more than
/// these writes this trait rather than `VisitMut`, each of whose hooks is proved again for each visitor.
pub trait VisitMutWords {
    /// A name, as an expression, a pattern, a label or what an import or an export names.
    fn ident(&mut self, _ident: &mut Ident) {}

    /// A word as a key or after a dot.
    fn ident_name(&mut self, _name: &mut IdentName) {}

    fn private_name(&mut self, _name: &mut PrivateName) {}

    fn str(&mut self, _text: &mut Str) {}

    fn number(&mut self, _number: &mut Number) {}

    fn big_int(&mut self, _number: &mut BigInt) {}

    fn tpl_element(&mut self, _text: &mut TplElement) {}

    /// The place of a node, or of the dots before one.
    fn span(&mut self, _span: &mut Span) {}
}

/// A visitor that changes names, literals and places by its hooks, and no other node.
#[derive(Drop)]
pub struct Words<V> {
    pub visit: V,
}

impl<V: VisitMutWords> VisitMut for Words<V> {
    fn ident(&mut self, ident: &mut Ident) {
        self.visit.ident(ident);
    }

    fn ident_name(&mut self, name: &mut IdentName) {
        self.visit.ident_name(name);
    }

    fn private_name(&mut self, name: &mut PrivateName) {
        self.visit.private_name(name);
    }

    fn str(&mut self, text: &mut Str) {
        self.visit.str(text);
    }

    fn number(&mut self, number: &mut Number) {
        self.visit.number(number);
    }

    fn big_int(&mut self, number: &mut BigInt) {
        self.visit.big_int(number);
    }

    fn tpl_element(&mut self, text: &mut TplElement) {
        self.visit.tpl_element(text);
    }

    fn span(&mut self, span: &mut Span) {
        self.visit.span(span);
    }
}
