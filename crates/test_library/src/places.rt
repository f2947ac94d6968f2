//! Places for the nodes of a tree that was made by hand.
use base_token::{BytePos, Span};
use tree_visit_mut::VisitMutWords;

/// Gives each node a place of its own.
#[derive(Drop)]
pub struct Places {
    pub given: u32,
}

impl VisitMutWords for Places {
    fn span(&mut self, span: &mut Span) {
        self.given = self.given.saturating_add(1);
        let lo = BytePos(self.given);
        *span = Span { lo, hi: lo };
    }
}
