//! Places that the walk that changes a tree gives.

use base_token::{BytePos, Span};
use tree_nodes::Program;
use tree_visit_mut::{VisitMutWith, VisitMutWords, Words};

/// Gives each place the next number.
#[derive(Drop)]
struct Places {
    given: u32,
}

impl VisitMutWords for Places {
    fn span(&mut self, span: &mut Span) {
        self.given = self.given.saturating_add(1);
        let lo = BytePos(self.given);
        *span = Span { lo, hi: lo };
    }
}

/// Gives each node of a program a place of its own: 1, 2, 3 and so on, as the walk comes to them.
pub fn give_places(program: &mut Program) {
    program.visit_mut_with(&mut Words {
        visit: Places { given: 0 },
    });
}
