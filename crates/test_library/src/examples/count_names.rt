//! A lint that counts names.
use ecma_ast::{Hooks, Ident, Program, Visit, Walk};

/// How many names were seen.
struct Names {
    count: u64,
}

impl Visit for Names {
    fn ident(&mut self, _ident: &Ident) {
        self.count = self.count.saturating_add(1);
    }
}

/// How many names stand in a program, each counted as often as it stands there.
pub fn count_names(program: &Program) -> u64 {
    let mut hooks = Hooks {
        visit: Names { count: 0 },
    };
    program.walk(&mut hooks);
    let Hooks { visit } = hooks;
    let Names { count } = visit;
    count
}
