//! Programs that tell that they are modules (ECMA-262, 16.2).
ghost use Rattle.std.specs.Prelude.{◌≡◌};
ghost use Rattle.tree_nodes.specs.Placed.{inner};
ghost use Rattle.tree_nodes.specs.View.{view_module, view_module_item};
ghost use Rattle.grammar_text_spec.specs.Choice.{tells_module};

use crate::parts::Tells;
use tree_nodes::{Module, ModuleItemOf};

/// Whether a program that was read as a module tells that it is one: it has an import or an export, or outside functions
/// an `await`, an awaiting `for` or an awaiting `using`. It takes no memory.
#[tactic(auto, unfolding(grammar_text_spec::specs::Choice::tells_module))]
pub fn tells_module(program: &Module) -> bool
    ensures { result ≡ tells_module (view_module inner program.now) }
{
    program.body.tells()
}

impl<T: Tells> Tells for ModuleItemOf<T> {
    ghost tree = { view_module_item T.tree };

    fn tells(&self) -> bool {
        match self {
            ModuleItemOf::ModuleDecl(_) => true,
            ModuleItemOf::Stmt(x) => x.tells(),
        }
    }
}
