//! Laws of the grammar. What the reading function reads of tokens produces them, and a larger limit changes no answer but too
//! deep; it reads all that the grammar has (`complete`), tells slashes by what stands before them (`slash`), and reads in the
//! contexts that the grammar asks for (`context`). The functions here are laws alone.
#![tactic(auto)]

ghost use Rattle.grammar_laws.specs.Laws.{ClassesSound, ExpressionsSound, ListsSound, PatternsSound, ProgramsSound, StatementsSound};
ghost use Rattle.grammar_laws.specs.SteadyLaws.{LimitsKeep};

pub mod complete;
pub mod complete_base;
pub mod complete_rules;
pub mod context;
pub mod slash;

/// Law: whatever the readers answer of a list of tokens, at any depth, produces the tokens from
/// where the reading began up to where it stands: expressions of the level that was asked for,
/// patterns that bind, statements and declarations, what follows a class's name, scripts and modules.
/// What is read of a whole list derives: nothing of a cover is left in it.
#[tactic(auto)]
pub fn sound_law()
    ensures expressions { ExpressionsSound }
    ensures patterns { PatternsSound }
    ensures statements { StatementsSound }
    ensures classes { ClassesSound }
    ensures programs { ProgramsSound }
    ensures lists { ListsSound }
{}

/// Law: what is read at one limit is read at every larger one, and a token that is unexpected at one
/// limit is so at every larger one, at the same place, whatever the source of tokens, and whether or not a tree produces them.
#[tactic(auto)]
pub fn steady_law()
    ensures limits { LimitsKeep }
{}
