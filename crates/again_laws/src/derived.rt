//! A tree whose spellings are those of the text written of it: laws of what it has in common with the tree.

ghost use Rattle.again_laws.specs.Derived.Begins.{NamesBeginThere};
ghost use Rattle.again_laws.specs.Derived.Laws.{CleanAlike, LegalAlike, NamesAlike, NestsAlike, SameProgram};

/// Law: it nests as deep, and nothing of a cover is left in it where nothing was.
#[tactic(auto)]
pub fn shape_law()
    ensures nesting { NestsAlike }
    ensures clean { CleanAlike }
{}

/// Law: where what is written of each leaf tells what the leaf told, it is the same program, and has no early error
/// where the tree has none.
#[tactic(auto)]
pub fn program_law()
    ensures program { SameProgram }
    ensures legal { LegalAlike }
{}

/// Law: it has as many names, each the same name, and the i-th of the one stands for the i-th of the other.
#[tactic(auto)]
pub fn names_law()
    ensures names { NamesAlike }
{}

/// Law: the names of what is derived begin where its tokens do.
#[tactic(auto)]
pub fn places_law()
    ensures places { NamesBeginThere }
{}
