//! Comments that `print_notes` writes stand where they may: between the same tokens, each once and in their order. The functions
//! here are laws alone.
#![tactic(auto)]

ghost use Rattle.print_notes_laws.specs.Characters.{CharactersWoven};
ghost use Rattle.print_notes_laws.specs.Laws.{NotesStand};

/// Law: what is written of comments between the tokens of a text is these tokens with other trivia between them, which may stand
/// there; its comments are those that were to be written, each once and in their order.
pub fn standing_law()
    ensures { NotesStand }
{}

/// Law: of texts that are UTF-8 what is written is UTF-8, and its characters are those that are written of their characters.
pub fn characters_law()
    ensures { CharactersWoven }
{}
