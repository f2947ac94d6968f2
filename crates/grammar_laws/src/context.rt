//! Laws of the grammar: each token has the lexical goal and the context of its production, and its tokens
//! alone tell a program. The functions here are laws alone.

ghost use Rattle.grammar_laws.specs.Context.Laws.{HasPlaces, OneModuleOfTokens, OneScriptOfTokens, ReadHasPlaces};

/// Law: what produces tokens produces them under the lexical goals and in the contexts that the productions
/// give their places. So what is read of a list of tokens derives these tokens in such places.
#[tactic(auto)]
pub fn places_law()
    ensures spelled { HasPlaces }
    ensures read { ReadHasPlaces }
{}

/// Law: at most one script, and at most one module, derives the same tokens, whatever goals and contexts
/// two derivations give to their places.
#[tactic(auto)]
pub fn tokens_law()
    ensures script { OneScriptOfTokens }
    ensures module { OneModuleOfTokens }
{}
