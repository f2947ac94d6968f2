//! One step of a lexer, and what it leaves; that there is always a step to make, how far steps go, and that the end
//! stays: definitions and laws, without code. The laws are functions that do nothing.
#![tactic(auto)]

ghost use Rattle.lex_step_laws.specs.Laws.{EndsByFault, OneStep};
ghost use Rattle.lex_step_laws.specs.SteppingLaws.{AlwaysSteps, BoundFalls, EndStays, TellsEnds, TellsTokens};

/// Law: the token that a step hands out, and the state behind it, are determined.
pub fn one_step()
    ensures { OneStep }
{}

/// Law: behind a fault nothing comes.
pub fn fault_ends()
    ensures { EndsByFault }
{}

/// Law: a step is made from every state.
#[tactic(auto, using(crate::proofs::Steps::always_steps))]
pub fn a_step_is_made()
    ensures { AlwaysSteps }
{}

/// Law: a step that hands out a token lowers the bound on the tokens to come, and no step raises it.
#[tactic(auto, using(crate::proofs::Bounds::bound_falls))]
pub fn the_bound_falls()
    ensures { BoundFalls }
{}

/// Law: behind the end the end comes again, while no slash is asked for again and the token contexts stay.
#[tactic(auto, using(crate::proofs::Ends::end_stays))]
pub fn the_end_stays()
    ensures { EndStays }
{}

/// Law: how many tokens may come tells how many characters are left: behind the token at hand, from a slash on, and none at the end.
#[tactic(auto, using(crate::proofs::Stops::tells_tokens, crate::proofs::Stops::tells_ends))]
pub fn the_bound_tells()
    ensures tokens { TellsTokens }
    ensures ends { TellsEnds }
{}
