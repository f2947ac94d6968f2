//! Laws of the grammar: reading from a source of tokens is reading from the list that it hands out, and what is read of a source
//! is read of a list that it hands out. The functions here are laws alone.
#![tactic(auto)]

ghost use Rattle.grammar_spec.specs.Reader.Source.{Stream};
ghost use Rattle.parse_source_laws.specs.Ahead.{OneAhead};
ghost use Rattle.parse_source_laws.specs.Consumed.{PartsConsumed, ProgramsConsumed};
ghost use Rattle.parse_source_laws.specs.Laws.{ProgramsRead, PartsRead};

/// A source of tokens, and its states that a reading comes to.
pub trait Sourced {
    ghost State: { Type 0 };

    ghost machine: { Stream State };

    ghost live: { State → Type 0 };
}

/// Law: what is read of a list is read of any source that hands it out, by calls as deep: a script, a
/// module, or a part of one, after which the source hands out the rest of the list.
#[tactic(auto)]
pub fn sources_law<I: Sourced>()
    ensures programs { ProgramsRead I.machine I.live }
    ensures parts { PartsRead I.machine I.live }
{}

/// Law: what is read of a source is read of a list that it hands out, by calls as deep: a script, a
/// module, or a part of one, before each list that the source hands out behind it.
#[tactic(auto)]
pub fn consumed_law<I: Sourced>()
    ensures programs { ProgramsConsumed I.machine I.live }
    ensures parts { PartsConsumed I.machine I.live }
{}

/// Law: reading depends on the tokens that it takes and the next one alone. What is read of a front of a
/// list is read of the same front before any other rest that begins with that token; after an expression
/// also what follows it counts, where it is `?`, and where `async` stands before a word on its line.
#[tactic(auto)]
pub fn ahead_law()
    ensures parts { OneAhead }
{}
