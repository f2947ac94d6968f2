//! Laws of the parser: what an entry for a part of a program reads of a list of tokens is a complete front of it; and what it
//! reads of a source is what it reads of a list that the source hands out. The functions here are laws alone.
#![tactic(auto)]

ghost use Rattle.parse_front_laws.specs.Exact.{FrontsAreAnsweredExactly};
ghost use Rattle.parse_front_laws.specs.Laws.{FrontsAreAnswered, PartsAreFronts};
ghost use Rattle.parse_front_laws.specs.Parameters.{ParametersEnd, ParametersExact, ParametersStandAlone};
ghost use Rattle.parse_front_laws.specs.SourceFronts.{SourceFrontsAnswered, SourceFrontsRead};
ghost use Rattle.parse_front_laws.specs.Sources.{PartsSame};
ghost use Rattle.parse_front_laws.specs.Stops.{ExpressionsStop};

pub mod complete;

use parse_source_laws::Sourced;

/// Law: what is read of a list in order as parameters without their parentheses is derived from a complete front, but where
/// the word `async` ends the last initialiser before a name on its line; each complete front is read, outside generators,
/// where nothing goes on with an initialiser that ends it; and no such name stands behind one.
#[tactic(auto)]
pub fn parameters_law()
    ensures parameters { ParametersEnd }
    ensures exact { ParametersExact }
    ensures alone { ParametersStandAlone }
{}

/// Law: what is read of a part that stands alone is derived from a complete front, nests no deeper than the
/// limit, and has nothing of a cover.
#[tactic(auto)]
pub fn fronts_law()
    ensures parts { PartsAreFronts }
{}

/// Law: what is so derived is what is read, as far as the law of completeness goes: bindings and keys before
/// whatever follows, statements and items before all but `finally` and a colon.
#[tactic(auto)]
pub fn answered_law()
    ensures parts { FrontsAreAnswered }
{}

/// Law: each complete front within the limit, with nothing of a cover, is what is read: an expression where nothing
/// goes on with it, a binding, a key, parameters, a statement, an item. Of expressions and parameters the words of the
/// list are to be of their kinds.
#[tactic(auto)]
pub fn exact_law()
    ensures parts { FrontsAreAnsweredExactly }
{}

/// Law: with what is read as an expression nothing goes on, by the table of semicolons.
#[tactic(auto)]
pub fn stops_law()
    ensures expressions { ExpressionsStop }
{}

/// Law: what an entry for a part reads of a source is what it reads of a list that the source hands out:
/// before each list that it hands out behind. What it reads of any list that the source hands out it reads
/// of the source, which then hands out the rest.
#[tactic(auto)]
pub fn sources_law<I: Sourced>()
    ensures parts { PartsSame I.machine I.live }
{}

/// Law: so what an entry reads of a source is derived from a complete front of a list that the source hands
/// out, within the limit, and with nothing of a cover; and what is so derived is what it reads of the source.
#[tactic(auto)]
pub fn source_fronts_law<I: Sourced>()
    ensures read { SourceFrontsRead I.machine I.live }
    ensures answered { SourceFrontsAnswered I.machine I.live }
{}
