//! What entries for parts of programs answer, by the complete fronts of the tokens that a source hands out.

ghost use Rattle.parse_laws.specs.Parts.{LexerPartsAnswer, ListPartsAnswer, NewListPartsAnswer};
ghost use Rattle.parse_laws.specs.Parts.{NewTextPartsAnswer, SourcePartsAnswer, TextPartsAnswer};

use crate::{Entered, Lexed, Listed};

/// Law: where steps fall, the code around changes no token and words are of their kinds, a parser that an entry for a
/// part leaves behind what it answers has read a complete front of the tokens that the source hands out, in the order of
/// their places: an expression, a binding, a key, parameters, a statement or an item, within the limit, with nothing of a
/// cover; and it records the early errors of that. Each tree within the limit that has a complete front is what is
/// answered, but for want of memory: of an expression, where by the table of semicolons nothing goes on with it.
#[tactic(auto)]
pub fn sources_law<I: Entered>()
    ensures answer { SourcePartsAnswer I.machine I.state I.view I.good I.same }
{}

/// Law: so it is of a text that a lexer reads, whose words are of their kinds and whose tokens are in order, where it
/// doesn't end among the characters of a template: of a parser in front of a lexer, of a new one, and of one that
/// `Entries::new` made.
#[tactic(auto)]
pub fn texts_law<I: Lexed>()
    ensures lexers { LexerPartsAnswer I.state I.view }
    ensures answer { TextPartsAnswer I.state I.view }
    ensures made { NewTextPartsAnswer I.state I.view }
{}

/// Law: so it is of a list of tokens in the order of their places, whose words are of their kinds.
#[tactic(auto)]
pub fn lists_law<I: Listed>()
    ensures answer { ListPartsAnswer I.state I.view }
    ensures made { NewListPartsAnswer I.state I.view }
{}
