//! How the tokens of a text lie in it, how many there are, and that a lexer reads the tokens of a text again in its
//! canonical text: laws of lists of steps of a lexer, as functions that do nothing.
#![tactic(auto)]

ghost use Rattle.lex_run_laws.specs.CanonicalLaws.{CanonicalReads};
ghost use Rattle.lex_run_laws.specs.TilingLaws.{SpansRise, TilesText, TwoTokensAByte};

/// Law: steps in which no slash is read again hand out at most twice as many tokens as the text has bytes.
#[tactic(auto, using(crate::proofs::Room::two_tokens_a_byte))]
pub fn at_most_two_tokens_a_byte()
    ensures { TwoTokensAByte }
{}

/// Law: in steps to the end, with no error token and no slash read again, the tokens and the trivia between them
/// tile the text.
#[tactic(auto, using(crate::proofs::Tiles::tiles_text))]
pub fn tokens_and_trivia_tile_the_text()
    ensures { TilesText }
{}

/// Law: in steps with no slash read again each token begins where the one before it ends or later, and all lie in the
/// text, error tokens too.
#[tactic(auto, using(crate::proofs::Spans::spans_rise))]
pub fn places_of_tokens_rise()
    ensures { SpansRise }
{}

/// Law: of a text that is read to its end with no error token, while nobody sets the token contexts, the canonical
/// text of the tokens that were kept gives the same tokens and marks, each in its new place, to a reader that tells
/// the same and asks for the same slashes.
#[tactic(auto, using(crate::proofs::Again::canonical_reads))]
pub fn a_lexer_reads_a_canonical_text_again()
    ensures { CanonicalReads }
{}
