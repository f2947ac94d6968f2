//! Laws of a parser's stream over a source of tokens, and of the lexer as such a source: what is read of a list of
//! tokens is read of the source that hands it out, and what is read of the source is read of a list of tokens that it
//! hands out; and the tokens that tile a text are handed out by the lexer. The functions here are laws alone.
#![tactic(auto)]

ghost use Rattle.parse_lexer_laws.specs.Backward.{ParserBackward, TokensConsumed};
ghost use Rattle.parse_lexer_laws.specs.Constant.{ParserOrderly, TokensRead};
ghost use Rattle.parse_lexer_laws.specs.Escapes.{EscapesTold};
ghost use Rattle.parse_lexer_laws.specs.Handed.{NewAtStart, ReadHanded, TilesHanded};
ghost use Rattle.parse_lexer_laws.specs.Lexed.{LexerConstant, LexerRead};
ghost use Rattle.parse_lexer_laws.specs.Order.{FirstInFront, LexerHandsInOrder};
ghost use Rattle.parse_lexer_laws.specs.Standing.{LexerConsumed, LexerRereads};
ghost use Rattle.parse_lexer_laws.specs.Tiled.{DerivedTile, DerivedUsual, HandedTile, MatchedUsual};
ghost use Rattle.parse_lexer_laws.specs.WordKinds.{AsyncTold, HandsKinds, LexerTellsKinds};
ghost use Rattle.lex_source.specs.Machine.{Machine, Source};

/// A source of tokens, which of its states are good, and which are the same.
pub trait Tokened {
    ghost State: { Type 0 };

    ghost machine: { Machine State };

    ghost good: { Source State → Type 0 };

    ghost same: { Source State → Source State → Type 0 };
}

/// Law: where steps fall and the code around changes no token, the stream that a parser reads from is
/// orderly, so what is read of a list of tokens is read of a source that hands it out.
#[tactic(auto)]
pub fn tokens_law<I: Tokened>()
    ensures orderly { ParserOrderly I.machine I.good I.same }
    ensures read { TokensRead I.machine I.good I.same }
{}

/// Law: where steps fall and the code around changes no token, the stream that a parser reads from is
/// orderly backward, since a slash is read again in its place or stays; so what is read of a source of
/// tokens is read of a list of tokens that it hands out.
#[tactic(auto)]
pub fn back_law<I: Tokened>()
    ensures backward { ParserBackward I.machine I.good I.same }
    ensures consumed { TokensConsumed I.machine I.good I.same }
{}

/// Law: a lexer's steps lower a bound, and no code around changes its tokens, as long as it is of the
/// same goal; so what is read of a list of tokens is read of a lexer that hands it out.
#[tactic(auto)]
pub fn lexer_law()
    ensures constant { LexerConstant }
    ensures read { LexerRead }
{}

/// Law: a lexer reads a slash that was its last token again in its place, as a regular expression or a
/// fault; and what is read of a lexer is read of a list of tokens that it hands out.
#[tactic(auto)]
pub fn lexer_consumed_law()
    ensures rereads { LexerRereads }
    ensures consumed { LexerConsumed }
{}

/// Law: tokens that tile a text, among which each brace and each template has its partner, are those that
/// a lexer at the start of the text hands out to a parser, which reads a slash again where the text has a
/// regular expression; so the tokens by which a tree reads a text are handed out.
#[tactic(auto)]
pub fn handed_law()
    ensures starts { NewAtStart }
    ensures tiles { TilesHanded }
    ensures read { ReadHanded }
{}

/// Law: tokens that a lexer at the start of a text hands out to a parser tile the text, under any goals
/// that are those of their regions and kinds. Such are the tokens that a script or a module derives: none
/// is a fault, and each stands under a goal that is usual for it, so they tile the text where they were
/// handed out.
#[tactic(auto)]
pub fn tiled_law()
    ensures tile { HandedTile }
    ensures usual { MatchedUsual }
    ensures derived { DerivedUsual }
    ensures programs { DerivedTile }
{}

/// Law: of each token a parser tells whether it is a word that is spelled with an escape as the text has
/// it.
#[tactic(auto)]
pub fn escapes_law()
    ensures told { EscapesTold }
{}

/// Law: a source that hands out words of their kinds does so to a parser, also where a slash is read again; and the word
/// `async` by its kind is that word by its text.
#[tactic(auto)]
pub fn kinds_law<I: Tokened>()
    ensures hands { HandsKinds I.machine I.good I.same }
    ensures told { AsyncTold }
{}

/// Law: each word of a lexer is of the kind of its text, whatever was read and told before.
#[tactic(auto)]
pub fn lexer_kinds_law()
    ensures { LexerTellsKinds }
{}

/// Law: the tokens that a lexer hands out to a parser that stands in front of it are in the order of their places, each with
/// a character, but for the characters of a template, and for the fault where these don't end; so it is in front of a
/// lexer's first token.
#[tactic(auto)]
pub fn order_law()
    ensures order { LexerHandsInOrder }
    ensures starts { FirstInFront }
{}
