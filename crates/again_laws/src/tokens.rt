//! What the text of a layout says: which tokens, in which places, and what each text means. The functions here are laws alone.

ghost use Rattle.again_laws.specs.Tokens.Laws.{LayoutsTell, MarksTell, WordsTell, OperatorsTell, TokensAreKnown};

/// Law: the tokens that a layout says are told, one after another, to whatever goes on behind them.
#[tactic(auto)]
pub fn layouts_tell()
    ensures { LayoutsTell }
{}

/// Law: the text of a punctuator, a word or an operator is a token of its kind, and no other.
#[tactic(auto)]
pub fn tables_tell()
    ensures marks { MarksTell }
    ensures words { WordsTell }
    ensures operators { OperatorsTell }
{}

/// Law: what is known of a token holds of each that tiles a text: it is read at the front of some text of scalar values.
#[tactic(auto)]
pub fn tokens_are_known()
    ensures { TokensAreKnown }
{}
