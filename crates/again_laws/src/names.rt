//! Names come in the order of their places.

ghost use Rattle.again_laws.specs.Names.{NamesAreTokens, NamesAscend, NamesOfTextsAscend};

/// Law: the names of what is derived are among its tokens, in the order of these. So where the tokens are in order, as
/// those that tile a text are, each name begins behind the one before it.
#[tactic(auto)]
pub fn order_law()
    ensures tokens { NamesAreTokens }
    ensures places { NamesAscend }
    ensures texts { NamesOfTextsAscend }
{}
