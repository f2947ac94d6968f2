//! Laws of the parser: what it reads of a source is what the grammar derives from the tokens that the source hands out, exactly;
//! from the first token of a source on, of a list of tokens, and of a text through a lexer; and what its entries promise of a new
//! parser is what the grammar says of these. The functions here are laws alone.
#![tactic(auto)]

ghost use Rattle.lex_step_laws.specs.States.{State};
ghost use Rattle.parse_laws.specs.Answered.{EntriesAnswer};
ghost use Rattle.parse_laws.specs.Chosen.{ListsChosen, NewChosen, NewListChosen, SourcesChosen, TextsChosen};
ghost use Rattle.parse_laws.specs.Exact.{OneProgram, ProgramsExact};
ghost use Rattle.parse_laws.specs.ListRead.{ListConstant, ListHands, ListsSettled};
ghost use Rattle.parse_laws.specs.Lists.{ListsAnswered, NewListAnswered};
ghost use Rattle.parse_laws.specs.Parsed.{ProgramsJudged};
ghost use Rattle.parse_laws.specs.Settled.{FirstSettled};
ghost use Rattle.parse_laws.specs.TextRead.{ReadingSettled, TextsSettled};
ghost use Rattle.parse_laws.specs.Texts.{NewAnswered, NewOutcome, NewReading, TextsAnswered};
ghost use Rattle.base_token.specs.Tokens.{Spot};
ghost use Rattle.lex_source.specs.Machine.{Source, Machine};
ghost use Rattle.tree_spec.specs.Tree.{Tree};
ghost use Rattle.std.specs.Prelude.{Bool, List};

use parse_lexer_laws::Tokened;
use parse_source_laws::Sourced;

pub mod parts;

/// Law: a script or a module that is read of a source within a limit of nesting is the only one that
/// derives tokens which the source hands out. Where a token is unexpected none is derived, and where
/// reading is too deep each that is derived nests deeper than the limit.
#[tactic(auto)]
pub fn parsed_law<I: Sourced>()
    ensures programs { ProgramsJudged I.machine I.live }
{}

/// Law: a script or a module that is read of a source within a limit of nesting derives tokens which
/// the source hands out, and nests no deeper than the limit. Each that derives tokens which the source
/// hands out, in the order of their places, and nests no deeper, is what is read. So at most one does,
/// of whatever nesting.
#[tactic(auto)]
pub fn exact_law<I: Sourced>()
    ensures programs { ProgramsExact I.machine I.live }
    ensures one { OneProgram I.machine I.live }
{}

/// Law: where steps fall and the code around changes no token, a script or a module that is read within a
/// limit of nesting, from the first token of a good source on, is the only one that derives tokens which
/// the source hands out, and what derives such tokens within the limit is read. Where a token is
/// unexpected no tree of any nesting does, and where reading is too deep each that does nests deeper.
#[tactic(auto)]
pub fn first_law<I: Tokened>()
    ensures settled { FirstSettled I.machine I.good I.same }
{}

/// Law: a list of tokens is such a source, whatever it is told. In the order of their places it hands out
/// its tokens and no others, so what is read of it within a limit of nesting is the only script or module
/// that is derived from the whole list.
#[tactic(auto)]
pub fn list_law()
    ensures constant { ListConstant }
    ensures hands { ListHands }
    ensures settled { ListsSettled }
{}

/// Law: a script or a module that is read within a limit of nesting, through a lexer that stands at the
/// start of a text, reads the text, and no other tree does; a tree that reads the text within the limit is
/// what is read. A token is unexpected only where no tree of any nesting reads the text, and reading is
/// too deep only where each that does nests deeper. So is what reading the text comes to (`read_text`).
#[tactic(auto)]
pub fn text_law()
    ensures settled { TextsSettled }
    ensures outcome { ReadingSettled }
{}

/// What a parser reads from, as a source of tokens: which of its states are good, and which are the same;
/// and what an entry answers, with its tree.
pub trait Entered {
    ghost Input: { Type 0 };

    ghost State: { Type 0 };

    ghost machine: { Machine State };

    ghost state: { Input → Source State };

    ghost good: { Source State → Type 0 };

    ghost same: { Source State → Source State → Type 0 };

    ghost Answer: { Type 0 };

    ghost view: { Answer → Tree };
}

/// Law: a parser that read no token yet answers a script or a module only where it is the one tree that
/// is derived, within the limit, from tokens that the source hands out, and records its early errors.
/// Where such a tree is derived it is answered, but for want of memory. A fault of another kind than want
/// of memory and too deep is answered only where no tree of any nesting is derived, too deep only where
/// each that is derived nests deeper, and then no fault is recorded.
#[tactic(auto)]
pub fn entries_law<I: Entered>()
    ensures answer { EntriesAnswer I.machine I.state I.good I.same I.view }
{}

/// What a parser reads a text by, a lexer or a `Capturing` of one, with what stands behind it; and what an
/// entry answers, with its tree.
pub trait Lexed {
    ghost Input: { Type 0 };

    ghost state: { Input → State };

    ghost Answer: { Type 0 };

    ghost view: { Answer → Tree };
}

/// Law: a new parser of a text answers a script or a module, and records no fault, exactly where that is
/// the tree which spells the text, but for want of memory; no other tree reads the text. A fault of
/// another kind than want of memory and too deep is answered only where no tree of any nesting reads the
/// text, too deep only where each that does nests deeper, and then no fault is recorded. So it is of a
/// parser that `Entries::new` made, by what that promises. Of that `read_script` and `read_module` answer
/// the only tree that reads the text, or a failure in the same way; and that is what reading the text
/// comes to, by its characters and the settings alone (`read_text`): too deep exactly where that is, and a
/// fault exactly where a token is unexpected there, but for want of memory.
#[tactic(auto)]
pub fn texts_law<I: Lexed>()
    ensures answer { TextsAnswered I.state I.view }
    ensures made { NewAnswered I.state I.view }
    ensures reading { NewReading I.state I.view }
    ensures outcome { NewOutcome I.state I.view }
{}

/// What a parser reads a list of tokens by, a `TokensInput` or a `Capturing` of one, with what stands behind
/// it; and what an entry answers, with its tree.
pub trait Listed {
    ghost Input: { Type 0 };

    ghost state: { Input → Source (List Spot) };

    ghost Answer: { Type 0 };

    ghost view: { Answer → Tree };
}

/// Law: a new parser of a list of tokens, which stand in the order of their places, answers a script or a
/// module, and records no fault, exactly where that is the tree which is derived from the whole list,
/// within the limit and with no early error, but for want of memory; no other tree is derived from it. A
/// fault of another kind than want of memory and too deep is answered only where no tree of any nesting
/// is, too deep only where each that is nests deeper, and then no fault is recorded. So it is of a parser
/// over what `TokensInput::new` made, by what that promises.
#[tactic(auto)]
pub fn lists_law<I: Listed>()
    ensures answer { ListsAnswered I.state I.view }
    ensures made { NewListAnswered I.state I.view }
{}

/// Law: of a text of which neither script nor module is said, a new parser answers a tree, and records no
/// fault, exactly where it is the tree that is chosen (`TreeChosen`): the module that spells the text and
/// tells that it is one; or the script, where there is none. Where there is none the answer is else that
/// of the script. Of want of memory nothing is said.
#[tactic(auto)]
pub fn chosen_law<I: Lexed>()
    ensures answer { TextsChosen I.state }
    ensures made { NewChosen I.state }
{}

/// Law: the same of a list of tokens, which stand in the order of their places.
#[tactic(auto)]
pub fn list_chosen_law<I: Listed>()
    ensures answer { ListsChosen I.state }
    ensures made { NewListChosen I.state }
{}

/// What a parser reads from where neither script nor module is said, as a source of tokens: which of its
/// states are good as either, and which are the same.
pub trait Undecided {
    ghost Input: { Type 0 };

    ghost State: { Type 0 };

    ghost machine: { Machine State };

    ghost state: { Input → Source State };

    ghost good: { Bool → Source State → Type 0 };

    ghost same: { Source State → Source State → Type 0 };
}

/// Law: the same of any source of tokens, which, told the code of either, ends, changes no token by the code
/// around, and hands out its tokens in the order of their places.
#[tactic(auto)]
pub fn source_chosen_law<I: Undecided>()
    ensures answer { SourcesChosen I.machine I.state I.good I.same }
{}
