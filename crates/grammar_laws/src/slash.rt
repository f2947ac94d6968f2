//! Laws of lexical goals: the tokens before a slash tell whether it is an operator or opens a regular expression, and
//! those before a brace whether it ends a template's substitution. The functions here are laws alone.

ghost use Rattle.grammar_laws.specs.Slash.SlashLaws.{SlashesTold};
ghost use Rattle.grammar_laws.specs.Slash.TemplateLaws.{ProgramsMatch};

/// Law: after the same tokens a slash is an operator or opens a regular expression, never both. Of two
/// lists that begin alike and go on with the one and with the other, not both are read.
#[tactic(auto)]
pub fn slashes_law()
    ensures told { SlashesTold }
{}

/// Law: in the tokens of a script or a module each brace and each template has its partner. So the tokens
/// before a token tell whether it stands among a template's characters or ends them.
#[tactic(auto)]
pub fn templates_law()
    ensures braces { ProgramsMatch }
{}
