//! Laws of the grammar: what a tree produces is read within the limit of nesting, and no other tree produces it. The
//! functions here are laws alone.

ghost use Rattle.grammar_laws.specs.Complete.Laws.{ExpressionsComplete, ModulesComplete, NoModule, NoScript, OneExpression, OneModule, OnePattern, OneScript, PatternsComplete, ScriptsComplete};

/// Law: what an expression produces, up to what doesn't go on at the level that is asked for, is what the
/// reader of expressions answers of these tokens, at every limit, or the expression nests deeper than
/// the limit. So no other expression produces them. The same holds of patterns that bind.
#[tactic(auto)]
pub fn parts_law()
    ensures expressions { ExpressionsComplete }
    ensures one_expression { OneExpression }
    ensures patterns { PatternsComplete }
    ensures one_pattern { OnePattern }
{}

/// Law: a script that derives a list of tokens is what is read of the list, at every limit, or it nests
/// deeper than the limit. So no other script derives the list; and where a token is unexpected at one
/// limit, none derives it at all.
#[tactic(auto)]
pub fn scripts_law()
    ensures scripts { ScriptsComplete }
    ensures one { OneScript }
    ensures no { NoScript }
{}

/// Law: the same of modules.
#[tactic(auto)]
pub fn modules_law()
    ensures modules { ModulesComplete }
    ensures one { OneModule }
    ensures no { NoModule }
{}
