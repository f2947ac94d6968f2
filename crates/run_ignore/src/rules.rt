//! Rules of a `.gitignore` file and what they leave out.

ghost use Rattle.std.specs.Prelude.{◌≡◌, ◌↔◌, true, IfOk};
ghost use Rattle.run_ignore.specs.Rules.{RuleMatches, verdict_said, Says, LeavesOut, rules_of};
ghost use Rattle.run_ignore.specs.Lines.{AreRulesOf};
ghost use Rattle.run_ignore.specs.declared.rules.Verdict.TheVariants.{LeftOut};

use crate::lines::{add_rule, first_line};
use crate::patterns::Pattern;
use std::alloc::{AllocError, Global};

/// What the rules of one file say of a path.
#[derive(Clone, Copy)]
pub enum Verdict {
    /// The last rule that matches leaves it out.
    LeftOut,
    /// The last rule that matches takes it back, by `!`.
    TakenBack,
    /// No rule matches.
    Unsaid,
}

/// One rule: a pattern, and what it says of the paths that it matches.
#[derive(Drop)]
pub struct Rule {
    pub pattern: Pattern,
    /// The line begins with `!`.
    pub takes_back: bool,
    /// The line ends with `/`.
    pub folders_only: bool,
}

impl Rule {
    /// Whether the rule matches a path, which is a folder or not.
    ///
    /// # Errors
    ///
    /// `AllocError` where there is no memory for a row, two bytes for each piece of the pattern.
    pub fn matches(&self, alloc: Global, path: &[u8], is_dir: bool) -> Result<bool, AllocError>
        ensures { IfOk result (λ answer. (answer ≡ true) ↔ RuleMatches self.now path.now is_dir) }
    {
        if self.folders_only && !is_dir {
            return Ok(false);
        }
        self.pattern.matches(alloc, path)
    }

    /// What the rule says of the paths that it matches.
    fn verdict(&self) -> Verdict
        ensures { result ≡ verdict_said self.now }
    {
        if self.takes_back {
            Verdict::TakenBack
        } else {
            Verdict::LeftOut
        }
    }
}

/// The rules of one file, in their order.
#[derive(Drop)]
pub struct Rules {
    pub(crate) rules: Vec<Rule>,
}

impl Rules {
    /// Reads the text of a `.gitignore` file.
    ///
    /// # Errors
    ///
    /// `AllocError` where there is no memory for the rules.
    #[tactic(auto, using(crate::proofs::LineLemmas::rules_begun, crate::proofs::LineLemmas::rules_added, crate::proofs::LineLemmas::rules_done))]
    pub fn parse(alloc: Global, text: &[u8]) -> Result<Rules, AllocError>
        ensures { IfOk result (λ rules. AreRulesOf text.now (rules_of rules)) }
    {
        let mut rules = Vec::new(alloc);
        let mut rest = text;
        'lines: while !rest.is_empty() {
            let (line, behind) = first_line(rest);
            add_rule(alloc, line, &mut rules)?;
            rest = behind;
        }
        Ok(Rules { rules })
    }

    /// What the rules say of a path, whatever they say of the folders above it: so one who walks through folders asks, with the files
    /// of the folders below before those above, and enters no folder that is left out.
    ///
    /// # Errors
    ///
    /// `AllocError` where there is no memory for a row, two bytes for each piece of a pattern.
    pub fn verdict(&self, alloc: Global, path: &[u8], is_dir: bool) -> Result<Verdict, AllocError>
        ensures { IfOk result (λ verdict. Says (rules_of self.now) path.now is_dir verdict) }
    {
        verdict_of(alloc, &self.rules, path, is_dir)
    }

    /// Whether the rules leave a path out: itself, or a folder above it.
    ///
    /// # Errors
    ///
    /// As for `verdict`.
    pub fn leaves_out(&self, alloc: Global, path: &[u8], is_dir: bool) -> Result<bool, AllocError>
        ensures { IfOk result (λ answer. (answer ≡ true) ↔ LeavesOut (rules_of self.now) path.now is_dir) }
    {
        for (at, byte) in path.iter().enumerate() {
            if *byte == b'/' && is_left_out(alloc, &self.rules, &path[..at], true)? {
                return Ok(true);
            }
        }
        is_left_out(alloc, &self.rules, path, is_dir)
    }
}

/// What the last rule that matches says.
fn verdict_of(
    alloc: Global,
    rules: &[Rule],
    path: &[u8],
    is_dir: bool,
) -> Result<Verdict, AllocError>
    ensures { IfOk result (λ verdict. Says rules.now path.now is_dir verdict) }
{
    let mut at = rules.len();
    while at > 0 {
        at -= 1;
        let rule = &rules[at];
        if rule.matches(alloc, path, is_dir)? {
            return Ok(rule.verdict());
        }
    }
    Ok(Verdict::Unsaid)
}

/// Whether the last rule that matches leaves the path out.
fn is_left_out(alloc: Global, rules: &[Rule], path: &[u8], is_dir: bool) -> Result<bool, AllocError>
    ensures { IfOk result (λ answer. (answer ≡ true) ↔ Says rules.now path.now is_dir LeftOut) }
{
    match verdict_of(alloc, rules, path, is_dir)? {
        Verdict::LeftOut => Ok(true),
        Verdict::TakenBack | Verdict::Unsaid => Ok(false),
    }
}
