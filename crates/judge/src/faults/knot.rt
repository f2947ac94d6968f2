//! Expressions, statements, patterns and programs.
ghost use Rattle.std.specs.Prelude.{◌≡◌, ◌++◌, IfOk};
ghost use Rattle.tree_nodes.specs.Placed.{inner};
ghost use Rattle.tree_visit.specs.Spine.Chains.{Linked};
ghost use Rattle.judge.specs.Base.Around.{scope_of};
ghost use Rattle.judge.specs.Faults.Rights.{right_faults};

use crate::base::Code;
use crate::faults::check::Check;
use base_token::Error;
use std::alloc::AllocError;
use tree_nodes::{Expr, ExprKind, OptChainBase, Part, PartKind, Pat, Program, Stmt, StmtKind};
use tree_visit::spine::chain::{below, links};

impl Check for Part {
    ghost tree = { inner };

    #[cycle(check)]
    fn check(&self, code: Code<'_>, faults: &mut Vec<Error>) -> Result<(), AllocError> {
        match &self.sort {
            PartKind::Expr(x) => x.check(code, faults),
            PartKind::Stmt(x) => x.check(code, faults),
            PartKind::Pat(x) => x.check(code, faults),
        }
    }
}

impl Check for Expr {
    ghost tree = { λ t. t };

    #[cycle(check)]
    #[tactic(auto, using(crate::proofs::faults::Rights::at_the_top))]
    fn check(&self, code: Code<'_>, faults: &mut Vec<Error>) -> Result<(), AllocError> {
        let links = links(self);
        if links == 0 {
            return self.kind.check(code, faults);
        }
        below(self, links).check(code, faults)?;
        check_rights(self, links, code, faults)?;
        Ok(())
    }
}

/// Puts the faults of what stands right of the left part of so many links behind the others, the innermost first: those of the
/// inner half, then those of the outer half, so that no chain is too long for the stack.
#[cycle(check)]
#[tactic(auto, using(crate::proofs::faults::Rights::rights))]
fn check_rights(
    top: &Expr,
    links: u32,
    code: Code<'_>,
    faults: &mut Vec<Error>,
) -> Result<(), AllocError>
    requires linked { Linked links top.now }
    ensures { IfOk result (λ _. faults.new.items ≡ faults.old.items ++ right_faults links top.now (scope_of code.entry)) }
{
    match links {
        0 => {}
        1 => match &top.kind {
            ExprKind::Bin(x) => x.right.check(code, faults)?,
            ExprKind::Member(x) => x.prop.check(code, faults)?,
            ExprKind::Call(x) => x.args.check(code, faults)?,
            ExprKind::TaggedTpl(x) => x.tpl.check(code, faults)?,
            ExprKind::OptChain(x) => match &x.base {
                OptChainBase::Member(member) => member.prop.check(code, faults)?,
                OptChainBase::Call(call) => call.args.check(code, faults)?,
            },
            _ => {}
        },
        _ => {
            let outer = links / 2;
            check_rights(below(top, outer), links - outer, code, faults)?;
            check_rights(top, outer, code, faults)?;
        }
    }
    Ok(())
}

impl Check for Stmt {
    ghost tree = { λ t. t };

    #[cycle(check)]
    fn check(&self, code: Code<'_>, faults: &mut Vec<Error>) -> Result<(), AllocError> {
        let mut stmt = self;
        while let StmtKind::If(branch) = &stmt.kind {
            branch.test.check(code, faults)?;
            branch.cons.check(code, faults)?;
            match &branch.alt {
                Some(alt) => stmt = alt.get(),
                None => return Ok(()),
            }
        }
        stmt.kind.check(code, faults)
    }
}

impl Check for Pat {
    ghost tree = { λ t. t };

    #[cycle(check)]
    fn check(&self, code: Code<'_>, faults: &mut Vec<Error>) -> Result<(), AllocError> {
        self.kind.check(code, faults)
    }
}

impl Check for Program {
    ghost tree = { λ t. t };

    fn check(&self, code: Code<'_>, faults: &mut Vec<Error>) -> Result<(), AllocError> {
        self.kind.check(code, faults)
    }
}
