//! The rules of one layer, over anything that stands in front of tokens.
ghost use Rattle.std.specs.Prelude.{IfOk};
ghost use Rattle.tree_nodes.specs.Fits.{fits_block_stmt, fits_class};
ghost use Rattle.tree_nodes.specs.Placed.{holds_pat, holds_stmt};
ghost use Rattle.grammar_spec.specs.Reader.Source as spec;
ghost use Rattle.grammar_spec.specs.Reader.Source.{Inner, Stream};
ghost use Rattle.grammar_spec.specs.Reader.Expressions as reads;
ghost use Rattle.grammar_spec.specs.Reader.Statements as stmts;
ghost use Rattle.parse_state.specs.Codes.{code_of};
ghost use Rattle.parse_state.specs.Reads.{ShorterOver};
ghost use Rattle.parse_operands.specs.Rules.{ReadsExpr, ReadsPat, ReadsStmt, ReadsBody, ReadsClassTail};

use base_token::BytePos;
use parse_operands::Operand;
use parse_state::{Around, Failure};
use tree_nodes::{BlockStmt, Class, PatBox, StmtBox};

/// What stands in front of tokens.
pub trait Stood {
    ghost State: { Type 0 };

    ghost machine: { Stream State };

    ghost stood: { Self → spec.State State };
}

/// The parsers of nested parts, at one depth, for what stands in front of tokens.
pub trait Inside<P: Stood> {
    /// What they read.
    ghost reads: { Self → (S : Type 0) → Stream S → Inner S };

    /// That they may be called, and read that.
    ghost ready: { Self → Type 0 };

    /// An expression of a level or a tighter one.
    fn expr(&self, p: &mut P, code: Around, level: u8) -> Result<Operand, Failure>
        requires { ready self.now }
        ensures value { ReadsExpr P.machine P.stood p.old p.new result
            ((reads self.now P.State P.machine).expr (code_of code) level) }
        ensures shorter { ShorterOver P.machine P.stood p.old p.new result };

    /// A binding: a name or a pattern.
    fn pat(&self, p: &mut P, code: Around) -> Result<PatBox, Failure>
        requires { ready self.now }
        ensures value { ReadsPat P.machine P.stood p.old p.new result
            ((reads self.now P.State P.machine).pat (code_of code)) }
        ensures holds { IfOk result (λ x. holds_pat x.part.value) }
        ensures shorter { ShorterOver P.machine P.stood p.old p.new result };

    /// A statement; where the code says so, a declaration.
    fn stmt(&self, p: &mut P, code: Around) -> Result<StmtBox, Failure>
        requires { ready self.now }
        ensures value { ReadsStmt P.machine P.stood p.old p.new result
            ((reads self.now P.State P.machine).stmt (code_of code)) }
        ensures holds { IfOk result (λ x. holds_stmt x.part.value) }
        ensures shorter { ShorterOver P.machine P.stood p.old p.new result };

    /// A function's body in its braces.
    fn body(&self, p: &mut P, code: Around) -> Result<BlockStmt, Failure>
        requires { ready self.now }
        ensures value { ReadsBody P.machine P.stood p.old p.new result
            ((reads self.now P.State P.machine).body (code_of code)) }
        ensures fits { IfOk result (λ x. fits_block_stmt (λ p. p) x) }
        ensures shorter { ShorterOver P.machine P.stood p.old p.new result };

    /// What follows a class's name. The span of the class starts at `whole`.
    fn class_tail(&self, p: &mut P, code: Around, whole: BytePos) -> Result<Box<Class>, Failure>
        requires { ready self.now }
        ensures value { ReadsClassTail P.machine P.stood p.old p.new result
            ((reads self.now P.State P.machine).class_tail (code_of code) whole.0) }
        ensures fits { IfOk result (λ x. fits_class (λ p. p) x.value) }
        ensures shorter { ShorterOver P.machine P.stood p.old p.new result };
}

/// The rules of one layer.
pub trait Layer: Stood + Sized {
    /// An expression of a level or a tighter one.
    fn read_expr<N: Inside<Self>>(
        &mut self,
        nested: &N,
        code: Around,
        level: u8,
    ) -> Result<Operand, Failure>
        requires { N.ready nested.now }
        ensures value { ReadsExpr Self.machine Self.stood self.old self.new result
            (reads.expr_by Self.machine (N.reads nested.now Self.State Self.machine) (code_of code) level) }
        ensures shorter { ShorterOver Self.machine Self.stood self.old self.new result };

    /// A binding: a name or a pattern.
    fn read_pat<N: Inside<Self>>(&mut self, nested: &N, code: Around) -> Result<PatBox, Failure>
        requires { N.ready nested.now }
        ensures value { ReadsPat Self.machine Self.stood self.old self.new result
            (stmts.pat_by Self.machine (N.reads nested.now Self.State Self.machine) (code_of code)) }
        ensures holds { IfOk result (λ x. holds_pat x.part.value) }
        ensures shorter { ShorterOver Self.machine Self.stood self.old self.new result };

    /// A statement; where the code says so, a declaration.
    fn read_stmt<N: Inside<Self>>(&mut self, nested: &N, code: Around) -> Result<StmtBox, Failure>
        requires { N.ready nested.now }
        ensures value { ReadsStmt Self.machine Self.stood self.old self.new result
            (stmts.stmt_from Self.machine (N.reads nested.now Self.State Self.machine) (code_of code)) }
        ensures holds { IfOk result (λ x. holds_stmt x.part.value) }
        ensures shorter { ShorterOver Self.machine Self.stood self.old self.new result };

    /// A function's body in its braces.
    fn read_body<N: Inside<Self>>(&mut self, nested: &N, code: Around) -> Result<BlockStmt, Failure>
        requires { N.ready nested.now }
        ensures value { ReadsBody Self.machine Self.stood self.old self.new result
            (stmts.body_by Self.machine (N.reads nested.now Self.State Self.machine) (code_of code)) }
        ensures fits { IfOk result (λ x. fits_block_stmt (λ p. p) x) }
        ensures shorter { ShorterOver Self.machine Self.stood self.old self.new result };

    /// What follows a class's name. The span of the class starts at `whole`.
    fn read_class_tail<N: Inside<Self>>(
        &mut self,
        nested: &N,
        code: Around,
        whole: BytePos,
    ) -> Result<Box<Class>, Failure>
        requires { N.ready nested.now }
        ensures value { ReadsClassTail Self.machine Self.stood self.old self.new result
            (stmts.class_tail_by Self.machine (N.reads nested.now Self.State Self.machine) (code_of code) whole.0) }
        ensures fits { IfOk result (λ x. fits_class (λ p. p) x.value) }
        ensures shorter { ShorterOver Self.machine Self.stood self.old self.new result };
}
