//! What encloses a place of a text, as far as a lexer has to know.
ghost use Rattle.std.specs.Prelude.{◌≡◌, ◌==◌, [], ◌∷◌, length, take, IfOk, OnErr, OnOk};
ghost use Rattle.lex_source.specs.Contexts.{outward, innermost, without_innermost};

use smallvec::SmallVec;
use std::alloc::{AllocError, Global};

/// What encloses a place. A lexer keeps templates, their `${` and the braces inside these.
#[derive(Clone, Copy, Debug, Default, PartialEq, Eq)]
pub enum TokenContext {
    /// The braces of statements.
    #[default]
    BraceStmt,
    /// The braces of an object.
    BraceExpr,
    /// The `${` of a template.
    TplQuasi,
    /// The parentheses of a statement.
    ParenStmt { is_for_loop: bool },
    /// The parentheses of an expression.
    ParenExpr,
    /// A template.
    Tpl,
    /// A function that is an expression.
    FnExpr,
    /// A class that is an expression.
    ClassExpr,
}

/// What encloses a place. Up to 16 take no memory. A contract sees the list, the innermost first.
#[derive(Debug, Drop)]
pub struct TokenContexts {
    open: SmallVec<TokenContext, 16>,
}

impl TokenContexts {
    /// Nothing encloses the place.
    #[tactic(auto, unfolding(crate::specs::Contexts::outward))]
    pub fn new(alloc: Global) -> TokenContexts
        ensures { outward result ≡ [] }
    {
        TokenContexts {
            open: SmallVec::new(alloc),
        }
    }

    /// How many there are.
    #[tactic(auto, using(crate::proofs::ContextLemmas::lengths), unfolding(crate::specs::Contexts::outward))]
    pub fn len(&self) -> usize
        ensures { result ≡ length (outward self.now) }
    {
        self.open.len()
    }

    /// Whether nothing encloses the place.
    #[tactic(auto, using(crate::proofs::ContextLemmas::lengths), unfolding(crate::specs::Contexts::outward))]
    pub fn is_empty(&self) -> bool
        ensures { result ≡ (length (outward self.now) == 0) }
    {
        self.open.is_empty()
    }

    /// The innermost.
    #[tactic(auto, using(crate::proofs::ContextLemmas::current_is), unfolding(crate::specs::Contexts::outward))]
    pub fn current(&self) -> Option<TokenContext>
        ensures { result ≡ innermost (outward self.now) }
    {
        self.open.as_slice().last().copied()
    }

    /// Leaves the innermost, and answers it.
    #[tactic(auto, using(crate::proofs::ContextLemmas::pops), unfolding(crate::specs::Contexts::outward))]
    pub fn pop(&mut self) -> Option<TokenContext>
        ensures answer { result ≡ innermost (outward self.old) }
        ensures left { outward self.new ≡ without_innermost (outward self.old) }
    {
        self.open.pop()
    }

    /// Enters one more, which is then the innermost.
    ///
    /// # Errors
    ///
    /// Want of memory. Nothing changes then.
    #[tactic(auto, using(crate::proofs::ContextLemmas::reverse_push), unfolding(crate::specs::Contexts::outward))]
    pub fn push(&mut self, context: TokenContext) -> Result<(), AllocError>
        ensures entered { OnOk result (outward self.new ≡ context ∷ outward self.old) }
        ensures unchanged { OnErr result (self.new ≡ self.old) }
    {
        self.open.push(context)?;
        Ok(())
    }

    /// The innermost two once more, or as many as there are. It takes no memory.
    #[tactic(auto, using(crate::proofs::ContextLemmas::last_two), unfolding(crate::specs::Contexts::outward))]
    pub fn innermost_two(&self) -> TokenContexts
        ensures { outward result ≡ take 2 (outward self.now) }
    {
        let open = self.open.as_slice();
        let (_, last) = open.split_at(open.len().saturating_sub(2));
        match SmallVec::from_slice(*self.open.allocator(), last) {
            Ok(open) => TokenContexts { open },
            Err(_) => unreachable!(),
        }
    }

    /// The same contexts once more.
    ///
    /// # Errors
    ///
    /// Want of memory, where there are more than 16.
    #[tactic(auto, unfolding(crate::specs::Contexts::outward))]
    pub fn try_clone(&self) -> Result<TokenContexts, AllocError>
        ensures { IfOk result (λ c. outward c ≡ outward self.now) }
    {
        let open = SmallVec::from_slice(*self.open.allocator(), self.open.as_slice())?;
        Ok(TokenContexts { open })
    }
}
