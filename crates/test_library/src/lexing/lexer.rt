//! What holds where memory runs out. With `rt try --test --fail-alloc N` the Nth allocation fails; these tests pass
//! for each N, and without it.

use crate::lexing::made::ok;
use base_token::{BytePos, Context, DUMMY_SP, Error, EsVersion, Syntax, SyntaxError, TokenAndSpan};
use ecma_lexer::{Lexer, TokenContext, TokenContexts, Tokens, canonical_text};
use lex_other_sources::Capturing;
use std::alloc::Global;
use std::process::Abort;
use std::test::Fail;

/// A text whose tokens, contexts, faults and comments take memory.
const WANTING: &str =
    "a /*b*/ \\u0061 'a\\n' `\\n${`${`${`${`${`${`${`${`${c}`}`}`}`}`}`}`}`}` 1_0n 010 '\\8' // d";

/// A text for which none is taken.
const CONTENT: &str = "#!x\n/*a*/ b + 'c' / 1.5 `d${{ e: 1n }}f` //g\n";

fn lexer<'a>(alloc: Global, text: &'a str, keeps: bool) -> Result<Lexer<'a>, Fail> {
    if text.len() > 1000 {
        return Err(Fail::from("too long"));
    }
    let syntax = Syntax::default();
    let mut lexer = Lexer::new(alloc, syntax, EsVersion::latest(), text, BytePos(1), keeps);
    lexer.set_ctx(Context {
        strict: keeps,
        ..Context::default()
    });
    Ok(lexer)
}

fn fault() -> Error {
    Error {
        span: DUMMY_SP,
        kind: SyntaxError::Unexpected,
    }
}

/// Whether the next step answers want of memory.
fn is_full(lexer: &mut Lexer<'_>) -> bool {
    match lexer.next() {
        Ok(_) => false,
        Err(error) => error.kind == SyntaxError::Memory,
    }
}

/// A lexer that wants memory, after whatever is called on it.
fn stays_full(rt: &impl Abort, lexer: &mut Lexer<'_>) {
    assert!(rt; is_full(lexer));
    lexer.set_ctx(Context::default());
    lexer.set_next_regexp(None);
    drop(lexer.take_comments());
    drop(lexer.take_errors());
    assert!(rt; is_full(lexer));
}

/// Reads a text up to its end, or to want of memory, which stays.
fn read_on(rt: &impl Abort, lexer: &mut Lexer<'_>) -> Result<(), Fail> {
    for _ in 0..200 {
        match lexer.next() {
            Ok(Some(_)) => {}
            Ok(None) => return Ok(()),
            Err(error) => {
                assert_eq!(rt; error.kind, SyntaxError::Memory);
                stays_full(rt, lexer);
                return Ok(());
            }
        }
    }
    Err(Fail::from("the text has no end"))
}

/// After want of memory each step answers it again, whatever is called between.
#[test]
fn want_of_memory_stays(rt: HostRuntime) -> Result<(), Fail> {
    let mut lexer = lexer(rt.alloc(), WANTING, true)?;
    let ended = read_on(&rt, &mut lexer);
    drop(lexer);
    ended
}

/// Adds a fault as often as asked, and counts how often that succeeds.
fn add_all(rt: &impl Abort, lexer: &mut Lexer<'_>, is_of_modules: bool) -> usize {
    let mut count = 0usize;
    for _ in 0..9 {
        let added = if is_of_modules {
            lexer.add_module_mode_error(fault())
        } else {
            lexer.add_error(fault())
        };
        match added {
            Ok(()) => count = count.saturating_add(1),
            Err(error) => assert_eq!(rt; error.kind, SyntaxError::Memory),
        }
    }
    count
}

/// A fault that can't be recorded changes nothing. Those that wait are recorded and taken without memory.
#[test]
fn faults_are_recorded_or_not(rt: HostRuntime) -> Result<(), Fail> {
    let mut lexer = lexer(rt.alloc(), CONTENT, false)?;
    let waiting = add_all(&rt, &mut lexer, true);
    let recorded = add_all(&rt, &mut lexer, false);
    assert_eq!(rt; lexer.take_errors().len(), recorded);
    let more = add_all(&rt, &mut lexer, false);
    let ctx = Context {
        module_: true,
        ..Context::default()
    };
    lexer.set_ctx(ctx);
    assert_eq!(rt; lexer.take_errors().len(), waiting.saturating_add(more));
    assert_eq!(rt; lexer.take_errors().len(), 0);
    Ok(())
}

/// The settings of a lexer that was told none, and what it has at the end of its text.
fn is_at_the_end(rt: &impl Abort, lexer: &mut Lexer<'_>) {
    assert!(rt; ok(rt, lexer.next()).is_none());
    assert!(rt; !lexer.had_line_break_before_last() && lexer.token_context().is_empty());
    lexer.set_ctx(Context::default());
    assert!(rt; lexer.ctx() == Context::default() && lexer.start_pos() == BytePos(1));
    assert!(rt; lexer.syntax() == Syntax::default() && lexer.target() == EsVersion::latest());
}

/// The contexts of tokens that a lexer is given are its own.
fn has_context(rt: &impl Abort, lexer: &mut Lexer<'_>, contexts: TokenContexts) {
    lexer.set_token_context(contexts);
    assert!(rt; lexer.token_context().len() == 1);
    assert!(rt; lexer.token_context().current() == Some(TokenContext::Tpl));
    assert!(rt; lexer.token_context_mut().pop() == Some(TokenContext::Tpl));
}

/// The calls that take no memory, over a text whose tokens take none.
#[test]
fn takes_no_memory(rt: HostRuntime) -> Result<(), Fail> {
    let mut lexer = lexer(rt.alloc(), CONTENT, false)?;
    lexer.set_expr_allowed(true);
    for _ in 0..50 {
        if ok(&rt, lexer.next()).is_none() {
            break;
        }
    }
    is_at_the_end(&rt, &mut lexer);
    let mut contexts = TokenContexts::new(rt.alloc());
    ok(&rt, contexts.push(TokenContext::Tpl));
    has_context(&rt, &mut lexer, contexts);
    assert!(rt; lexer.take_errors().is_empty());
    assert!(rt; !lexer.take_comments().has_leading(BytePos(1)));
    let mut clone = ok(&rt, lexer.try_clone());
    assert!(rt; ok(&rt, clone.next()).is_none());
    Ok(())
}

/// Adds the next three tokens, and says whether there was memory for them.
fn push_three<'a>(lexer: &mut Lexer<'a>, tokens: &mut Vec<TokenAndSpan<'a>>) -> Result<bool, Fail> {
    for _ in 0..3 {
        let Ok(Some(token)) = lexer.next() else {
            return Err(Fail::from("no token"));
        };
        if tokens.push(token).is_err() {
            return Ok(false);
        }
    }
    Ok(true)
}

/// A canonical text is the right one, or memory is wanted.
#[test]
fn canonical_text_or_want_of_memory(rt: HostRuntime) -> Result<(), Fail> {
    let mut lexer = lexer(rt.alloc(), "a/**/+b", false)?;
    let mut tokens = Vec::new(rt.alloc());
    let pushed = push_three(&mut lexer, &mut tokens);
    drop(lexer);
    if !pushed? {
        return Ok(());
    }
    match canonical_text(rt.alloc(), "a/**/+b", tokens.as_slice()) {
        Ok(text) => assert_eq!(rt; text.as_str(), "a + b"),
        Err(error) => assert_eq!(rt; error.kind, SyntaxError::Memory),
    }
    Ok(())
}

/// Adds a fault and one of modules, and counts how many of the two are recorded.
fn record_both<'a>(input: &mut Capturing<'a, Lexer<'a>>) -> usize {
    let added = input.add_error(fault()).is_ok();
    let waits = input.add_module_mode_error(fault()).is_ok();
    usize::from(added) + usize::from(waits)
}

/// What keeps tokens has those that were handed out, or memory is wanted; it records faults as its source does.
#[test]
fn tokens_are_kept_or_memory_is_wanted(rt: HostRuntime) -> Result<(), Fail> {
    let mut input = Capturing::new(rt.alloc(), lexer(rt.alloc(), "a/**/+b", false)?);
    for count in 1..4usize {
        match input.next() {
            Ok(token) => assert!(rt; token.is_some() && input.tokens().len() == count),
            Err(error) => {
                assert!(rt; error.kind == SyntaxError::Memory);
                return Ok(());
            }
        }
    }
    let recorded = record_both(&mut input);
    input.set_ctx(Context {
        module_: true,
        ..Context::default()
    });
    assert!(rt; input.take_errors().len() == recorded);
    assert!(rt; input.take().len() == 3);
    assert!(rt; input.tokens().is_empty());
    Ok(())
}
