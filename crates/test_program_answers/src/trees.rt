//! Programs that are made at random, with words that no text spells.

use crate::print::{print_to, style_of};
use crate::read::{Reading, program_of, read};
use base_token::utf16::push_text;
use base_token::{DUMMY_SP, EsSyntax, Span, StrValue, Syntax};
use run_memory::MemWriter;
use std::alloc::{AllocError, Global};
use std::str;
use test_answers::{Answer, Question};
use test_random_texts::{Grown, Random, STRING_PARTS, SURROGATES, grow};
use tree_nodes::{BigInt, Number, Program, Str};
use tree_same::same_program;
use tree_visit_mut::{VisitMutWith, VisitMutWords, Words};

/// Takes the spellings from half of the words of a tree, and makes strings of any code units of those.
#[derive(Drop)]
struct Unspelling {
    alloc: Global,
    random: Random,
    failed: bool,
}

impl Unspelling {
    /// Code units at random, surrogates without a partner among them.
    fn units(&mut self) -> Result<StrValue, AllocError> {
        let mut units: Vec<u16> = Vec::new(self.alloc);
        'parts: for _ in 0..self.random.below(4) {
            push_text(&mut units, self.random.pick(&STRING_PARTS, "a"))?;
            if self.random.one_in(8) {
                units.push(self.random.pick(&SURROGATES, 0xd800))?;
            }
        }
        Ok(StrValue::from_vec(units))
    }
}

impl VisitMutWords for Unspelling {
    fn str(&mut self, text: &mut Str) {
        if self.random.one_in(2) {
            return;
        }
        match self.units() {
            Ok(units) => {
                text.units = units;
                text.raw = None;
            }
            Err(_) => self.failed = true,
        }
    }

    fn number(&mut self, number: &mut Number) {
        if self.random.one_in(2) {
            number.raw = None;
        }
    }

    fn big_int(&mut self, number: &mut BigInt) {
        if self.random.one_in(2) {
            number.raw = None;
        }
    }

    fn span(&mut self, span: &mut Span) {
        *span = DUMMY_SP;
    }
}

/// As what the text of a program is read.
fn reading_of(grown: &Grown) -> Reading {
    Reading {
        script: !grown.module,
        syntax: Syntax::Es(EsSyntax {
            import_attributes: true,
            explicit_resource_management: grown.features,
            auto_accessors: grown.features,
            ..EsSyntax::default()
        }),
        nesting: 1024,
    }
}

/// The program of a text, with words that no text spells.
fn tree_of(alloc: Global, grown: &Grown, seed: u64) -> anyhow::Result<Program> {
    let mut program = program_of(alloc, grown.text.as_str(), reading_of(grown))?;
    let mut words = Words {
        visit: Unspelling {
            alloc,
            random: Random::new(!seed),
            failed: false,
        },
    };
    program.visit_mut_with(&mut words);
    if words.visit.failed {
        return Err(anyhow::Error::msg("out of memory"));
    }
    Ok(program)
}

/// As what the text that is written for a program is read: as the same one, as another, or not without faults.
fn judged(
    alloc: Global,
    program: &Program,
    reading: Reading,
    text: &[u8],
) -> anyhow::Result<&'static str> {
    let text = match str::from_utf8(text) {
        Ok(text) => text,
        Err(_) => return Ok("bytes"),
    };
    match read(alloc, text, reading)? {
        Err(_) => Ok("refused"),
        Ok((again, faults)) => {
            let same = faults.is_empty() && same_program(&again, program);
            Ok(if same { "same" } else { "other" })
        }
    }
}

/// Tells of the program of a seed whether it is a script or a module, whether `using` and `accessor` may stand in it, what is written
/// for it, and as what that is read.
pub fn tell(question: &Question<'_>, answer: &mut Answer) -> anyhow::Result<()> {
    let alloc = answer.alloc();
    let seed = u64::from(question.number("seed").unwrap_or(0));
    let steps = question.number("steps").unwrap_or(60) as usize;
    let grown = grow(alloc, seed, steps)?;
    let program = tree_of(alloc, &grown, seed)?;
    let mut out = MemWriter::new(alloc, 100_000_000, 4096, None)?;
    let style = style_of(question);
    let ended = print_to(alloc, &program, style, None, None, &mut out);
    if ended.is_err() {
        return Err(anyhow::Error::msg("a tree can't be printed"));
    }
    answer.say(if grown.module { "module" } else { "script" })?;
    answer.say(if grown.features { "using" } else { "" })?;
    answer.push(out.bytes())?;
    let how = judged(alloc, &program, reading_of(&grown), out.bytes())?;
    Ok(answer.say(how)?)
}
