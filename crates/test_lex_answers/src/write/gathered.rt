//! What goes through a block.

use crate::write::written::memory;
use base_token::{CountedWrite, Failing};
use print_writers::Gather;
use std::io::Write;
use test_answers::{Answer, Question};

/// Texts go through a block, and then the block is finished: how many bytes are out before that and
/// after, in how many calls, and whether something failed.
pub(crate) fn gather(question: &Question<'_>, answer: &mut Answer) -> anyhow::Result<()> {
    let alloc = answer.alloc();
    let lengths = question.text(0);
    let mut memory = memory(alloc, question)?;
    let mut block = Gather::new(&mut memory);
    let letters = [b'a'; 10_000];
    let mut failed = false;
    for word in lengths.split(' ') {
        let length = word.parse::<usize>().unwrap_or(0).min(10_000);
        if !failed {
            failed = !write_whole(&mut block, &letters[..length]);
        }
    }
    let finished = block.finish().is_ok();
    let failures = block.failures();
    let _ = block.into_inner();
    let state = if failed { "failed" } else { "taken" };
    let end = if finished { "finished" } else { "left" };
    let out = memory.bytes().len();
    let calls = memory.calls();
    answer.say(format!(in alloc; "{out} in {calls} calls, {state}, {end}, {failures} failures")?)?;
    Ok(())
}

/// Whether all of the bytes are taken, over as many calls as it needs.
fn write_whole<W: CountedWrite>(writer: &mut W, bytes: &[u8]) -> bool {
    writer.write_all(bytes).is_ok()
}

/// How many bytes one call takes.
pub(crate) fn whole(question: &Question<'_>, answer: &mut Answer) -> anyhow::Result<()> {
    let alloc = answer.alloc();
    let length = question.text(0);
    let length = length.parse::<usize>().unwrap_or(0).min(10_000);
    let mut memory = memory(alloc, question)?;
    let mut block = Gather::new(&mut memory);
    let letters = [b'a'; 10_000];
    match block.write_counted(&letters[..length]) {
        Ok(count) => answer.say(format!(in alloc; "takes {count}")?)?,
        Err(_) => answer.say(format!(in alloc; "fails")?)?,
    }
    Ok(())
}
