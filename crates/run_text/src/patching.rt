//! The unified text of how two texts differ, which `patch` reads.

use crate::turning::Block;
use std::alloc::{AllocError, Global};
use std::io::Write;

/// How many lines around a change are shown.
const CONTEXT: usize = 3;

/// The last line of a text that has no line feed is followed by this.
const UNENDED: &[u8] = b"\n\\ No newline at end of file\n";

/// A run of changes with the lines around it: where it begins in either text, how many lines of either it has, and its lines.
#[derive(Drop)]
struct Hunk {
    old_from: usize,
    new_from: usize,
    old_count: usize,
    new_count: usize,
    body: Vec<u8>,
}

/// What a line of a hunk is.
#[derive(Clone, Copy)]
enum Mark {
    Kept,
    Removed,
    Added,
}

impl Mark {
    /// The sign before such a line.
    fn sign(self) -> u8 {
        match self {
            Mark::Kept => b' ',
            Mark::Removed => b'-',
            Mark::Added => b'+',
        }
    }
}

impl Hunk {
    /// Adds lines.
    fn add(&mut self, mark: Mark, lines: &[&[u8]]) -> Result<(), AllocError> {
        for line in lines {
            self.body.push(mark.sign())?;
            self.body.extend_from_slice(line)?;
            if line.last() != Some(&b'\n') {
                self.body.extend_from_slice(UNENDED)?;
            }
        }
        let count = lines.len();
        match mark {
            Mark::Kept => {
                self.old_count = self.old_count.saturating_add(count);
                self.new_count = self.new_count.saturating_add(count);
            }
            Mark::Removed => self.old_count = self.old_count.saturating_add(count),
            Mark::Added => self.new_count = self.new_count.saturating_add(count),
        }
        Ok(())
    }

    /// Writes the hunk with its head.
    fn write(&self, alloc: Global, out: &mut Vec<u8>) -> Result<(), AllocError> {
        let old = span(alloc, self.old_from, self.old_count)?;
        let new = span(alloc, self.new_from, self.new_count)?;
        let head = format!(in alloc; "@@ -{old} +{new} @@\n")?;
        out.extend_from_slice(head.as_bytes())?;
        out.extend_from_slice(self.body.as_slice())
    }
}

/// Lines by the number of the first and their count, which isn't said where it is 1. Of none it is the line before.
fn span(alloc: Global, from: usize, count: usize) -> Result<String, AllocError> {
    let first = if count == 0 {
        from
    } else {
        from.saturating_add(1)
    };
    if count == 1 {
        format!(in alloc; "{first}")
    } else {
        format!(in alloc; "{first},{count}")
    }
}

/// The lines at the front, as many as there are up to a count.
fn front<'a, 'b>(lines: &'b [&'a [u8]], count: usize) -> &'b [&'a [u8]] {
    let (front, _) = lines.split_at(count.min(lines.len()));
    front
}

/// The lines behind so many.
fn behind<'a, 'b>(lines: &'b [&'a [u8]], count: usize) -> &'b [&'a [u8]] {
    let (_, behind) = lines.split_at(count.min(lines.len()));
    behind
}

/// What is written so far.
#[derive(Drop)]
struct Sheet {
    out: Vec<u8>,
    hunk: Option<Hunk>,
    old_at: usize,
    new_at: usize,
}

impl Sheet {
    /// Ends the hunk that is begun, with the first of the lines that follow it.
    fn end_hunk(&mut self, alloc: Global, kept: &[&[u8]]) -> Result<(), AllocError> {
        if let Some(mut hunk) = self.hunk.take() {
            hunk.add(Mark::Kept, front(kept, CONTEXT))?;
            hunk.write(alloc, &mut self.out)?;
        }
        Ok(())
    }

    /// Begins a hunk with the last of the lines before it.
    fn begin_hunk(&mut self, alloc: Global, kept: &[&[u8]]) -> Result<(), AllocError> {
        let skipped = kept.len().saturating_sub(CONTEXT);
        let mut hunk = Hunk {
            old_from: self.old_at.saturating_add(skipped),
            new_from: self.new_at.saturating_add(skipped),
            old_count: 0,
            new_count: 0,
            body: Vec::new(alloc),
        };
        hunk.add(Mark::Kept, behind(kept, skipped))?;
        self.hunk = Some(hunk);
        Ok(())
    }

    /// Takes the lines that both have before a change: they go on with a hunk, or end it and begin another.
    fn take_kept(&mut self, alloc: Global, kept: &[&[u8]]) -> Result<(), AllocError> {
        if kept.len() <= CONTEXT * 2
            && let Some(hunk) = &mut self.hunk
        {
            return hunk.add(Mark::Kept, kept);
        }
        self.end_hunk(alloc, kept)?;
        self.begin_hunk(alloc, kept)
    }

    /// Takes the lines of a change.
    fn take_change(&mut self, removed: &[&[u8]], added: &[&[u8]]) -> Result<(), AllocError> {
        if let Some(hunk) = &mut self.hunk {
            hunk.add(Mark::Removed, removed)?;
            hunk.add(Mark::Added, added)?;
        }
        Ok(())
    }

    /// Takes one block, where the lines that are left of either text are there.
    fn take(
        &mut self,
        alloc: Global,
        block: Block,
        old: &[&[u8]],
        new: &[&[u8]],
    ) -> Result<(), AllocError> {
        let kept = front(old, block.kept);
        if block.removed == 0 && block.added == 0 {
            return self.end_hunk(alloc, kept);
        }
        self.take_kept(alloc, kept)?;
        self.old_at = self.old_at.saturating_add(block.kept);
        self.new_at = self.new_at.saturating_add(block.kept);
        let removed = front(behind(old, block.kept), block.removed);
        let added = front(behind(new, block.kept), block.added);
        self.take_change(removed, added)?;
        self.old_at = self.old_at.saturating_add(block.removed);
        self.new_at = self.new_at.saturating_add(block.added);
        Ok(())
    }
}

/// The unified text of blocks that turn the lines of one text into those of another, with three lines around each change;
/// nothing where they are the same. `patch` reads it; that it does so is tested, and no clause says it: what the blocks are is
/// said by `blocks`.
///
/// # Errors
///
/// `AllocError` where there is no memory for it.
pub fn patch(
    alloc: Global,
    name: &str,
    old: &[&[u8]],
    new: &[&[u8]],
    blocks: &[Block],
) -> Result<Vec<u8>, AllocError> {
    let mut sheet = Sheet {
        out: Vec::new(alloc),
        hunk: None,
        old_at: 0,
        new_at: 0,
    };
    for block in blocks {
        let left = behind(old, sheet.old_at);
        let coming = behind(new, sheet.new_at);
        sheet.take(alloc, *block, left, coming)?;
    }
    sheet.end_hunk(alloc, &[])?;
    if sheet.out.is_empty() {
        return Ok(sheet.out);
    }
    let head = format!(in alloc; "--- {name}\n+++ {name}\n")?;
    let mut text = Vec::new(alloc);
    text.extend_from_slice(head.as_bytes())?;
    text.extend_from_slice(sheet.out.as_slice())?;
    Ok(text)
}
