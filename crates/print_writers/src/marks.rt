//! The marks of what is written: pairs of a position in the source and a place in the text.
ghost use Rattle.std.specs.Prelude.{◌≡◌, ◌≤◌, ◌*◌, ◌||◌, [], length, option_and_then, IfOk, OnOk, OnErr, IfErr};
ghost use Rattle.std.specs.BTreeSet as set;
ghost use Rattle.std.specs.Ordering.{nat_cmp};
ghost use Rattle.std.specs.Str.{chars};
ghost use Rattle.base_token.specs.declared.place.LineCol.{LineCol};
ghost use Rattle.print_writers.specs.declared.fault.EmitError.TheVariants.{Memory, Position};
ghost use Rattle.print_writers.specs.Lines.{next_line, further, after_text, units};
ghost use Rattle.print_writers.specs.Pages.{record_here, settled, is_here};
ghost use Rattle.print_writers.specs.Views.{marks_of, IsCounted, list_name};

use crate::EmitError;
use crate::lines::{after_text, further, next_line, units};
use base_token::{BytePos, LineCol};
use std::alloc::{AllocFailed, Global};
use std::collections::BTreeSet;

/// How many marks at one place are looked through one after another.
const FEW: usize = 16;

/// The list of marks, and where the next one is.
#[derive(Drop)]
pub(crate) struct MarkList<'a> {
    list: &'a mut Vec<(BytePos, LineCol)>,
    /// How many marks the list had when the place was reached.
    here: usize,
    /// The greatest position that was recorded since then, or more.
    highest: u32,
    /// Some of the positions that were recorded since then, in order: those of the marks before `unsorted`.
    sorted: BTreeSet<u32>,
    unsorted: usize,
    place: LineCol,
    waits: Option<BytePos>,
}

impl<'a> MarkList<'a> {
    /// The marks go to the end of the list.
    #[tactic(auto, using(crate::proofs::Marked::none_behind))]
    pub(crate) fn new(alloc: Global, list: &'a mut Vec<(BytePos, LineCol)>) -> MarkList<'a>
        ensures marks { marks_of result ≡ record { reached = Some (record { line = 0; col = 0 }); pairs = list.old.items; here = []; waits = None } }
        ensures counted { IsCounted result }
        ensures loan { list_name result ≡ list.entry.ghost_name }
    {
        let here = list.len();
        MarkList {
            list,
            here,
            highest: 0,
            sorted: BTreeSet::new(alloc),
            unsorted: here,
            place: LineCol { line: 0, col: 0 },
            waits: None,
        }
    }

    /// The list.
    pub(crate) fn into_list(self) -> &'a mut Vec<(BytePos, LineCol)>
        ensures marks { (marks_of self.entry).pairs ≡ result.now.items }
        ensures loan { result.ghost_name ≡ list_name self.entry }
    {
        let MarkList { list, .. } = self;
        list
    }

    /// Where a text ends that begins at the place reached.
    pub(crate) fn after(&self, text: &str) -> Result<LineCol, EmitError>
        ensures ok { IfOk result (λ end. option_and_then (λ place. after_text place (chars text.now)) (marks_of self.now).reached ≡ Some end) }
        ensures err { IfErr result (λ e. (e ≡ Position) × (option_and_then (λ place. after_text place (chars text.now)) (marks_of self.now).reached ≡ None)) }
    {
        after_text(self.place, text).ok_or(EmitError::Position)
    }

    /// Where the next line starts.
    pub(crate) fn next_line(&self) -> Result<LineCol, EmitError>
        ensures ok { IfOk result (λ end. option_and_then next_line (marks_of self.now).reached ≡ Some end) }
        ensures err { IfErr result (λ e. (e ≡ Position) × (option_and_then next_line (marks_of self.now).reached ≡ None)) }
    {
        next_line(self.place).ok_or(EmitError::Position)
    }

    /// Where an indentation of this depth ends.
    pub(crate) fn after_indentation(&self, depth: u32, indent: &str) -> Result<LineCol, EmitError>
        ensures ok { IfOk result (λ end. option_and_then (further (depth * units (chars indent.now))) (marks_of self.now).reached ≡ Some end) }
        ensures err { IfErr result (λ e. (e ≡ Position) × (option_and_then (further (depth * units (chars indent.now))) (marks_of self.now).reached ≡ None)) }
    {
        let columns = u64::from(depth)
            .checked_mul(units(indent))
            .ok_or(EmitError::Position)?;
        further(columns, self.place).ok_or(EmitError::Position)
    }

    #[tactic(auto, unfolding(crate::specs::Pages::settled))]
    /// Records the position that waits.
    pub(crate) fn settle(&mut self) -> Result<(), EmitError>
        ensures value { OnOk result (IsCounted self.old → marks_of self.new ≡ settled (marks_of self.old)) }
        ensures left { OnErr result ((marks_of self.new).reached ≡ (marks_of self.old).reached) }
        ensures counted { IsCounted self.old → IsCounted self.new }
        ensures fault { IfErr result (λ e. e ≡ Memory) }
        ensures loan { list_name self.new ≡ list_name self.old }
    {
        match self.waits {
            Some(pos) => {
                self.waits = None;
                self.record(pos)
            }
            None => Ok(()),
        }
    }

    #[tactic(auto, using(crate::proofs::Marked::one_more), unfolding(crate::specs::Pages::record_pair))]
    /// Marks the place reached. A dummy marks nothing, and a position is recorded once at a place.
    pub(crate) fn record(&mut self, pos: BytePos) -> Result<(), EmitError>
        ensures value { OnOk result (IsCounted self.old → marks_of self.new ≡ record_here pos (marks_of self.old)) }
        ensures left { OnErr result (marks_of self.new ≡ marks_of self.old) }
        ensures counted { IsCounted self.old → IsCounted self.new }
        ensures fault { IfErr result (λ e. e ≡ Memory) }
        ensures loan { list_name self.new ≡ list_name self.old }
    {
        if pos.is_dummy() || self.is_here(pos)? {
            return Ok(());
        }
        self.list.push((pos, self.place))?;
        if pos.0 > self.highest {
            self.highest = pos.0;
        }
        Ok(())
    }

    /// Whether the position was recorded since the place was reached. One past all of them is not looked for,
    /// and of few marks each is looked at.
    fn is_here(&mut self, pos: BytePos) -> Result<bool, EmitError>
        ensures value { IfOk result (λ here. IsCounted self.old → here ≡ is_here pos (marks_of self.old).here) }
        ensures marks { marks_of self.new ≡ marks_of self.old }
        ensures counted { IsCounted self.old → IsCounted self.new }
        ensures fault { IfErr result (λ e. e ≡ Memory) }
        ensures loan { list_name self.new ≡ list_name self.old }
    {
        if pos.0 > self.highest {
            return Ok(false);
        }
        if self.list.len().saturating_sub(self.here) <= FEW {
            return Ok(self.is_among(pos));
        }
        self.is_sorted(pos)
    }

    /// Whether it was, where the positions recorded since then are put in order first.
    fn is_sorted(&mut self, pos: BytePos) -> Result<bool, EmitError>
        ensures value { IfOk result (λ here. IsCounted self.old → here ≡ is_here pos (marks_of self.old).here) }
        ensures marks { marks_of self.new ≡ marks_of self.old }
        ensures counted { IsCounted self.old → IsCounted self.new }
        ensures fault { IfErr result (λ e. e ≡ Memory) }
        ensures loan { list_name self.new ≡ list_name self.old }
    {
        let Some(left) = self.list.get(self.unsorted..) else {
            return Ok(false);
        };
        if let Err(refused) = sort(&mut self.sorted, left) {
            self.sorted.clear();
            self.unsorted = self.here;
            return Err(EmitError::from(refused));
        }
        self.unsorted = self.list.len();
        Ok(self.sorted.contains(&pos.0))
    }

    /// Whether it is among those recorded since then.
    fn is_among(&self, pos: BytePos) -> bool
        ensures { self.now.here ≤ length self.now.list.now.items → result ≡ is_here pos (marks_of self.now).here }
    {
        match self.list.get(self.here..) {
            Some(here) => has_position(here, pos),
            None => false,
        }
    }

    /// The next mark is at this place.
    #[tactic(auto, using(crate::proofs::Marked::none_behind))]
    pub(crate) fn move_to(&mut self, place: LineCol)
        ensures value { marks_of self.new ≡ record (marks_of self.old) { reached = Some place; here = [] } }
        ensures counted { IsCounted self.new }
        ensures loan { list_name self.new ≡ list_name self.old }
    {
        self.place = place;
        self.here = self.list.len();
        self.highest = 0;
        self.sorted.clear();
        self.unsorted = self.here;
    }

    /// The position waits, in place of one that waits.
    pub(crate) fn wait(&mut self, pos: Option<BytePos>)
        ensures value { marks_of self.new ≡ record (marks_of self.old) { waits = pos } }
        ensures counted { IsCounted self.old → IsCounted self.new }
        ensures loan { list_name self.new ≡ list_name self.old }
    {
        self.waits = pos;
    }
}

fn has_position(marks: &[(BytePos, LineCol)], pos: BytePos) -> bool
    ensures { result ≡ is_here pos marks.now }
{
    marks.iter().any(|m| m.0.0 == pos.0)
}

/// Adds the positions of these marks.
fn sort(sorted: &mut BTreeSet<u32>, marks: &[(BytePos, LineCol)]) -> Result<(), AllocFailed<u32>>
    ensures { OnOk result ((pos : BytePos) → set.contains nat_cmp sorted.new pos.0 ≡ (set.contains nat_cmp sorted.old pos.0 || is_here pos marks.now)) }
{
    let mut left = marks;
    'marks: while let [(pos, _), rest @ ..] = left {
        sorted.insert(pos.0)?;
        left = rest;
    }
    Ok(())
}
