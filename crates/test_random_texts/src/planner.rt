//! The pool of what was made, and what is drawn of it.
ghost use Rattle.std.specs.Prelude.{◌<◌, length};

use crate::marks::{
    ASSIGNS, AWAIT_NAME, AWAITS, CHAIN, COALESCE, FREE, HAS_IN, HEADS, LET, LOOSELY_BOUND, MEMBER,
    ONCE, PRIMARY, SLOPPY, TARGET, YIELD_NAME, YIELDS,
};
use crate::random::Random;
use crate::rows::{
    ASSIGN_SIGNS, BINARY, CASE_ROWS, EXPR_ROWS, HOLES, Hole, ITEM_ROWS, MEMBER_ROWS, OPERAND, Or,
    PAT_ROWS, PROP_ROWS, Row, STMT_ROWS, Sort, UNARY_SIGNS,
};
use crate::words::{
    BAD_ESCAPES, BIG_INTS, FLAGS, NAMES, NUMBERS, ODD_NAMES, OLD_NUMBERS, OLD_STRINGS, RAW_STRINGS,
    REG_EXPS, TEMPLATE_PARTS, WORDS,
};
use std::alloc::{AllocError, Global};
use std::mem;

/// A part that was made: how tightly it binds, its marks, and its text.
#[derive(Drop)]
struct Made {
    sort: Sort,
    level: u8,
    marks: u32,
    text: String,
}

/// A program that grows from its leaves: parts wait in a pool until greater ones are made of them.
#[derive(Drop)]
pub struct Planner {
    pub alloc: Global,
    pub random: Random,
    pool: Vec<Made>,
    /// The text of the part that is being made.
    text: String,
    /// The marks of all in it, of what goes on outside of it, and of what it begins with.
    used: u32,
    out: u32,
    head: u32,
    /// How tightly binds what it begins with.
    level: u8,
    /// What may stand nowhere in this program.
    never: u32,
    /// How many names stand nowhere else.
    fresh: u32,
}

/// The hole that a word of a row names.
fn hole_of(word: &str) -> Option<Hole> {
    for (name, hole) in &HOLES {
        if *name == word {
            return Some(*hole);
        }
    }
    None
}

impl Planner {
    /// A program of which nothing is made yet, with what may stand nowhere in it.
    pub fn new(alloc: Global, random: Random, never: u32) -> Planner {
        Planner {
            alloc,
            random,
            pool: Vec::new(alloc),
            text: String::new(alloc),
            used: 0,
            out: 0,
            head: 0,
            level: 0,
            never,
            fresh: 0,
        }
    }

    /// Whether a part with these marks may stand where some are barred, beside what was taken.
    fn may(&self, marks: u32, barred: u32) -> bool {
        let all = self.used | marks;
        let no_yield = all & YIELDS == 0 || all & YIELD_NAME == 0;
        let no_await = all & AWAITS == 0 || all & AWAIT_NAME == 0;
        let once = self.used & marks & ONCE == 0;
        marks & FREE & (barred | self.never) == 0 && no_yield && no_await && once
    }

    /// Whether a part of the pool fits into a hole, in parentheses or a block if need be.
    fn fits(&self, at: usize, hole: &Hole) -> bool
        requires { at < length self.now.pool.items }
    {
        let made = &self.pool[at];
        let wrapped = matches!(hole.sort, Sort::Expr | Sort::Stmt) && !hole.target;
        let barred = if wrapped {
            hole.barred & FREE
        } else {
            hole.barred
        };
        let is_target = !hole.target || made.marks & TARGET != 0;
        made.sort == hole.sort
            && is_target
            && made.marks & barred == 0
            && self.may(made.marks, barred)
    }

    /// Writes a word.
    fn write(&mut self, word: &str) -> Result<(), AllocError> {
        self.text.push_str(word)?;
        self.text.push_str(" ")
    }

    /// Notes what was taken into a hole.
    fn note(&mut self, hole: &Hole, marks: u32, level: u8) {
        self.used |= marks & FREE;
        self.out |= marks & (FREE | HAS_IN | ASSIGNS) & !hole.ends | marks & hole.carries;
        if hole.begins {
            self.head = marks & HEADS;
            self.level = level;
        }
    }

    /// Puts a part of the pool into a hole.
    fn take(&mut self, made: Made, hole: &Hole) -> Result<(), AllocError> {
        let loose = made.level < hole.level && made.level != hole.also;
        let barred = made.marks & hole.barred & !FREE != 0;
        if !loose && !barred {
            self.note(hole, made.marks, made.level);
            return self.write(made.text.as_str());
        }
        self.note(hole, made.marks & FREE, PRIMARY);
        let is_expr = matches!(hole.sort, Sort::Expr);
        self.write(if is_expr { "(" } else { "{" })?;
        self.write(made.text.as_str())?;
        self.write(if is_expr { ")" } else { "}" })
    }

    /// A name that may stand in a hole, and its marks.
    fn name(&mut self, hole: &Hole, bound: bool) -> (&'static str, u32) {
        if bound && hole.barred & LET != 0 {
            return ("a", 0);
        }
        if self.random.one_in(4) {
            let (text, marks) = self.random.pick(&ODD_NAMES, ("a", 0));
            let loose = bound && marks & LOOSELY_BOUND != 0;
            let marks = if loose { marks | SLOPPY } else { marks };
            let fits = marks & hole.barred == 0 && (!bound || marks & LET == 0);
            if fits && self.may(marks, hole.barred) {
                return (text, marks & (FREE | LET));
            }
        }
        (self.random.pick(&NAMES, "a"), 0)
    }

    /// A literal, or a spelling of old where that is said.
    fn literal(&mut self, old: bool) -> &'static str {
        let text = self.random.one_in(2);
        if old && text {
            return self.random.pick(&OLD_STRINGS, "''");
        }
        if old {
            return self.random.pick(&OLD_NUMBERS, "00");
        }
        match self.random.below(10) {
            0 => "this",
            1 => "null",
            2 => "true",
            3 => "false",
            4 => self.random.pick(&BIG_INTS, "0n"),
            _ if text => self.random.pick(&RAW_STRINGS, "''"),
            _ => self.random.pick(&NUMBERS, "0"),
        }
    }

    /// An expression of no other.
    fn leaf_expr(&mut self, hole: &Hole) -> Result<(), AllocError> {
        if hole.target || self.random.one_in(2) {
            let (text, marks) = self.name(hole, hole.target);
            self.note(hole, marks, PRIMARY);
            return self.write(text);
        }
        if self.random.one_in(8) {
            self.note(hole, 0, PRIMARY);
            self.text.push_str("/")?;
            self.text.push_str(self.random.pick(&REG_EXPS, "a"))?;
            self.text.push_str("/")?;
            let flags = self.random.pick(&FLAGS, "");
            return self.write(flags);
        }
        let old = self.random.one_in(8) && self.may(SLOPPY, hole.barred);
        self.note(hole, if old { SLOPPY } else { 0 }, PRIMARY);
        let text = self.literal(old);
        self.write(text)
    }

    /// A part that holds no other.
    fn leaf(&mut self, hole: &Hole) -> Result<(), AllocError> {
        let text = match hole.sort {
            Sort::Expr => return self.leaf_expr(hole),
            Sort::Pat | Sort::Prop => {
                let (text, marks) = self.name(hole, true);
                self.note(hole, marks, PRIMARY);
                return self.write(text);
            }
            Sort::Case => "case null :",
            Sort::Stmt if self.random.one_in(2) => "debugger ;",
            _ => ";",
        };
        self.note(hole, 0, PRIMARY);
        self.write(text)
    }

    /// A part for a hole: one of the pool, or a leaf.
    fn draw(&mut self, hole: &Hole) -> Result<(), AllocError> {
        'tries: for _ in 0..16 {
            let count = self.pool.len();
            if count == 0 {
                return self.leaf(hole);
            }
            let at = self.random.below(count);
            if self.fits(at, hole) {
                let made = self.pool.swap_remove(at);
                return self.take(made, hole);
            }
        }
        self.leaf(hole)
    }

    /// A name that stands nowhere else, or the last one again.
    fn own_name(&mut self, again: bool) -> Result<(), AllocError> {
        if !again {
            self.fresh = self.fresh.wrapping_add(1);
        }
        let name = format!(in self.alloc; "v{}", self.fresh)?;
        self.write(name.as_str())
    }

    /// A word as a key.
    fn word(&mut self) -> &'static str {
        let names = self.random.one_in(2);
        let word = if names {
            self.random.pick(&NAMES, "a")
        } else {
            self.random.pick(&WORDS, "if")
        };
        if word == "constructor" || word == "__proto__" {
            return "if";
        }
        word
    }

    /// A key that is not in brackets.
    fn key(&mut self, may_be_private: bool) -> &'static str {
        match self.random.below(8) {
            0 => self.random.pick(&RAW_STRINGS, "''"),
            1 => self.random.pick(&NUMBERS, "0"),
            2 => self.random.pick(&BIG_INTS, "0n"),
            3 | 4 if may_be_private => "#p",
            _ => self.word(),
        }
    }

    /// The word of a hole that no part stands in.
    fn other(&mut self, way: Or) -> &'static str {
        match way {
            Or::MayStatic => "static",
            Or::Unary => self.random.pick(&UNARY_SIGNS, "-"),
            Or::Assign => self.random.pick(&ASSIGN_SIGNS, "="),
            Or::Key => self.key(false),
            Or::MemberKey => self.key(true),
            Or::String => self.random.pick(&RAW_STRINGS, "''"),
            Or::Characters => self.random.pick(&TEMPLATE_PARTS, "a"),
            Or::BadEscape => self.random.pick(&BAD_ESCAPES, "\\xg"),
            Or::Word | Or::Dot => self.word(),
            _ => self.random.pick(&NAMES, "a"),
        }
    }

    /// Writes what stands in a hole that no part stands in.
    fn or(&mut self, way: Or) -> Result<(), AllocError> {
        match way {
            Or::Nothing => return Ok(()),
            Or::Label => return self.own_name(false),
            Or::Jump => return self.own_name(true),
            Or::Dot => self.write(".")?,
            _ => {}
        }
        let may_stand = matches!(way, Or::MayName | Or::MayStatic);
        if may_stand && self.random.one_in(2) {
            return Ok(());
        }
        let word = self.other(way);
        self.write(word)
    }

    /// Fills a hole.
    fn fill(&mut self, hole: &Hole) -> Result<(), AllocError> {
        let more = self.random.up_to(hole.most.saturating_sub(hole.least));
        let count = hole.least.saturating_add(more);
        if count == 0 {
            return self.or(hole.or);
        }
        'parts: for _ in 0..count {
            self.write(hole.open)?;
            self.draw(hole)?;
            self.write(hole.close)?;
        }
        Ok(())
    }

    /// Makes a part of a shape, unless it may stand nowhere in this program.
    fn make(&mut self, sort: Sort, row: Row) -> Result<(), AllocError> {
        let (words, level, own, bars) = row;
        if own & self.never != 0 {
            return Ok(());
        }
        self.used = own & FREE;
        self.out = 0;
        self.head = 0;
        for word in words.split(' ') {
            match hole_of(word) {
                None => self.write(word)?,
                Some(hole) => {
                    let narrow = if hole.narrow { bars } else { 0 };
                    let barred = hole.barred | narrow;
                    self.fill(&Hole { barred, ..hole })?;
                }
            }
        }
        self.keep(sort, level, own)
    }

    /// Puts what was made into the pool.
    fn keep(&mut self, sort: Sort, level: u8, own: u32) -> Result<(), AllocError> {
        let passes = match sort {
            Sort::Expr => !ASSIGNS,
            Sort::Pat => !HAS_IN,
            _ => !(ASSIGNS | HAS_IN),
        };
        let follows = if self.out & CHAIN != 0 { 19 } else { MEMBER };
        let level = if level == 0 {
            self.level.min(follows)
        } else {
            level
        };
        let text = mem::replace(&mut self.text, String::new(self.alloc));
        self.pool.push(Made {
            sort,
            level,
            marks: self.out & passes | self.head | own,
            text,
        })?;
        Ok(())
    }

    /// One more operator between operands.
    fn grow_binary(&mut self) -> Result<(), AllocError> {
        let (sign, least, right, level) = self.random.pick(&BINARY, ("+", 13, 14, 13));
        self.used = 0;
        self.out = 0;
        let also = if level == COALESCE { COALESCE } else { 0 };
        self.draw(&Hole {
            level: least,
            also,
            begins: true,
            ..OPERAND
        })?;
        self.write(sign)?;
        self.draw(&Hole {
            level: right,
            ..OPERAND
        })?;
        let own = if sign == "in" { HAS_IN } else { 0 };
        self.keep(Sort::Expr, level, own)
    }

    /// One more part of a sort.
    pub fn grow_one(&mut self, sort: Sort) -> Result<(), AllocError> {
        let none = (";", PRIMARY, 0, 0);
        let row = match sort {
            Sort::Expr => self.random.pick(&EXPR_ROWS, none),
            Sort::Stmt => self.random.pick(&STMT_ROWS, none),
            Sort::Pat => self.random.pick(&PAT_ROWS, none),
            Sort::Prop => self.random.pick(&PROP_ROWS, none),
            Sort::Member => self.random.pick(&MEMBER_ROWS, none),
            Sort::Case => self.random.pick(&CASE_ROWS, none),
            Sort::Item => self.random.pick(&ITEM_ROWS, none),
        };
        self.make(sort, row)
    }

    /// One more part for the pool.
    pub fn grow(&mut self) -> Result<(), AllocError> {
        match self.random.below(24) {
            0..=3 => self.grow_binary(),
            4..=11 => self.grow_one(Sort::Expr),
            12..=13 => self.grow_one(Sort::Pat),
            14..=15 => self.grow_one(Sort::Prop),
            16 => self.grow_one(Sort::Member),
            17 => self.grow_one(Sort::Case),
            _ => self.grow_one(Sort::Stmt),
        }
    }

    /// The text of a program whose parts fill this hole.
    pub fn finish(&mut self, hole: &Hole) -> Result<String, AllocError> {
        self.used = 0;
        self.fill(hole)?;
        Ok(mem::replace(&mut self.text, String::new(self.alloc)))
    }
}
