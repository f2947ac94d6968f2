//! A text of a run, and what comes of it.

use base_token::LineCol;
use print_source_map::Mapping;
use run_command::Goal;
use run_settings::{Goals, Settings, Task};

/// A text, and what is asked of it.
#[derive(Drop)]
pub struct Opened {
    /// What its file is called.
    pub(crate) name: String,
    /// Whether that is its path.
    pub(crate) is_file: bool,
    /// Its bytes.
    pub bytes: Vec<u8>,
    /// What is done with it.
    pub task: Task,
    /// The settings that hold for it.
    pub settings: Settings,
    /// As what it is read.
    pub goals: Goals,
    /// Whether it is asked for where the places of what is written come from.
    pub has_map: bool,
    /// Whether it is refused where a comment may stand in it, and it would be another.
    pub spares_comments: bool,
}

impl Opened {
    /// The path of its file, where it has one.
    pub(crate) fn path(&self) -> Option<&str> {
        if self.is_file {
            Some(self.name.as_str())
        } else {
            None
        }
    }
}

/// What a text is laid out as.
#[derive(Drop)]
pub struct Laid {
    /// What is written of it, where that is another text.
    pub other: Option<String>,
    /// Where the places of what is written come from, where that is asked for.
    pub mappings: Vec<Mapping>,
}

impl Laid {
    /// What is written of a text that is laid out as this.
    pub(crate) fn text<'x>(&'x self, source: &'x str) -> &'x str {
        match &self.other {
            Some(other) => other.as_str(),
            None => source,
        }
    }
}

/// Why a text is refused, and where: the byte, and its line and column from 0.
#[derive(Clone, Copy)]
pub struct Refusal {
    pub at: usize,
    pub place: LineCol,
    pub message: &'static str,
}

/// What is told of a comment in a text that is to take a file's place.
const LEFT: &str =
    "a comment may stand here, and comments are not kept yet: the file is left (--comments none writes it)";

impl Refusal {
    /// The refusal of a text that would lose a comment, which may stand there.
    pub fn of_comment(at: usize, place: LineCol) -> Refusal {
        Refusal {
            at,
            place,
            message: LEFT,
        }
    }
}

/// What comes of a text.
#[derive(Drop)]
pub enum Outcome {
    /// It is laid out as this.
    Laid(Laid),
    /// It is a script or a module.
    Read(Goal),
    /// It is refused.
    Refused(Refusal),
    /// Something else failed.
    Failed(&'static str),
}
