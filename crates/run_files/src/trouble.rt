//! What is told of a path.

use std::alloc::Global;
use std::{fmt, io};

/// Why a path is not what was asked for.
#[derive(Drop)]
pub enum Trouble {
    /// The system refuses, or memory ran out.
    System(io::Error),
    /// A link in a folder: it is not followed.
    Link,
    /// It is neither a file with a text nor a folder.
    NoRegularFile,
    /// A name in the folder is not UTF-8.
    NoText,
    /// The folder lies deeper than folders are looked into.
    TooDeep,
    /// The path means no file.
    NoFile,
    /// The file has no longer the text that was read.
    Changed,
}

impl Trouble {
    /// Whether something that was asked for isn't done. A link in a folder isn't asked for.
    pub fn is_failure(&self) -> bool {
        !matches!(self, Trouble::Link)
    }

    /// Whether memory ran out.
    pub fn is_memory(&self) -> bool {
        match self {
            Trouble::System(error) => error.kind() == io::ErrorKind::OutOfMemory,
            _ => false,
        }
    }
}

impl fmt::Display for Trouble {
    fn fmt<W: fmt::Write>(&self, f: &mut fmt::Formatter<W>) -> fmt::Result {
        match self {
            Trouble::System(error) => fmt::Display::fmt(error, f),
            Trouble::Link => f.write_str("a link, which is not followed"),
            Trouble::NoRegularFile => f.write_str("no regular file"),
            Trouble::NoText => f.write_str("a name in it is not UTF-8, and is left out"),
            Trouble::TooDeep => f.write_str("the folder lies too deep"),
            Trouble::NoFile => f.write_str("no file of a program is there"),
            Trouble::Changed => f.write_str("changed while it was read, so it is left"),
        }
    }
}

impl From<io::Error> for Trouble {
    fn from(error: io::Error) -> Trouble {
        Trouble::System(error)
    }
}

/// What is told of one path.
#[derive(Drop)]
pub struct Told {
    pub path: String,
    pub trouble: Trouble,
}

impl Told {
    /// What is told of this path.
    pub(crate) fn new(alloc: Global, path: &str, trouble: Trouble) -> io::Result<Told> {
        Ok(Told {
            path: String::from_str(alloc, path)?,
            trouble,
        })
    }
}
