//! The files that paths mean.

use crate::levels::{Level, RULES, leave_out, skipped};
use crate::names::{cleaned, joined};
use crate::placing::is_beside;
use crate::trouble::{Told, Trouble};
use crate::wild::Wild;
use run_ignore::Rules;
use std::alloc::Global;
use std::fs::Metadata;
use std::io::ErrorKind;
use std::path::Path;
use std::{fs, io};

/// How many folders stand above each other at most.
const DEEPEST: usize = 511;

/// What paths mean.
#[derive(Drop)]
pub struct Found {
    /// The files, sorted by the bytes of their paths, each once.
    pub files: Vec<String>,
    /// What is told of other paths.
    pub told: Vec<Told>,
    /// Files that a run left beside others, by their names.
    pub left: Vec<String>,
}

/// A folder that is still to be looked into.
#[derive(Drop)]
struct Folder {
    /// Its path, as it was named.
    path: String,
    /// Its path from the top.
    whole: String,
    /// How many folders stand between it and the one that was named.
    depth: usize,
    /// How many levels of rules hold in it.
    levels: usize,
}

/// What was found so far.
#[derive(Drop)]
struct Walk {
    found: Found,
    levels: Vec<Level>,
    folders: Vec<Folder>,
    wild: Option<Wild>,
    deepest: usize,
}

/// Whether a file with this name is a program.
fn is_program(name: &str) -> bool {
    name.ends_with(".js") || name.ends_with(".mjs") || name.ends_with(".cjs")
}

/// Whether a folder with this name is left out.
fn is_hidden(name: &str) -> bool {
    name.starts_with('.') || name == "node_modules"
}

/// Whether something of this name stands in a folder.
fn is_there(rt: &HostRuntime, folder: &str, name: &str) -> io::Result<bool> {
    let path = joined(rt.alloc(), folder, name)?;
    Ok(fs::symlink_metadata(rt, path.as_str()).is_ok())
}

/// A whole folder and those above it, up to one with a `.git`; none where no folder has it.
fn folders_to_git<'a>(rt: &HostRuntime, whole: &'a str) -> io::Result<Vec<&'a str>> {
    let mut folders = Vec::new(rt.alloc());
    for folder in Path::new(whole).ancestors() {
        folders.push(folder.as_str())?;
        if is_there(rt, folder.as_str(), ".git")? {
            return Ok(folders);
        }
    }
    Ok(Vec::new(rt.alloc()))
}

impl Walk {
    fn new(alloc: Global) -> Walk {
        Walk {
            found: Found {
                files: Vec::new(alloc),
                told: Vec::new(alloc),
                left: Vec::new(alloc),
            },
            levels: Vec::new(alloc),
            folders: Vec::new(alloc),
            wild: None,
            deepest: DEEPEST,
        }
    }

    /// Tells of a path.
    fn tell(&mut self, path: String, trouble: Trouble) -> io::Result<()> {
        Ok(self.found.told.push(Told { path, trouble })?)
    }

    /// The names in a folder, sorted. One that is no text is told.
    fn names(&mut self, rt: &HostRuntime, folder: &str) -> io::Result<Vec<String>> {
        let mut names = Vec::new(rt.alloc());
        for entry in fs::read_dir(rt, folder)? {
            match entry {
                Ok(entry) => names.push(String::from_str(rt.alloc(), entry.file_name())?)?,
                Err(error) if error.kind() == ErrorKind::InvalidFilename => {
                    self.tell(String::from_str(rt.alloc(), folder)?, Trouble::NoText)?;
                }
                Err(error) => return Err(error),
            }
        }
        names.sort()?;
        Ok(names)
    }

    /// Adds the rules of a file.
    fn add_level(&mut self, rt: &HostRuntime, folder: &str, name: &str) -> io::Result<()> {
        let path = joined(rt.alloc(), folder, name)?;
        match fs::metadata(rt, path.as_str()) {
            Ok(metadata) if metadata.is_file() => {}
            _ => return Ok(()),
        }
        match fs::read(rt, path.as_str()) {
            Ok(text) => Ok(
                self.levels.push(Level {
                    rules: Rules::parse(rt.alloc(), text.as_slice())?,
                    skipped: skipped(folder),
                })?,
            ),
            Err(error) => self.tell(path, Trouble::System(error)),
        }
    }

    /// Adds the rules of the folders above a whole folder, from the one with a `.git` on.
    fn add_above(&mut self, rt: &HostRuntime, whole: &str) -> io::Result<()> {
        let folders = folders_to_git(rt, whole)?;
        for folder in folders.iter().rev() {
            if *folder != whole {
                for name in RULES {
                    self.add_level(rt, folder, name)?;
                }
            }
        }
        Ok(())
    }

    /// Adds the rules of a folder, of which the names are known.
    fn add_own(&mut self, rt: &HostRuntime, folder: &Folder, names: &[String]) -> io::Result<()> {
        for rules in RULES {
            if names.iter().any(|name| name.as_str() == rules) {
                self.add_level(rt, folder.whole.as_str(), rules)?;
            }
        }
        Ok(())
    }

    /// Whether what stands in a folder is left out.
    fn is_left_out(
        &self,
        rt: &HostRuntime,
        folder: &Folder,
        name: &str,
        is_dir: bool,
    ) -> io::Result<bool> {
        if self.levels.is_empty() {
            return Ok(false);
        }
        let whole = joined(rt.alloc(), folder.whole.as_str(), name)?;
        Ok(leave_out(rt.alloc(), &self.levels, whole.as_str(), is_dir)?)
    }

    /// Takes a folder in a folder, for later.
    fn take_inner(
        &mut self,
        rt: &HostRuntime,
        folder: &Folder,
        name: &str,
        path: String,
    ) -> io::Result<()> {
        if is_hidden(name) || self.is_left_out(rt, folder, name, true)? {
            return Ok(());
        }
        if folder.depth >= self.deepest {
            return if self.wild.is_some() {
                Ok(())
            } else {
                self.tell(path, Trouble::TooDeep)
            };
        }
        let inner = Folder {
            path,
            whole: joined(rt.alloc(), folder.whole.as_str(), name)?,
            depth: folder.depth.saturating_add(1),
            levels: self.levels.len(),
        };
        Ok(self.folders.push(inner)?)
    }

    /// Whether a path is one that was asked for.
    fn is_meant(&self, alloc: Global, path: &str) -> io::Result<bool> {
        match &self.wild {
            Some(wild) => Ok(wild.matches(alloc, path)?),
            None => Ok(true),
        }
    }

    /// Takes what has the name of a program.
    fn take_program(&mut self, path: String, metadata: &Metadata) -> io::Result<()> {
        if metadata.is_file() {
            return Ok(self.found.files.push(path)?);
        }
        let trouble = if metadata.is_symlink() {
            Trouble::Link
        } else {
            Trouble::NoRegularFile
        };
        self.tell(path, trouble)
    }

    /// Takes what stands in a folder.
    fn take_entry(&mut self, rt: &HostRuntime, folder: &Folder, name: &str) -> io::Result<()> {
        let path = joined(rt.alloc(), folder.path.as_str(), name)?;
        if is_beside(name) {
            return Ok(self.found.left.push(path)?);
        }
        let metadata = match fs::symlink_metadata(rt, path.as_str()) {
            Ok(metadata) => metadata,
            Err(error) => return self.tell(path, Trouble::System(error)),
        };
        if metadata.is_dir() {
            return self.take_inner(rt, folder, name, path);
        }
        if !is_program(name)
            || !self.is_meant(rt.alloc(), path.as_str())?
            || self.is_left_out(rt, folder, name, false)?
        {
            return Ok(());
        }
        self.take_program(path, &metadata)
    }

    /// Takes what stands in a folder; the folders in it for later.
    fn take_folder(&mut self, rt: &HostRuntime, folder: Folder) -> io::Result<()> {
        self.levels.truncate(folder.levels);
        let names = match self.names(rt, folder.path.as_str()) {
            Ok(names) => names,
            Err(error) => return self.tell(folder.path, Trouble::System(error)),
        };
        self.add_own(rt, &folder, &names)?;
        for name in &names {
            self.take_entry(rt, &folder, name.as_str())?;
        }
        Ok(())
    }

    /// Takes all in a folder and below it, which a word of the command line means.
    fn take_all(&mut self, rt: &HostRuntime, path: String, word: &str) -> io::Result<()> {
        let whole = match fs::canonicalize(rt, path.as_str()) {
            Ok(whole) => whole.into_string(),
            Err(error) => return self.tell(path, Trouble::System(error)),
        };
        let before = self.found.files.len().saturating_add(self.found.told.len());
        self.levels.clear();
        self.add_above(rt, whole.as_str())?;
        self.folders.push(Folder {
            path,
            whole,
            depth: 0,
            levels: self.levels.len(),
        })?;
        for _ in 0..u64::MAX {
            match self.folders.pop() {
                Some(folder) => self.take_folder(rt, folder)?,
                None => break,
            }
        }
        if self.found.files.len().saturating_add(self.found.told.len()) == before {
            return self.tell(String::from_str(rt.alloc(), word)?, Trouble::NoFile);
        }
        Ok(())
    }

    /// Takes what is at no path: where it has names with `*` or `?`, what these match.
    fn take_missing(
        &mut self,
        rt: &HostRuntime,
        path: String,
        word: &str,
        error: io::Error,
    ) -> io::Result<()> {
        match Wild::read(rt.alloc(), path.as_str(), DEEPEST)? {
            None => self.tell(path, Trouble::System(error)),
            Some((folder, wild)) => {
                self.deepest = wild.deepest;
                self.wild = Some(wild);
                self.take_all(rt, folder, word)
            }
        }
    }

    /// Takes what a path means.
    fn take_path(&mut self, rt: &HostRuntime, word: &str) -> io::Result<()> {
        let path = cleaned(rt.alloc(), word)?;
        self.deepest = DEEPEST;
        self.wild = None;
        match fs::metadata(rt, path.as_str()) {
            Ok(metadata) if metadata.is_file() => Ok(self.found.files.push(path)?),
            Ok(metadata) if metadata.is_dir() => self.take_all(rt, path, word),
            Ok(_) => self.tell(path, Trouble::NoRegularFile),
            Err(error) => self.take_missing(rt, path, word, error),
        }
    }

    /// All that was found, sorted.
    fn done(self) -> io::Result<Found> {
        let mut found = self.found;
        found.files.sort()?;
        found.files.dedup();
        Ok(found)
    }
}

/// The files that paths mean, and what is told of others. A path that is a file is taken whatever its name is; of a folder all
/// that ends in `.js`, `.mjs` or `.cjs`, in it and below it, but nothing in hidden folders or in `node_modules`, and nothing that
/// `.gitignore` and `.delvaramignore` leave out; of a path that isn't there and has `*` or `?`, what of these matches.
///
/// # Errors
///
/// Memory alone: of what the system refuses the path is told.
pub fn find(rt: &HostRuntime, paths: &[String]) -> io::Result<Found> {
    let mut walk = Walk::new(rt.alloc());
    for path in paths {
        walk.take_path(rt, path.as_str())?;
    }
    walk.done()
}
