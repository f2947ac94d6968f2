//! What stands around a file: its settings, and as what it is read.

use run_command::Goal;
use run_files::{Told, file_in, folder_of, name_of, nearest, whole_folder};
use run_settings::{Editor, Goals, Settings, SettingsFault, goals_in, settings_in};
use std::alloc::{AllocError, Global};
use std::io;
use std::path::Path;

/// The settings file.
const SETTINGS: &str = "delvaram.json";

/// The file that editors read.
const EDITOR: &str = ".editorconfig";

/// The file that says what a package is.
const PACKAGE: &str = "package.json";

/// Why it is not known what stands around a file.
#[derive(Drop)]
pub(crate) enum AroundFault {
    /// A file can't be read.
    Told(Told),
    /// A settings file is wrong.
    Settings(String, SettingsFault),
    /// A settings file is wrong, which was told before.
    Before,
    /// The system refuses, or memory ran out.
    System(io::Error),
}

impl From<AllocError> for AroundFault {
    fn from(error: AllocError) -> AroundFault {
        AroundFault::System(io::Error::from(error))
    }
}

impl From<Told> for AroundFault {
    fn from(told: Told) -> AroundFault {
        AroundFault::Told(told)
    }
}

/// A file that editors read, and its folder.
#[derive(Drop)]
struct EditorFile {
    text: String,
    /// How many bytes of a whole path stand before the path in the folder.
    skipped: usize,
}

/// What stands around the files of one folder.
#[derive(Drop)]
struct Around {
    /// The folder, as it is named.
    folder: String,
    /// The folder from the top.
    whole: String,
    /// What a settings file says, where there is one.
    settings: Option<Settings>,
    /// The files that editors read, the nearest first.
    editor: Vec<EditorFile>,
    /// As what files are read, where a package says it.
    goals: Option<Goals>,
}

/// What the nearest settings file says.
fn settings_of(rt: &HostRuntime, whole: &str) -> Result<Option<Settings>, AroundFault> {
    match nearest(rt, whole, SETTINGS)? {
        None => Ok(None),
        Some(file) => match settings_in(rt.alloc(), file.text.as_slice()) {
            Ok(settings) => Ok(Some(settings)),
            Err(fault) => Err(AroundFault::Settings(file.path, fault)),
        },
    }
}

/// The files that editors read, the nearest first, up to one that is the root.
fn editor_of(rt: &HostRuntime, whole: &str) -> Result<Vec<EditorFile>, AroundFault> {
    let mut files = Vec::new(rt.alloc());
    for folder in Path::new(whole).ancestors() {
        let folder = folder.as_str();
        if let Some(file) = file_in(rt, folder, EDITOR)? {
            let text = String::from_utf8_lossy(rt.alloc(), file.text.as_slice())?;
            let is_root = Editor::read(rt.alloc(), text.as_str(), "")?.is_root;
            let skipped = if folder == "/" {
                1
            } else {
                folder.len().saturating_add(1)
            };
            files
                .push(EditorFile { text, skipped })
                .map_err(AllocError::from)?;
            if is_root {
                break;
            }
        }
    }
    Ok(files)
}

/// As what the nearest package says that files are read.
fn goals_of(rt: &HostRuntime, whole: &str) -> Result<Option<Goals>, AroundFault> {
    match nearest(rt, whole, PACKAGE)? {
        None => Ok(None),
        Some(file) => Ok(Some(goals_in(rt.alloc(), file.text.as_slice())?)),
    }
}

/// What stands around the files of a folder.
fn read_around(rt: &HostRuntime, folder: &str, whole: String) -> Result<Around, AroundFault> {
    let settings = settings_of(rt, whole.as_str())?;
    let editor = if settings.is_some() {
        Vec::new(rt.alloc())
    } else {
        editor_of(rt, whole.as_str())?
    };
    Ok(Around {
        folder: String::from_str(rt.alloc(), folder)?,
        settings,
        editor,
        goals: goals_of(rt, whole.as_str())?,
        whole,
    })
}

impl Around {
    /// What is said of a file of the folder.
    fn settings(&self, alloc: Global, name: &str) -> Result<Settings, AllocError> {
        if let Some(settings) = self.settings {
            return Ok(settings);
        }
        let whole = run_files::joined(alloc, self.whole.as_str(), name)?;
        let mut said = Editor::NONE;
        for file in &self.editor {
            let path = whole.as_str().get(file.skipped..).unwrap_or(name);
            said = said.over(Editor::read(alloc, file.text.as_str(), path)?);
        }
        Ok(said.settings())
    }

    /// As what a file of the folder is read, where nothing else says it.
    fn goals(&self, name: &str) -> Goals {
        if name.ends_with(".mjs") {
            Goals::One(Goal::Module)
        } else if name.ends_with(".cjs") {
            Goals::One(Goal::Script)
        } else {
            self.goals.unwrap_or(Goals::Either)
        }
    }
}

/// What is known of the folder that was asked of last.
#[derive(Drop)]
pub(crate) struct Known {
    last: Option<Around>,
    /// The settings file that was told last to be wrong.
    told: Option<String>,
}

impl Known {
    /// Nothing was asked yet.
    pub(crate) fn new() -> Known {
        Known {
            last: None,
            told: None,
        }
    }

    /// Whether a settings file was told last to be wrong.
    fn was_told(&self, path: &str) -> bool {
        match &self.told {
            Some(told) => told.as_str() == path,
            None => false,
        }
    }

    /// The fault of a settings file, where it isn't the one that was told last.
    fn settings_once(&mut self, alloc: Global, path: String, fault: SettingsFault) -> AroundFault {
        if self.was_told(path.as_str()) {
            return AroundFault::Before;
        }
        match String::from_str(alloc, path.as_str()) {
            Ok(told) => {
                self.told = Some(told);
                AroundFault::Settings(path, fault)
            }
            Err(error) => AroundFault::from(error),
        }
    }

    /// A fault; that of a settings file once alone.
    fn once(&mut self, alloc: Global, fault: AroundFault) -> AroundFault {
        match fault {
            AroundFault::Settings(path, fault) => self.settings_once(alloc, path, fault),
            fault => fault,
        }
    }

    /// Whether what stands around the files of a folder is known.
    fn knows(&self, folder: &str) -> bool {
        match &self.last {
            Some(last) => last.folder.as_str() == folder,
            None => false,
        }
    }

    /// Reads what stands around the files of a folder.
    fn look(&mut self, rt: &HostRuntime, path: &str) -> Result<(), AroundFault> {
        let whole = match whole_folder(rt, path) {
            Ok(whole) => whole,
            Err(error) => return Err(AroundFault::System(error)),
        };
        match read_around(rt, folder_of(path), whole) {
            Ok(around) => {
                self.last = Some(around);
                Ok(())
            }
            Err(fault) => Err(self.once(rt.alloc(), fault)),
        }
    }

    /// What is said of a file, and as what it is read.
    ///
    /// # Errors
    ///
    /// Why that is not known.
    pub(crate) fn around(
        &mut self,
        rt: &HostRuntime,
        path: &str,
    ) -> Result<(Settings, Goals), AroundFault> {
        if !self.knows(folder_of(path)) {
            self.look(rt, path)?;
        }
        let name = name_of(path);
        match &self.last {
            Some(last) => Ok((last.settings(rt.alloc(), name)?, last.goals(name))),
            None => Ok((Settings::NONE, Goals::Either)),
        }
    }
}
