//! What stands in the folders above a file.

use crate::names::{folder_of, joined};
use crate::trouble::{Told, Trouble};
use std::io::ErrorKind;
use std::path::{Path, absolute};
use std::{fs, io};

/// A file in a folder.
#[derive(Drop)]
pub struct Above {
    pub path: String,
    pub text: Vec<u8>,
}

/// Whether the system says that a file isn't there, or that it doesn't show what is there.
fn is_missing(error: &io::Error) -> bool {
    matches!(
        error.kind(),
        ErrorKind::NotFound | ErrorKind::NotADirectory | ErrorKind::PermissionDenied
    )
}

/// The file of this name in a folder, or nothing where no regular file is there.
///
/// # Errors
///
/// What is told of the file where it can't be read.
pub fn file_in(rt: &HostRuntime, folder: &str, name: &str) -> Result<Option<Above>, Told> {
    let path = match joined(rt.alloc(), folder, name) {
        Ok(path) => path,
        Err(error) => return Err(unnamed(rt, io::Error::from(error))),
    };
    match fs::metadata(rt, path.as_str()) {
        Ok(metadata) if metadata.is_file() => {}
        Err(error) if !is_missing(&error) => {
            return Err(Told {
                path,
                trouble: Trouble::System(error),
            });
        }
        _ => return Ok(None),
    }
    match fs::read(rt, path.as_str()) {
        Ok(text) => Ok(Some(Above { path, text })),
        Err(error) => Err(Told {
            path,
            trouble: Trouble::System(error),
        }),
    }
}

/// An error of no path.
fn unnamed(rt: &HostRuntime, error: io::Error) -> Told {
    Told {
        path: String::new(rt.alloc()),
        trouble: Trouble::System(error),
    }
}

/// The file of this name in a whole folder, or in the nearest folder above that has one.
///
/// # Errors
///
/// Those of `file_in`.
pub fn nearest(rt: &HostRuntime, folder: &str, name: &str) -> Result<Option<Above>, Told> {
    for folder in Path::new(folder).ancestors() {
        if let Some(found) = file_in(rt, folder.as_str(), name)? {
            return Ok(Some(found));
        }
    }
    Ok(None)
}

/// The folder of a path from the top, without links where it is there.
///
/// # Errors
///
/// That of the system where the folder in which the program runs can't be told, or memory.
pub fn whole_folder(rt: &HostRuntime, path: &str) -> io::Result<String> {
    let folder = folder_of(path);
    match fs::canonicalize(rt, folder) {
        Ok(whole) => Ok(whole.into_string()),
        Err(_) => Ok(absolute(rt, folder)?.into_string()),
    }
}
