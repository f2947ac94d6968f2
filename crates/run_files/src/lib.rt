//! Which files paths mean, what stands in the folders above a file, and a text put in the place of another.
#![tactic(auto)]

mod above;
mod levels;
mod names;
mod placing;
mod reading;
mod trouble;
mod walk;
mod wild;

pub use above::{Above, file_in, nearest, whole_folder};
pub use names::{cleaned, folder_of, joined, name_of};
pub use placing::{create, remove_old, replace};
pub use reading::read_file;
pub use trouble::{Told, Trouble};
pub use walk::{Found, find};
