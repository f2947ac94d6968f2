//! What a run over files is asked for: its command line, the settings that stand beside the files, and the messages about them.
#![tactic(auto)]

mod asking;
mod command;
mod editor;
mod file;
mod json;
mod keys;
mod messages;
mod package;
mod settings;
mod values;

pub use asking::asked;
pub use command::{Asked, AskingFault, Color, Doing, Goals, MapTo, Task, VERSION};
pub use editor::Editor;
pub use file::{SettingsFault, settings_in};
pub use json::{config_json, message_json};
pub use messages::{Message, Place, message_text};
pub use package::goals_in;
pub use settings::Settings;
