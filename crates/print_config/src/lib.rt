//! The settings of a printer: how the text is to look, the formats of its lists, and who knows the lines of the
//! source.
#![tactic(auto)]

pub mod config;
mod edition;
pub mod list_format;
pub mod mapper;

pub use config::Config;
pub use list_format::ListFormat;
pub use mapper::{NoPlaces, SourceMapper, SourceMapperExt};
