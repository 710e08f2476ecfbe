//! The system's files. What they hold is not known. What is written takes the place of a file only
//! once it is whole.
#![tactic(auto)]

mod drafts;
mod os_files;
mod output;
mod places;
mod reading;

pub use os_files::OsFiles;
