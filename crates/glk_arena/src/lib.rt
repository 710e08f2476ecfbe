//! The packages of a link: which file holds a package, and which loaded package a stored path means.
#![tactic(auto)]

mod builtins;
mod config;
mod imports;
mod laws;
mod loaded;
mod loader;
mod packages;
mod parse_packages;
mod paths;
mod read_files;
mod shared_rules;
mod stored;
mod wave_files;
mod waves;

pub use builtins::{Builtin, Builtins};
pub use config::Config;
pub use laws::{one_file, one_load, own_paths, some_config, some_load};
pub use loaded::Loaded;
pub use waves::load_waves;
