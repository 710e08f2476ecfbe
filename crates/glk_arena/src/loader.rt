// What is loaded.
use crate::config::Config;

// The path of the main file, and the configuration that lists the files of other packages.
#[derive(Clone, Copy)]
pub(crate) struct Loader<'a> {
    pub main: &'a str,
    pub config: &'a Config,
}
