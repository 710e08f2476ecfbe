//! golink's tools on files and streams: the archive of a text, the text of a package file, and the
//! symbols, functions and lines of an image.
#![tactic(auto)]

mod cmd_addr2line;
mod cmd_dump;
mod cmd_mkobj;
mod cmd_nm;
mod laws;
mod package_text;
mod stdin;
mod stdout;
mod text_archive;

pub use cmd_addr2line::addr2line;
pub use cmd_dump::dump;
pub use cmd_mkobj::mkobj;
pub use cmd_nm::nm;
pub use laws::{one_answering, one_archive, one_dump, one_listing, one_text};
pub use package_text::dump_text;
pub use stdout::print;
pub use text_archive::{MakeBad, make_archive};
