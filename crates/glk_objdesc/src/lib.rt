//! Objects as descriptions: all that an object file says, apart from how its bytes say it.
//!
//! `write_object` gives the canonical bytes of a description, and `describe` reads an object back.
#![tactic(auto)]

mod desc;
mod law;
mod parts;
mod pool;
mod read;
mod records;
mod sizes;
mod typed;
mod write;

pub use desc::{AutolibDesc, DefDesc, ObjDesc, RefNameDesc, SymDesc};
pub use law::written_is_described;
pub use read::describe;
pub use typed::see_types;
pub use write::{OBJECT_LIMIT, write_object};
