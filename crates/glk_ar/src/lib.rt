//! Unix archives: their members read in place, the object in a member, and an archive with one
//! object written.
#![tactic(auto)]

mod headers;
mod laws;
mod object_parts;
#[cfg(test)]
mod tests;
mod walk;
mod write;

pub use headers::HEADER_LENGTH;
pub use laws::{one_archive, one_part, walks_are_whole};
pub use object_parts::{MARK_RULE, ObjectPart, PartBad, object_part};
pub use walk::{ArBad, Member, MemberIter, members};
pub use write::one_member;
