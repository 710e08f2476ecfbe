// Rules of formats, and which of them is broken.

/// A family of rules: what they are rules of.
#[derive(Clone, Copy, Debug, PartialEq, Eq)]
pub enum RuleFamily {
    /// Rules A1 to A7, of archives; offsets count from the file's start.
    Archive,
    /// Rules V1 to V17, of objects; offsets count from the object's magic.
    Object,
}

/// The first broken rule of a format, and where it is broken.
#[derive(Clone, Copy, Debug, PartialEq, Eq)]
pub struct BrokenRule {
    /// The rule's number, from 1: the least of the broken ones.
    pub rule: u8,
    /// The least offset at which that rule is broken.
    pub offset: u64,
}
