//! Where the kept symbols of a merged program are in memory, and its made names.
#![tactic(auto)]

mod indices;
mod location;
mod made;
mod placement;
mod places;
mod symbols;

pub use location::{Location, Sections};
pub use made::{MadeContentKind, MadeSizes};
pub use placement::{Placement, place_program};
pub use symbols::kept_symbols;
