//! The fields of an image: the value of each field of a kept symbol, and all of them in the order of their
//! addresses, made chunk after chunk.
#![tactic(auto)]

mod chunks;
mod laws;
mod order;
mod places;
mod values;

pub use chunks::ImageFields;
pub use laws::fields_writable;
pub use order::field_places;
pub use places::FieldPlace;
pub use values::FieldValues;
