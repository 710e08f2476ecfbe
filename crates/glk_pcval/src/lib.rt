//! Pc tables: functions from an offset in a function to a value, kept as bytes.
#![tactic(auto)]

mod encoder;
mod laws;
mod step;
mod steps;
#[cfg(test)]
mod tests;
mod verdict;

pub use encoder::encode;
pub use laws::{
    ends_never_fall, numbers_are_shortest, ranges_decide_values, tables_end_themselves,
};
pub use steps::{Steps, value_at};
pub use verdict::{PcBad, check};
