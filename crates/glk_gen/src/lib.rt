//! Worlds of many packages, made from a seed: an import configuration and package files, to link
//! and to measure with.
#![tactic(auto)]

mod calls;
mod functions;
mod imports;
mod names;
mod objects;
mod world;

pub use world::{World, gen_world};
