// The exports: each function of the library `migthumo` once more, under its own name and with its own promise, as C and Rust call it from libmigthumo.a.
// A crate is a library or a static library today, and not both, so this one stands beside `migthumo` and only hands on.
#![tactic(auto)]

pub mod arithmetic;
pub mod components;
pub mod in_place;
pub mod inverse;
pub mod moves;
pub mod places;
pub mod records;
pub mod rotations;
pub mod sums;
pub mod version;
