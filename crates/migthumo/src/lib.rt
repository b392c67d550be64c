// The boundary: the port as functions over numbers and flat column-major slices, which C and Rust call as libmigthumo.a.
// Each but `migthumo_version` answers 0 or the refusal's number, found in the order 5, 3, 4, then the column and row numbers as they are handed in (11 and 12), then 6, 2 (document 01, 'The numbers a refusal carries', and document 02, No. 1), with 256 added where the second place is at fault; where it is not 0 the output is as it was.
// A component record is refused with 4 for either output's length, then 20, 21, 22, 20 (document 02, No. 2, 'Read component records').
#![tactic(auto)]

pub mod arithmetic;
mod code;
pub mod components;
mod entry;
pub mod in_place;
pub mod inverse;
mod load;
pub mod moves;
pub mod places;
pub mod records;
pub mod rotations;
mod store;
pub mod sums;
pub mod version;
