// The exact engine over whole numbers: document 01, 'Modules, leaves first', 7.
// Each answer equals its definition in specs/; no public function relies on its caller.

#![tactic(auto)]

pub mod cofactors;
pub mod entries;
pub mod orders;
pub mod square;
pub mod sum;
pub mod verdict;

pub use cofactors::cofactor;
pub use square::Square;
pub use sum::signed_sum;
pub use verdict::{magnitude, one_bit, undoable};
