// Matrices of order 2, 3 and 4 over f64, column by column: document 01, 'Modules, leaves first', 2 to 6.
// Each answer equals its definition in specs/; no public function relies on its caller, but that `map` and `zip` ask that their closure may be called.
#![tactic(auto)]

pub mod arithmetic;
pub mod in_place;
pub mod inverse;
pub mod places;
pub mod records;
pub mod rotations;
pub mod square;

pub use inverse::Invert;
pub use places::{Column, Matrix, Row};
pub use records::{Matrix2, Matrix3, Matrix4};
pub use rotations::Rotation;
pub use square::SquareMatrix;
