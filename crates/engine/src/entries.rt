// The whole-number test, and the whole numbers that it finds.
ghost use Rattle.std.specs.Prelude.{◌≡◌, ◌≤◌, map};
ghost use Rattle.vector.specs.Vectors.{entry, entries4};
ghost use Rattle.matrix.specs.Places.{at};
ghost use Rattle.matrix.specs.Records.{array4};
ghost use Rattle.engine.specs.Whole.{whole_number, is_whole, all_below, whole_entries, floats4, wholes, Small, Tested};

use crate::square::Square;
use matrix::Matrix4;
use vector::{Refusal, Vector4};

// The whole numbers of a matrix, m[c][r], each of magnitude at most 1024. What stands outside the first columns and rows, as many as its order, is never read.
#[derive(Clone, Copy, Debug, PartialEq, Eq)]
pub(crate) struct Whole {
    pub(crate) numbers: [[i64; 4]; 4],
    pub(crate) order: usize,
    ghost few: { order ≤ 4 },
    ghost small: { Small 4 (wholes numbers) },
}

impl Whole {
    ghost use Rattle.engine.specs.Tested.{Reads};

    // The whole numbers of the matrix, or refusal 6.
    #[tactic(auto, using(crate::proofs::Outcomes::array_numbers))]
    pub(crate) fn read<M: Square>(m: M) -> Result<Whole, Refusal>
        ensures { Reads M.ORDER (at (M.array m)) result }
    {
        let corner = m.cornered();
        if !whole_entries(corner) {
            return Err(Refusal::NotWhole);
        }
        let numbers = matrix_numbers(corner)?;
        Ok(Whole {
            numbers,
            order: M::ORDER,
        })
    }
}

// Whether the entry is a whole number of magnitude at most 1024. A NaN passes no comparison.
fn is_whole(x: f64) -> bool
    ensures { result ≡ is_whole 1024 x }
{
    x >= -1024.0
        && x <= 1024.0
        && std::num::nearest_i64_to_f64(std::num::truncating_f64_to_i64(x)) == x
}

// Whether every entry of a column is taken.
fn whole_column(v: Vector4) -> bool
    ensures { result ≡ all_below 4 (λ i. is_whole 1024 (entry (entries4 v) i)) }
{
    is_whole(v.x) && is_whole(v.y) && is_whole(v.z) && is_whole(v.w)
}

// Whether every entry of the matrix is taken: asked before any is read, so that a matrix that is refused costs its tests alone.
#[tactic(auto, unfolding(crate::specs::Whole::whole_entries))]
fn whole_entries(m: Matrix4) -> bool
    ensures { result ≡ whole_entries 1024 4 (floats4 m) }
{
    whole_column(m.x) && whole_column(m.y) && whole_column(m.z) && whole_column(m.w)
}

// The whole number that the entry is, -0.0 being 0, or refusal 6. Inlined, as its column is: the test is made before, and so twice.
#[inline(always)]
#[tactic(auto, using(crate::proofs::Taken::cut_above, crate::proofs::Taken::cut_under))]
fn whole_number(x: f64) -> Result<i64, Refusal>
    ensures { Tested (is_whole 1024 x) (whole_number x) result }
{
    if is_whole(x) {
        Ok(std::num::truncating_f64_to_i64(x))
    } else {
        Err(Refusal::NotWhole)
    }
}

// The whole numbers of a column. By name, here and in the next: `try_map` promises of each call apart, and would want an answer file where these want none.
#[inline(always)]
fn column_numbers(v: Vector4) -> Result<[i64; 4], Refusal>
    ensures { Tested (all_below 4 (λ i. is_whole 1024 (entry (entries4 v) i))) (map whole_number (entries4 v)) result }
{
    Ok([
        whole_number(v.x)?,
        whole_number(v.y)?,
        whole_number(v.z)?,
        whole_number(v.w)?,
    ])
}

// The whole numbers of the matrix, column by column.
#[tactic(auto, unfolding(crate::specs::Whole::whole_entries))]
fn matrix_numbers(m: Matrix4) -> Result<[[i64; 4]; 4], Refusal>
    ensures { Tested (whole_entries 1024 4 (floats4 m)) (map (map whole_number) (array4 m)) result }
{
    Ok([
        column_numbers(m.x)?,
        column_numbers(m.y)?,
        column_numbers(m.z)?,
        column_numbers(m.w)?,
    ])
}
