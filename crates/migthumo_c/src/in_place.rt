// Order 4 swaps of a matrix that is lent. The exports.
ghost use Rattle.matrix.specs.Places.{swap_rows4, swap_columns4, swap_elements4};
ghost use Rattle.migthumo.specs.Entries.{Answers};
ghost use Rattle.migthumo.specs.Flat.{column_at, row_at};

use matrix::Matrix4;

// Rows a and b exchanged; refusal 12 unless both are below 4.
#[unsafe(no_mangle)]
pub extern "C" fn migthumo_swap_rows_mut(m: &mut Matrix4, a: usize, b: usize) -> u32
    ensures { Answers result m.old m.new (swap_rows4 m.old (row_at a) (row_at b)) }
{
    migthumo::in_place::migthumo_swap_rows_mut(m, a, b)
}

// Columns a and b exchanged; refusal 11 unless both are below 4.
#[unsafe(no_mangle)]
pub extern "C" fn migthumo_swap_columns_mut(m: &mut Matrix4, a: usize, b: usize) -> u32
    ensures { Answers result m.old m.new (swap_columns4 m.old (column_at a) (column_at b)) }
{
    migthumo::in_place::migthumo_swap_columns_mut(m, a, b)
}

// The entries at two places, column first, exchanged; refusal 11 or 12 unless all four numbers are below 4.
#[unsafe(no_mangle)]
pub extern "C" fn migthumo_swap_elements_mut(
    m: &mut Matrix4,
    ac: usize,
    ar: usize,
    bc: usize,
    br: usize,
) -> u32
    ensures { Answers result m.old m.new (swap_elements4 m.old (column_at ac) (row_at ar) (column_at bc) (row_at br)) }
{
    migthumo::in_place::migthumo_swap_elements_mut(m, ac, ar, bc, br)
}
