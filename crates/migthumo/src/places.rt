// Row, diagonal, transpose and the swaps of a flat matrix.
ghost use Rattle.std.specs.Prelude.{length};
ghost use Rattle.migthumo.specs.Entries.{Answers};
ghost use Rattle.matrix.specs.declared.places.Column.{Column};
ghost use Rattle.matrix.specs.declared.places.Row.{Row};
ghost use Rattle.migthumo.specs.Flat.{column_at, row_at};
ghost use Rattle.migthumo.specs.Boundary.{row, diagonal, transpose, swap_rows, swap_columns, swap_elements};

use crate::{code, entry};
use matrix::{Column, Matrix, Matrix2, Matrix3, Matrix4, Row};
use vector::Refusal;

// Row r; refusal 12, first, unless r is below the order.
#[unsafe(no_mangle)]
pub extern "C" fn migthumo_row(order: usize, r: usize, m: &[f64], out: &mut [f64]) -> u32
    ensures { Answers result out.old out.new (row order (row_at r) m.now (length out.old)) }
{
    code::answered(match order {
        2 => entry::of_one(m, out, |m: Matrix2| m.row(Row(r))),
        3 => entry::of_one(m, out, |m: Matrix3| m.row(Row(r))),
        4 => entry::of_one(m, out, |m: Matrix4| m.row(Row(r))),
        _ => Err(Refusal::Order),
    })
}

// The entries m[i][i].
#[unsafe(no_mangle)]
pub extern "C" fn migthumo_diagonal(order: usize, m: &[f64], out: &mut [f64]) -> u32
    ensures { Answers result out.old out.new (diagonal order m.now (length out.old)) }
{
    code::answered(match order {
        2 => entry::of_one(m, out, |m: Matrix2| Ok(m.diagonal())),
        3 => entry::of_one(m, out, |m: Matrix3| Ok(m.diagonal())),
        4 => entry::of_one(m, out, |m: Matrix4| Ok(m.diagonal())),
        _ => Err(Refusal::Order),
    })
}

// Columns as rows.
#[unsafe(no_mangle)]
pub extern "C" fn migthumo_transpose(order: usize, m: &[f64], out: &mut [f64]) -> u32
    ensures { Answers result out.old out.new (transpose order m.now (length out.old)) }
{
    code::answered(match order {
        2 => entry::of_one(m, out, |m: Matrix2| Ok(m.transpose())),
        3 => entry::of_one(m, out, |m: Matrix3| Ok(m.transpose())),
        4 => entry::of_one(m, out, |m: Matrix4| Ok(m.transpose())),
        _ => Err(Refusal::Order),
    })
}

// Rows a and b exchanged; refusal 12 unless both are below the order.
#[unsafe(no_mangle)]
pub extern "C" fn migthumo_swap_rows(
    order: usize,
    a: usize,
    b: usize,
    m: &[f64],
    out: &mut [f64],
) -> u32
    ensures { Answers result out.old out.new (swap_rows order (row_at a) (row_at b) m.now (length out.old)) }
{
    code::answered(match order {
        2 => entry::of_one(m, out, |m: Matrix2| m.swap_rows(Row(a), Row(b))),
        3 => entry::of_one(m, out, |m: Matrix3| m.swap_rows(Row(a), Row(b))),
        4 => entry::of_one(m, out, |m: Matrix4| m.swap_rows(Row(a), Row(b))),
        _ => Err(Refusal::Order),
    })
}

// Columns a and b exchanged; refusal 11 unless both are below the order.
#[unsafe(no_mangle)]
pub extern "C" fn migthumo_swap_columns(
    order: usize,
    a: usize,
    b: usize,
    m: &[f64],
    out: &mut [f64],
) -> u32
    ensures { Answers result out.old out.new (swap_columns order (column_at a) (column_at b) m.now (length out.old)) }
{
    code::answered(match order {
        2 => entry::of_one(m, out, |m: Matrix2| m.swap_columns(Column(a), Column(b))),
        3 => entry::of_one(m, out, |m: Matrix3| m.swap_columns(Column(a), Column(b))),
        4 => entry::of_one(m, out, |m: Matrix4| m.swap_columns(Column(a), Column(b))),
        _ => Err(Refusal::Order),
    })
}

// The entries at two places, column first, exchanged; refusal 11 or 12 unless all four numbers are below the order.
#[unsafe(no_mangle)]
pub extern "C" fn migthumo_swap_elements(
    order: usize,
    ac: usize,
    ar: usize,
    bc: usize,
    br: usize,
    m: &[f64],
    out: &mut [f64],
) -> u32
    ensures { Answers result out.old out.new (swap_elements order (column_at ac) (row_at ar) (column_at bc) (row_at br) m.now (length out.old)) }
{
    code::answered(match order {
        2 => entry::of_one(
            m,
            out,
            |m: Matrix2| m.swap_elements(Column(ac), Row(ar), Column(bc), Row(br)),
        ),
        3 => entry::of_one(
            m,
            out,
            |m: Matrix3| m.swap_elements(Column(ac), Row(ar), Column(bc), Row(br)),
        ),
        4 => entry::of_one(
            m,
            out,
            |m: Matrix4| m.swap_elements(Column(ac), Row(ar), Column(bc), Row(br)),
        ),
        _ => Err(Refusal::Order),
    })
}
