// Row, diagonal, transpose and the swaps of a flat matrix. The exports.
ghost use Rattle.std.specs.Prelude.{length};
ghost use Rattle.migthumo.specs.Entries.{Answers};
ghost use Rattle.matrix.specs.declared.places.Column.{Column};
ghost use Rattle.matrix.specs.declared.places.Row.{Row};
ghost use Rattle.migthumo.specs.Flat.{column_at, row_at};
ghost use Rattle.migthumo.specs.Boundary.{row, diagonal, transpose, swap_rows, swap_columns, swap_elements};

// Row r; refusal 12, first, unless r is below the order.
#[unsafe(no_mangle)]
pub extern "C" fn migthumo_row(order: usize, r: usize, m: &[f64], out: &mut [f64]) -> u32
    ensures { Answers result out.old out.new (row order (row_at r) m.now (length out.old)) }
{
    migthumo::places::migthumo_row(order, r, m, out)
}

// The entries m[i][i].
#[unsafe(no_mangle)]
pub extern "C" fn migthumo_diagonal(order: usize, m: &[f64], out: &mut [f64]) -> u32
    ensures { Answers result out.old out.new (diagonal order m.now (length out.old)) }
{
    migthumo::places::migthumo_diagonal(order, m, out)
}

// Columns as rows.
#[unsafe(no_mangle)]
pub extern "C" fn migthumo_transpose(order: usize, m: &[f64], out: &mut [f64]) -> u32
    ensures { Answers result out.old out.new (transpose order m.now (length out.old)) }
{
    migthumo::places::migthumo_transpose(order, m, out)
}

// Rows a and b exchanged; refusal 12 unless both are below the order.
#[unsafe(no_mangle)]
pub extern "C" fn migthumo_swap_rows(
    order: usize,
    a: usize,
    b: usize,
    m: &[f64],
    out: &mut [f64],
) -> u32
    ensures { Answers result out.old out.new (swap_rows order (row_at a) (row_at b) m.now (length out.old)) }
{
    migthumo::places::migthumo_swap_rows(order, a, b, m, out)
}

// Columns a and b exchanged; refusal 11 unless both are below the order.
#[unsafe(no_mangle)]
pub extern "C" fn migthumo_swap_columns(
    order: usize,
    a: usize,
    b: usize,
    m: &[f64],
    out: &mut [f64],
) -> u32
    ensures { Answers result out.old out.new (swap_columns order (column_at a) (column_at b) m.now (length out.old)) }
{
    migthumo::places::migthumo_swap_columns(order, a, b, m, out)
}

// The entries at two places, column first, exchanged; refusal 11 or 12 unless all four numbers are below the order.
#[unsafe(no_mangle)]
pub extern "C" fn migthumo_swap_elements(
    order: usize,
    ac: usize,
    ar: usize,
    bc: usize,
    br: usize,
    m: &[f64],
    out: &mut [f64],
) -> u32
    ensures { Answers result out.old out.new (swap_elements order (column_at ac) (row_at ar) (column_at bc) (row_at br) m.now (length out.old)) }
{
    migthumo::places::migthumo_swap_elements(order, ac, ar, bc, br, m, out)
}
