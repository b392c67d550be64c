// Moves of many vectors or points by one flat matrix. The exports.
ghost use Rattle.bulk.specs.Moves.{move_vectors, move_points};
ghost use Rattle.migthumo.specs.Entries.{Answers};

// The matrix times every vector; the output is as long as the vectors.
#[unsafe(no_mangle)]
pub extern "C" fn migthumo_move_vectors(
    order: usize,
    m: &[f64],
    vectors: &[f64],
    out: &mut [f64],
) -> u32
    ensures { Answers result out.old out.new (move_vectors order m.now vectors.now out.old) }
{
    migthumo::moves::migthumo_move_vectors(order, m, vectors, out)
}

// The matrix times every point extended by 1, without the last coordinate; the output is as long as the points.
#[unsafe(no_mangle)]
pub extern "C" fn migthumo_move_points(
    order: usize,
    m: &[f64],
    points: &[f64],
    out: &mut [f64],
) -> u32
    ensures { Answers result out.old out.new (move_points order m.now points.now out.old) }
{
    migthumo::moves::migthumo_move_points(order, m, points, out)
}
