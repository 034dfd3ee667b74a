// The points' numbers, written at their grid edges, stretch by stretch.
ghost use Rattle.std.specs.Prelude.{◌≡◌, ◌+◌, ◌*◌, ◌<◌, ◌≤◌, length, set};
ghost use Rattle.grid.specs.Limits.{most_edges};
ghost use Rattle.rows.specs.Rows.{Ready, Stands, own_samples, layer_first, next_number};
ghost use Rattle.pointnumbers.specs.Numbers.{SampleNumbered, NumberedTo};

use rows::{Cuts, Sides, Stretch};

// Writes the next number at an edge, and answers the number after it: the same one again where the edge is not crossed.
fn number_edge(cut: bool, e: usize, n: u32, work: &mut [u32]) -> u32
    requires n_le_e { n ≤ e }
    requires e_in_bounds { e < length work.old }
    requires work_len_bound { length work.old ≤ most_edges }
    ensures value { result ≡ next_number cut n }
    ensures work_after { work.new ≡ set work.old e n }
{
    work[e] = n;
    if cut { n + 1 } else { n }
}

// The same at the three edges that leave a sample, of which e is the first.
fn number_sample(cuts: Cuts, e: usize, n: u32, work: &mut [u32]) -> u32
    requires n_le_e { n ≤ e }
    requires e_in_bounds { e + 2 < length work.old }
    requires work_len_bound { length work.old ≤ most_edges }
    ensures { SampleNumbered cuts e n result work.old work.new }
{
    let past_x = number_edge(cuts.x, e, n, work);
    let past_y = number_edge(cuts.y, e + 1, past_x, work);
    number_edge(cuts.z, e + 2, past_y, work)
}

// The points of a stretch's own samples, from a number on, at one busy sample after the other. Answers the number after the last.
fn number_stretch(
    sides: Sides,
    at: Stretch,
    z: usize,
    from: u32,
    masks: &[u64],
    work: &mut [u32],
) -> u32
    requires ready { Ready sides z masks.now }
    requires stands { Stands sides z at }
    requires y_lt_ny { at.y < sides.ny }
    requires z_lt_nz { z < sides.nz }
    requires numbered_to { NumberedTo sides masks.now (3 * at.s) from work.old }
    ensures { NumberedTo sides masks.now (3 * (at.s + own_samples at.left)) result work.new }
{
    let crossed = rows::crossed_at(sides, at, z, masks);
    let mut busy = crossed.x | crossed.y | crossed.z;
    let mut n = from;
    while busy != 0 {
        let i = u64::trailing_zeros(busy);
        let e = 3 * (at.s + (i as usize));
        n = number_sample(crossed.cuts(i), e, n, work);
        busy = busy & (busy - 1);
    }
    n
}

// The points of one layer.
pub fn number_layer(sides: Sides, z: usize, from: u32, masks: &[u64], work: &mut [u32]) -> u32
    requires ready { Ready sides z masks.now }
    requires z_lt_nz { z < sides.nz }
    requires numbered_to { NumberedTo sides masks.now (3 * layer_first sides z) from work.old }
    ensures { NumberedTo sides masks.now (3 * layer_first sides (z + 1)) result work.new }
{
    let mut n = from;
    let mut at = rows::first(sides, z);
    while at.y < sides.ny {
        n = number_stretch(sides, at, z, n, masks, work);
        at = rows::next(sides, at);
    }
    n
}
