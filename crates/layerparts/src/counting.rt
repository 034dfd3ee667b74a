// The points of a layer, counted from the words of its rows.
ghost use Rattle.std.specs.Prelude.{◌≡◌, ◌+◌, ◌*◌, ◌<◌, length};
ghost use Rattle.rows.specs.Rows.{Ready, Stands, own_samples};
ghost use Rattle.pointplaces.specs.Places.{crossings};
ghost use Rattle.layerparts.specs.Parts.{word_edges};

use rows::{Sides, Stretch};

// How many points a stretch's own samples have.
fn count_stretch(sides: Sides, at: Stretch, z: usize, masks: &[u64]) -> u32
    requires ready { Ready sides z masks.now }
    requires stands { Stands sides z at }
    requires y_lt_ny { at.y < sides.ny }
    requires z_lt_nz { z < sides.nz }
    ensures { result ≡ length (crossings sides masks.now (3 * at.s) (3 * (at.s + own_samples at.left))) }
{
    let crossed = rows::crossed_at(sides, at, z, masks);
    u64::count_ones(crossed.x) + u64::count_ones(crossed.y) + u64::count_ones(crossed.z)
}

// How many points the first lent layer has.
pub fn count_points(sides: Sides, masks: &[u64]) -> u32
    requires ready { Ready sides sides.below masks.now }
    requires below_lt_nz { sides.below < sides.nz }
    ensures { result ≡ length (word_edges sides masks.now) }
{
    let z = sides.below;
    let mut at = rows::first(sides, z);
    let mut sum = 0;
    while at.y < sides.ny {
        sum += count_stretch(sides, at, z, masks);
        at = rows::next(sides, at);
    }
    sum
}
