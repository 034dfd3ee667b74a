// The points' places, grid edges and marks, written to the front of their rooms, stretch by stretch. Samples are lent in two lists: first those that a state keeps, then the others.
ghost use Rattle.std.specs.Prelude.{◌+◌, ◌*◌, ◌<◌};
ghost use Rattle.grid.specs.Work.{lent_samples};
ghost use Rattle.rows.specs.Rows.{Stands, own_samples, layer_first};
ghost use Rattle.edgepoints.specs.EdgePoint.{point_rooms, Standing, RoomsFor};
ghost use Rattle.pointplaces.specs.Places.{SamplePlaceable, SamplePlaced, Given, number_past, Placed};

use edgepoints::Axis::{X, Y, Z};
use edgepoints::{Sample, place_edge};
use rows::{Cuts, Sides, Stretch};

// The points of the three edges that leave a sample, from a number on. Answers the number after the last.
fn place_sample(
    cuts: Cuts,
    sides: Sides,
    grey: u16,
    at: Sample,
    from: usize,
    kept: &[u32],
    samples: &[u16],
    points: &mut [u32],
    edges: &mut [u32],
    marks: &mut [u8],
) -> usize
    requires standing { Standing sides at }
    requires sample_placeable { SamplePlaceable sides (lent_samples kept.now samples.now) at.place from cuts (point_rooms points.old edges.old marks.old) }
    ensures { SamplePlaced sides grey (lent_samples kept.now samples.now) at.s from result cuts
        (point_rooms points.old edges.old marks.old)
        (point_rooms points.new edges.new marks.new) }
{
    let n = place_edge(
        cuts.x, X, sides, grey, at, from, kept, samples, points, edges, marks,
    );
    let n = place_edge(
        cuts.y, Y, sides, grey, at, n, kept, samples, points, edges, marks,
    );
    place_edge(
        cuts.z, Z, sides, grey, at, n, kept, samples, points, edges, marks,
    )
}

// The points of a stretch's own samples, from a number on, at one busy sample after the other. Answers the number after the last.
fn place_stretch(
    sides: Sides,
    grey: u16,
    at: Stretch,
    z: usize,
    from: usize,
    kept: &[u32],
    samples: &[u16],
    masks: &[u64],
    points: &mut [u32],
    edges: &mut [u32],
    marks: &mut [u8],
) -> usize
    requires given { Given sides z grey (lent_samples kept.now samples.now) masks.now }
    requires stands { Stands sides z at }
    requires y_lt_ny { at.y < sides.ny }
    requires z_lt_nz { z < sides.nz }
    requires rooms_for { RoomsFor (number_past sides masks.now (3 * at.s) (3 * (at.s + own_samples at.left)) from) (point_rooms points.old edges.old marks.old) }
    ensures { Placed sides grey (lent_samples kept.now samples.now) masks.now (3 * at.s) (3 * (at.s + own_samples at.left)) from result
        (point_rooms points.old edges.old marks.old)
        (point_rooms points.new edges.new marks.new) }
{
    let crossed = rows::crossed_at(sides, at, z, masks);
    let before = sides.nx - at.left;
    let place = at.s - sides.nx * (sides.ny * sides.below);
    let mut busy = crossed.x | crossed.y | crossed.z;
    let mut n = from;
    while busy != 0 {
        let i = u64::trailing_zeros(busy);
        let along = i as usize;
        let sample = Sample {
            s: at.s + along,
            place: place + along,
            x: before + along,
            y: at.y,
            z,
        };
        let cuts = crossed.cuts(i);
        n = place_sample(
            cuts, sides, grey, sample, n, kept, samples, points, edges, marks,
        );
        busy = busy & (busy - 1);
    }
    n
}

// The points of one layer, from a number on. Answers the number after the last.
pub fn place_layer(
    sides: Sides,
    grey: u16,
    z: usize,
    from: usize,
    kept: &[u32],
    samples: &[u16],
    masks: &[u64],
    points: &mut [u32],
    edges: &mut [u32],
    marks: &mut [u8],
) -> usize
    requires given { Given sides z grey (lent_samples kept.now samples.now) masks.now }
    requires z_lt_nz { z < sides.nz }
    requires rooms_for { RoomsFor (number_past sides masks.now (3 * layer_first sides z) (3 * layer_first sides (z + 1)) from) (point_rooms points.old edges.old marks.old) }
    ensures { Placed sides grey (lent_samples kept.now samples.now) masks.now (3 * layer_first sides z) (3 * layer_first sides (z + 1)) from result
        (point_rooms points.old edges.old marks.old)
        (point_rooms points.new edges.new marks.new) }
{
    let mut n = from;
    let mut at = rows::first(sides, z);
    while at.y < sides.ny {
        n = place_stretch(
            sides, grey, at, z, n, kept, samples, masks, points, edges, marks,
        );
        at = rows::next(sides, at);
    }
    n
}
