// The points of a grid, placed layer by layer from the words of its rows.

#![tactic(auto)]

ghost use Rattle.std.specs.Prelude.{◌≡◌, ◌*◌, ◌≤◌, length};
ghost use mathlib.Core.List.{map, flat_map};
ghost use Rattle.laws.specs.Room.{laid};
ghost use Rattle.grid.specs.Grid.{axes, sample_count, mark};
ghost use Rattle.grid.specs.Point.{point_edges, place as place_of};
ghost use Rattle.masks.specs.Masks.{Masked};
ghost use Rattle.rows.specs.Rows.{Whole, size_of, words_above};

pub mod places;

use places::place_layer;
use rows::Sides;

// Writes the points' places, grid edges and marks to the front of their rooms.
pub fn place(
    sides: Sides,
    grey: u16,
    samples: &[u16],
    masks: &[u64],
    points: &mut [u32],
    edges: &mut [u32],
    marks: &mut [u8],
)
    requires whole { Whole sides masks.now }
    requires samples_len { length samples.now ≡ sample_count (size_of sides) }
    requires masked { Masked sides.nx (sides.ny * sides.nz) grey samples.now masks.now }
    requires masks_in_bounds { 3 * length (point_edges axes (size_of sides) (words_above sides masks.now)) ≤ length points.old }
    requires masks_in_bounds_2 { length (point_edges axes (size_of sides) (words_above sides masks.now)) ≤ length edges.old }
    requires masks_in_bounds_3 { length (point_edges axes (size_of sides) (words_above sides masks.now)) ≤ length marks.old }
    ensures places { let found = point_edges axes (size_of sides) (words_above sides masks.now) in
        points.new ≡ laid (flat_map (place_of axes (size_of sides) grey samples.now) found) points.old }
    ensures edges { let found = point_edges axes (size_of sides) (words_above sides masks.now) in
        edges.new ≡ laid found edges.old }
    ensures marks { let found = point_edges axes (size_of sides) (words_above sides masks.now) in
        marks.new ≡ laid (map (mark axes (size_of sides)) found) marks.old }
{
    let none_kept = [0u32; 0];
    let mut n: usize = 0;
    for z in 0..sides.nz {
        n = place_layer(
            sides, grey, z, n, &none_kept, samples, masks, points, edges, marks,
        );
    }
}
