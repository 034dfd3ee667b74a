// The points of a grid, numbered layer by layer from the words of its rows.

#![tactic(auto)]

ghost use Rattle.std.specs.Prelude.{◌≡◌, length};
ghost use Rattle.grid.specs.Grid.{axes, edge_count};
ghost use Rattle.grid.specs.Point.{point_edges};
ghost use Rattle.grid.specs.Work.{Numbered};
ghost use Rattle.rows.specs.Rows.{Whole, size_of, words_above};

mod numbers;

use numbers::number_layer;
use rows::Sides;

// Writes the number of its point at each crossed edge of the work room, and answers how many points there are.
pub fn number(sides: Sides, masks: &[u64], work: &mut [u32]) -> u32
    requires whole { Whole sides masks.now }
    requires work_len { length work.old ≡ edge_count axes (size_of sides) }
    ensures counted { result ≡ length (point_edges axes (size_of sides) (words_above sides masks.now)) }
    ensures numbered { Numbered axes (size_of sides) (words_above sides masks.now) work.new }
{
    let mut n: u32 = 0;
    for z in 0..sides.nz {
        n = number_layer(sides, z, n, masks, work);
    }
    n
}
