// The determinant of a triangle's three points as rows: six times the volume between the triangle and the origin.
ghost use Rattle.std.specs.Prelude.{◌≡◌, ◌*◌, ◌<◌, ◌≤◌};
ghost use Rattle.std.specs.Int.{w64};
ghost use Rattle.std.proofs.Common.{SFits};
ghost use Rattle.grid.specs.Limits.{most_coordinate};
ghost use Rattle.mesh.specs.Mesh.{triangle_count, triangle_at};
ghost use Rattle.mesh.specs.Place.{Near};
ghost use Rattle.records.specs.Record.{diagonals as diagonalsOf, sixfold as sixfoldOf};
ghost use Rattle.records.specs.Grown.{MeshFits, most_product};

use grid::limits::{MOST_COORDINATE, MOST_TRIANGLES};
use mesh::Place;

// The greatest product of three coordinates, and what no shell's volume is larger than in size: specs/Grown.antt has both.
pub const MOST_PRODUCT: u64 = (MOST_COORDINATE as u64)
    * (MOST_COORDINATE as u64)
    * (MOST_COORDINATE as u64);

pub const MOST_VOLUME: u64 = 2 * (MOST_TRIANGLES as u64) * MOST_PRODUCT;

// The product of three coordinates.
fn product(a: u32, b: u32, c: u32) -> u64
    requires { (a ≤ most_coordinate) × (b ≤ most_coordinate) × (c ≤ most_coordinate) }
    ensures { (result ≡ a * b * c) × (result ≤ most_product) }
{
    (a as u64) * (b as u64) * (c as u64)
}

// Three points as rows: the products along the three diagonals that go down to the right.
#[tactic(auto, unfolding(crate::specs::Record::diagonals))]
pub fn diagonals(a: Place, b: Place, c: Place) -> u64
    requires near { Near a }
    requires near_2 { Near b }
    requires near_3 { Near c }
    ensures { result ≡ diagonalsOf a b c }
{
    product(a.x, b.y, c.z) + product(a.y, b.z, c.x) + product(a.z, b.x, c.y)
}

// The determinant of triangle k's three points as rows.
pub fn sixfold(points: &[u32], triangles: &[u32], k: usize) -> i64
    requires mesh_fits { MeshFits points.now triangles.now }
    requires k_bound { k < triangle_count triangles.now }
    ensures value { result ≡ sixfoldOf points.now (triangle_at triangles.now k) }
    ensures sfits { SFits w64 result }
{
    let at = 3 * k;
    let a = mesh::place_of(points, triangles[at] as usize);
    let b = mesh::place_of(points, triangles[at + 1] as usize);
    let c = mesh::place_of(points, triangles[at + 2] as usize);
    laws::signed::excess(diagonals(a, b, c), diagonals(c, b, a))
}
