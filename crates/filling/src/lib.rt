// A granted mesh goes from the text and the work room into the result rooms (document 02 (iii)).

#![tactic(auto)]

ghost use Rattle.std.specs.Prelude.{◌≡◌, ◌≤◌, length};
ghost use Rattle.laws.specs.Room.{laid};
ghost use Rattle.grid.specs.Limits.{most_points};
ghost use Rattle.judge.specs.Judged.{edges_at, marks_on};
ghost use Rattle.filling.specs.Filled.{PointsThere, MarksFit, Fillable, ListsFilled};

use columns::Parts;
use judge::Judged;
use meshrows::read_point;
use rooms::copy;

// Reads the lines of all points once more: their grid edges and marks go to the rooms. Each line is known to be well formed.
fn fill_points(input: &[u8], from: usize, v: usize, edges: &mut [u32], marks: &mut [u8])
    requires points_there { PointsThere input.now from v × MarksFit input.now from v }
    requires v_le_most_points { (v ≤ most_points) × (v ≤ length edges.old) × (v ≤ length marks.old) }
    ensures edges { edges.new ≡ laid (edges_at input.now from v) edges.old }
    ensures marks { marks.new ≡ laid (marks_on input.now from v) marks.old }
{
    let mut at = from;
    let mut bound = 0;
    for i in 0..v {
        let (numbers, next) = read_point(input, at, bound).unwrap();
        edges[i] = numbers[0];
        marks[i] = numbers[4] as u8;
        at = next;
        bound = (numbers[0] as u64) + 1;
    }
}

// Fills the rooms of points, grid edges, marks and triangles, and makes the work room zero.
pub fn fill_lists(
    input: &[u8],
    judged: Judged,
    points: &mut [u32],
    edges: &mut [u32],
    marks: &mut [u8],
    triangles: &mut [u32],
    work: &mut [u32],
)
    requires { Fillable input.now judged points.old edges.old marks.old triangles.old work.old }
    ensures { ListsFilled input.now judged points.old points.new edges.old edges.new marks.old marks.new triangles.old triangles.new work.old work.new }
{
    let parts = Parts {
        points: judged.counts.points as usize,
        triangles: judged.counts.triangles as usize,
    };
    let coordinates = 3 * parts.points;
    let corners = 3 * parts.triangles;
    copy(0, work, &mut points[..coordinates]);
    copy(parts.triangles_at(), work, &mut triangles[..corners]);
    fill_points(input, judged.points_at, parts.points, edges, marks);
    work.fill(0);
}
