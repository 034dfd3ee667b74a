// What the program answers to its input: read, extract, print. All rooms are local.
ghost use Rattle.std.specs.Prelude.{◌≤◌, length, take};
ghost use Rattle.printing.specs.Sizes.{most_output};
ghost use Rattle.printing.specs.Prints.{Prints};
ghost use Rattle.small.specs.Answer.{grid_edges, smoothed_mesh, Answers};
ghost use Rattle.small.specs.Promise.{SmallGrid};

use grid::limits::MOST_SMALL;
use gridtext::Head;
use mesh::Mesh;
use printing::zeros::{MOST_SMALL_COORDINATES, MOST_SMALL_CORNERS, MOST_SMALL_POINTS};
use printing::{write_smoothed, zeros};

// Extracts the mesh of a grid and writes its text.
fn write_grid(head: Head, samples: &[u16], output: &mut [u8]) -> usize
    requires { SmallGrid head samples.now × (most_output ≤ length output.old) }
    ensures inside { result ≤ length output.new }
    ensures text { Prints (smoothed_mesh head samples.now) (grid_edges head samples.now) (take result output.new) }
{
    let mut points: [u32; MOST_SMALL_COORDINATES] = zeros::room(0);
    let mut edges: [u32; MOST_SMALL_POINTS] = zeros::room(0);
    let mut marks: [u8; MOST_SMALL_POINTS] = zeros::room(0);
    let mut triangles: [u32; MOST_SMALL_CORNERS] = zeros::room(0);
    let mut work: [u32; MOST_SMALL_POINTS] = zeros::room(0);
    let done = extract::extract(
        head.nx,
        head.ny,
        head.nz,
        head.grey,
        samples,
        &mut points,
        &mut edges,
        &mut marks,
        &mut triangles,
        &mut work[..3 * samples.len()],
    );
    let counts = done.unwrap();
    let v = counts.points as usize;
    let t = counts.triangles as usize;
    let mesh = Mesh {
        points: &points[..3 * v],
        triangles: &triangles[..3 * t],
        marks: &marks[..v],
    };
    write_smoothed(mesh, &edges[..v], head.rounds, head.weight, output)
}

// Answers an input: the text of a mesh, or a refusal's line. Answers the text's length.
pub fn answer(input: &[u8], output: &mut [u8]) -> usize
    requires { most_output ≤ length output.old }
    ensures inside { result ≤ length output.new }
    ensures text { Answers input.now (take result output.new) }
{
    let mut samples = [0u16; MOST_SMALL as usize];
    match gridtext::read_grid(input, &mut samples) {
        Ok(head) => {
            let n = (head.nx * (head.ny * head.nz)) as usize;
            write_grid(head, &samples[..n], output)
        }
        Err(refusal) => {
            let written = writing::write_refusal(refusal.number(), refusal.grid_line(), output);
            written.unwrap_or(0)
        }
    }
}
