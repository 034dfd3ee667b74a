// Areas and mean curvature of a mesh, and one point's answer read back.

#![tactic(auto)]

ghost use Rattle.grid.specs.Refusal.{told as told_number};
ghost use Rattle.curvature.specs.Promise.{left, Curves, ReadsBack};

mod answers;

pub use answers::{Answer, Plain, told};
use grid::refusal::Refusal;
use measures::vectors;
use mesh::Mesh;

// The corner areas and mean curvature vectors of a mesh, into the two lent rooms.
#[tactic(auto, unfolding(crate::specs::Curved::curved), using(std::proofs::lemmas::Bool::Decides::nat_tests))]
pub fn curvature(mesh: Mesh, areas: &mut [f64], vectors: &mut [f64]) -> Result<(), Refusal>
    ensures { let after = left (told_number result) areas.new vectors.new in
        Curves mesh.entry.points.now mesh.entry.triangles.now mesh.entry.marks.now areas.old vectors.old after }
{
    mesh.check()?;
    if areas.len() != mesh.marks.len() {
        return Err(Refusal::Room);
    }
    if vectors.len() != 3 * mesh.marks.len() {
        return Err(Refusal::Room);
    }
    sums::clear(areas);
    sums::clear(vectors);
    sums::add_triangles(mesh.points, mesh.triangles, areas, vectors);
    answers::finish(mesh.marks, areas, vectors);
    Ok(())
}

// One point's answer, from the marks and both rooms.
#[tactic(auto, unfolding(crate::specs::Answers::read_back_number, crate::specs::Answers::holds_of, crate::specs::Answers::answer_at), using(std::proofs::lemmas::Bool::Decides::nat_tests))]
pub fn read_back(
    marks: &[u8],
    areas: &[f64],
    vectors: &[f64],
    point: u32,
) -> Result<Answer, Refusal>
    ensures { ReadsBack marks.now areas.now vectors.now point result }
{
    let v = marks.len();
    if areas.len() != v {
        return Err(Refusal::Lengths);
    }
    if vectors.len() != 3 * v {
        return Err(Refusal::Lengths);
    }
    let p = point as usize;
    if v <= p {
        return Err(Refusal::Beyond);
    }
    let mark = marks[p];
    if mark > 1 {
        return Err(Refusal::Marks);
    }
    let answer = answers::answer_of(mark, areas[p], vectors::vector_at(vectors, 3 * p));
    Ok(answer)
}
