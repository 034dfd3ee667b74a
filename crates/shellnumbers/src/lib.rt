// The shell number of each point: points that triangle sides lead between have one number.

#![tactic(auto)]

ghost use Rattle.std.specs.Prelude.{◌≡◌};
ghost use Rattle.grid.specs.Refusal.{told, granted_or};
ghost use Rattle.shellnumbers.specs.Lists.{left, refusal, Lists};

use grid::refusal::Refusal;
use mesh::Mesh;

// The first of the refusals 6, 7, 8, 9 and 3 that holds.
#[tactic(auto, unfolding(crate::specs::Lists::refusal, crate::specs::Lists::shell_rooms_fit), using(std::proofs::lemmas::Bool::Decides::nat_tests))]
fn check(mesh: Mesh, numbers: usize, work: usize) -> Result<(), Refusal>
    ensures { told result ≡ refusal mesh.entry.points.now mesh.entry.triangles.now mesh.entry.marks.now numbers work }
{
    mesh.check()?;
    let v = mesh.marks.len();
    if numbers != v {
        return Err(Refusal::Room);
    }
    if work != 2 * v {
        return Err(Refusal::Room);
    }
    Ok(())
}

// The shell number of each point and how many shells there are, where so many records are lent: all of the call but the
// records. The work room is left zero, unless a check refuses the call.
pub fn list_numbers(
    mesh: Mesh,
    numbers: &mut [u32],
    work: &mut [u32],
    records: usize,
) -> Result<usize, Refusal>
    ensures { let after = left (told result) (granted_or 0 result) numbers.new work.new in
        Lists mesh.entry.points.now mesh.entry.triangles.now mesh.entry.marks.now records numbers.old work.old after }
{
    check(mesh, numbers.len(), work.len())?;
    let v = mesh.marks.len();
    sets::unite(work, mesh.triangles, v);
    let shells = sets::count(work, v);
    if records < shells {
        rooms::clear(work);
        return Err(Refusal::Shells);
    }
    sets::number(work, numbers);
    rooms::clear(work);
    Ok(shells)
}
