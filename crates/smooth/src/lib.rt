// Smoothing.

#![tactic(auto)]

ghost use Rattle.std.specs.Prelude.{◌≡◌, ◌+◌, ◌*◌, ◌≤◌, length, replicate};
ghost use Rattle.grid.specs.Limits.{most_rounds, most_weight};
ghost use Rattle.grid.specs.Refusal.{told};
ghost use Rattle.mesh.specs.Mesh.{triangle_count, triangles_of};
ghost use Rattle.mesh.specs.Check.{mesh_number};
ghost use Rattle.rounds.specs.Round.{rounds as roundsOf};
ghost use Rattle.smooth.specs.Promise.{Smooths};

use grid::limits::{MOST_ROUNDS, MOST_WEIGHT};
use grid::refusal::Refusal;
use mesh::Mesh;
use rooms::copy;
use rounds::round;

// All rounds of a call that nothing refuses. The work room's parts: neighbours up to `at`, then their starts, then a stamp for each
// point, then the places that a round writes.
fn granted(mesh: Mesh, rounds: u32, weight: u32, smoothed: &mut [u32], work: &mut [u32])
    requires marks_value { mesh_number mesh.points.now mesh.triangles.now mesh.marks.now ≡ 0 }
    requires rounds_le_most_rounds { (rounds ≤ most_rounds) × (weight ≤ most_weight) }
    requires smoothed_len { length smoothed.old ≡ 3 * length mesh.marks.now }
    requires work_len { length work.old ≡ 6 * triangle_count mesh.triangles.now + 5 * length mesh.marks.now + 1 }
    ensures moved { smoothed.new ≡ roundsOf (triangles_of mesh.entry.triangles.now) mesh.entry.marks.now weight rounds mesh.entry.points.now }
    ensures zero { work.new ≡ replicate (length work.old) 0 }
{
    let v = mesh.marks.len();
    let at = 2 * mesh.triangles.len();
    copy(0, mesh.points, smoothed);
    neighbours::list(mesh.triangles, v, at, work);
    for _ in 0..rounds {
        round(mesh.marks, weight, at, at + 2 * v + 1, smoothed, work);
    }
    rooms::clear(work);
}

// Rounds of smoothing into the second point list.
#[tactic(auto, unfolding(crate::specs::Smooth::smoothed, crate::specs::Smooth::smooth_number, crate::specs::Smooth::smooth_rooms_fit), using(std::proofs::lemmas::Bool::Decides::nat_tests))]
pub fn smooth(
    mesh: Mesh,
    rounds: u32,
    weight: u32,
    smoothed: &mut [u32],
    work: &mut [u32],
) -> Result<(), Refusal>
    ensures { Smooths mesh.entry.points.now mesh.entry.triangles.now mesh.entry.marks.now rounds weight
        smoothed.old work.old (told result) smoothed.new work.new }
{
    mesh.check()?;
    if rounds > MOST_ROUNDS {
        return Err(Refusal::Smoothing);
    }
    if weight > MOST_WEIGHT {
        return Err(Refusal::Smoothing);
    }
    let v = mesh.marks.len();
    if smoothed.len() != 3 * v {
        return Err(Refusal::Room);
    }
    if work.len() != 6 * (mesh.triangles.len() / 3) + 5 * v + 1 {
        return Err(Refusal::Room);
    }
    granted(mesh, rounds, weight, smoothed, work);
    Ok(())
}
