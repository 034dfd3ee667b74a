// What a caller's mesh must pass, for every call on a mesh, and where its points stand.

#![tactic(auto)]

ghost use Rattle.std.specs.Prelude.{◌≡◌, ◌+◌, ◌*◌, ◌<◌, length};
ghost use Rattle.laws.specs.Mesh.{triangle};
ghost use Rattle.grid.specs.Refusal.{told};
ghost use Rattle.mesh.specs.Check.{lengths_fit, names_three, triangles_fit, all_within};
ghost use Rattle.mesh.specs.Place.{place_of};
ghost use Rattle.mesh.specs.Promise.{Checked};

use grid::limits::{MOST_COORDINATE, MOST_POINTS, MOST_TRIANGLES};
use grid::refusal::Refusal;

// A mesh that a caller lends: points, three coordinates each; triangles, three point numbers each; and a mark for each point.
#[derive(Clone, Copy)]
pub struct Mesh<'a> {
    pub points: &'a [u32],
    pub triangles: &'a [u32],
    pub marks: &'a [u8],
}

// Where a point stands.
#[derive(Clone, Copy)]
pub struct Place {
    pub x: u32,
    pub y: u32,
    pub z: u32,
}

// Where point p stands.
pub fn place_of(points: &[u32], p: usize) -> Place
    requires { 3 * p + 2 < length points.now }
    ensures { result ≡ place_of points.now p }
{
    let at = 3 * p;
    Place {
        x: points[at],
        y: points[at + 1],
        z: points[at + 2],
    }
}

// Are there three coordinates a point and three numbers a triangle, and not too many of either?
#[tactic(auto, unfolding(crate::specs::Check::lengths_fit), using(std::proofs::lemmas::Bool::Decides::nat_tests))]
pub fn lengths_fit(points: usize, triangles: usize, v: usize) -> bool
    ensures { result ≡ lengths_fit points triangles v }
{
    if v > (MOST_POINTS as usize) {
        return false;
    }
    if points != 3 * v {
        return false;
    }
    if triangles % 3 != 0 {
        return false;
    }
    triangles / 3 <= MOST_TRIANGLES as usize
}

// Three different numbers below v?
#[tactic(auto, unfolding(crate::specs::Check::names_three), using(std::proofs::lemmas::Bool::Decides::nat_tests))]
fn names_three(a: u32, b: u32, c: u32, v: usize) -> bool
    ensures { result ≡ names_three v (triangle a b c) }
{
    if v <= a as usize {
        return false;
    }
    if v <= b as usize {
        return false;
    }
    if v <= c as usize {
        return false;
    }
    if a == b {
        return false;
    }
    if b == c {
        return false;
    }
    c != a
}

// Does each triangle name three different points below v?
#[tactic(auto, unfolding(crate::specs::Check::triangles_fit), using(crate::proofs::Places::all_steps))]
pub fn triangles_fit(triangles: &[u32], v: usize) -> bool
    ensures { result ≡ triangles_fit triangles.now v }
{
    for i in 0..triangles.len() / 3 {
        let at = 3 * i;
        if !names_three(triangles[at], triangles[at + 1], triangles[at + 2], v) {
            return false;
        }
    }
    true
}

// Is each number within the limit?
pub fn all_within(numbers: &[u32], most: u32) -> bool
    ensures { result ≡ all_within most numbers.now }
{
    numbers.iter().all(|x| *x <= most)
}

impl Mesh<'_> {
    // The first of the refusals 6, 7, 8, 9 that holds of a mesh.
    #[tactic(auto, unfolding(crate::specs::Check::mesh_number))]
    pub fn check(self) -> Result<(), Refusal>
        ensures { Checked self.entry.points.now self.entry.triangles.now self.entry.marks.now (told result) }
    {
        let v = self.marks.len();
        if !lengths_fit(self.points.len(), self.triangles.len(), v) {
            return Err(Refusal::Lengths);
        }
        if !triangles_fit(self.triangles, v) {
            return Err(Refusal::Corners);
        }
        if !all_within(self.points, MOST_COORDINATE) {
            return Err(Refusal::Coordinates);
        }
        if !self.marks.iter().all(|mark| *mark <= 1) {
            return Err(Refusal::Marks);
        }
        Ok(())
    }
}
