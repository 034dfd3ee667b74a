// The pass over the lines of a mesh's text behind line 1: the form of every line, and points, marks and triangles into the work room (document 02 (iii)).

#![tactic(auto)]

ghost use Rattle.std.specs.Prelude.{◌≡◌, ◌+◌, ◌*◌, ◌^◌, ◌≤◌, ◌<◌, length, drop};
ghost use Rattle.grid.specs.Limits.{most_points, most_triangles};
ghost use Rattle.columns.specs.Room.{work_length};
ghost use Rattle.meshform.specs.Form.{counts_for, TakesPoint, TakesTriangle, point_lines, triangle_lines, last_lines, with_points, with_triangles, Passes, Anything, Forms};

use columns::Parts;
use meshrows::{read_point, read_shell, read_triangle};

// Takes the line of point i: its place and its mark go to the room. Answers the place behind the line, and the least edge number that may follow.
fn take_point(
    input: &[u8],
    from: usize,
    bound: u64,
    i: usize,
    parts: Parts,
    work: &mut [u32],
) -> Option<(usize, u64)>
    requires { (i < parts.points) × (parts.points ≤ most_points) × (4 * parts.points ≤ length work.old) }
    ensures { TakesPoint input.now from bound i parts.points work.old result work.new }
{
    let (numbers, next) = read_point(input, from, bound)?;
    let at = 3 * i;
    work[at] = numbers[1];
    work[at + 1] = numbers[2];
    work[at + 2] = numbers[3];
    work[parts.marks_at() + i] = numbers[4];
    Some((next, (numbers[0] as u64) + 1))
}

// Takes a triangle's line: its corners go to the room from `at` on. Answers the place behind the line.
fn take_triangle(input: &[u8], from: usize, at: usize, work: &mut [u32]) -> Option<usize>
    requires { at + 2 < length work.old }
    ensures { TakesTriangle input.now from at work.old result work.new }
{
    let (numbers, next) = read_triangle(input, from)?;
    work[at] = numbers[0];
    work[at + 1] = numbers[1];
    work[at + 2] = numbers[2];
    Some(next)
}

// Takes the lines of all points, from line 2 on. This pass and the two after it answer the place behind their lines, or the first malformed line.
fn take_points(input: &[u8], from: usize, parts: Parts, work: &mut [u32]) -> Result<usize, u64>
    requires { (parts.points ≤ most_points) × (4 * parts.points ≤ length work.old) }
    ensures { Passes (point_lines parts.points (drop from input.now)) input.now result (λ vs. work.new ≡ with_points parts.points vs work.old) }
{
    let mut at = from;
    let mut bound = 0;
    for i in 0..parts.points {
        let Some((next, least)) = take_point(input, at, bound, i, parts, work) else {
            return Err((i as u64) + 2);
        };
        at = next;
        bound = least;
    }
    Ok(at)
}

// Takes the lines of all triangles, behind those of the points.
fn take_triangles(input: &[u8], from: usize, parts: Parts, work: &mut [u32]) -> Result<usize, u64>
    requires { (parts.points ≤ most_points) × (parts.triangles ≤ most_triangles) × (4 * parts.points + 3 * parts.triangles ≤ length work.old) }
    ensures { Passes (triangle_lines parts.triangles (2 + parts.points) (drop from input.now)) input.now result (λ ts. work.new ≡ with_triangles parts.points ts work.old) }
{
    let base = parts.triangles_at();
    let mut at = from;
    for k in 0..parts.triangles {
        let Some(next) = take_triangle(input, at, base + 3 * k, work) else {
            return Err((2 + parts.points + k) as u64);
        };
        at = next;
    }
    Ok(at)
}

// Passes over the lines of all shells to the end of the text; the first of them has this number.
fn pass_shells(input: &[u8], from: usize, first: u64, shells: usize) -> Result<usize, u64>
    requires { (first < 2 ^ 32) × (shells < 2 ^ 32) }
    ensures { Passes (last_lines shells first (drop from input.now)) input.now result (λ _. Anything) }
{
    let mut at = from;
    for n in 0..shells {
        let Some((_, next)) = read_shell(input, at) else {
            return Err(first + (n as u64));
        };
        at = next;
    }
    if at < input.len() {
        return Err(first + (shells as u64));
    }
    Ok(at)
}

// Takes the lines of the points and triangles from a place on, and passes over those of the shells. Answers the place where the lines of the shells begin, or the first
// malformed line.
pub fn take_lines(
    input: &[u8],
    from: usize,
    parts: Parts,
    shells: usize,
    work: &mut [u32],
) -> Result<usize, u64>
    requires { (parts.points ≤ most_points) × (parts.triangles ≤ most_triangles) × (shells < 2 ^ 32) × (length work.old ≡ work_length parts.points parts.triangles) }
    ensures { Forms (counts_for parts.points parts.triangles shells) input.now from result work.new }
{
    let triangles_at = take_points(input, from, parts, work)?;
    let shells_at = take_triangles(input, triangles_at, parts, work)?;
    let first = 2 + parts.points + parts.triangles;
    pass_shells(input, shells_at, first as u64, shells)?;
    Ok(shells_at)
}
