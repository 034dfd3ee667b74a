// One line of a mesh's text, read at a place of the text (document 02 (iii)). Each reader answers what the line says and the place behind it, or nothing.

#![tactic(auto)]

ghost use Rattle.std.specs.Prelude.{◌≡◌, true, ◌+◌, ◌≤◌, leb, length, drop};
ghost use Rattle.reading.specs.Reading.{most_word, read_lettered, read_row};
ghost use Rattle.reading.specs.Answers.{answered};
ghost use Rattle.meshread.specs.Lines.{read_counts, read_point, read_triangle, shell_of, read_shell};
ghost use Rattle.meshrows.specs.Answers.{starts_with, Behind, answered_counts};

use reading::{read_fields, read_signed};
use records::Shell;
use records::volume::MOST_VOLUME;

// The numbers of line 1.
#[derive(Clone, Copy)]
pub struct Counts {
    pub points: u32,
    pub triangles: u32,
    pub shells: u32,
}

// Do a letter and a tab stand at a place?
fn begins(input: &[u8], from: usize, letter: u8) -> bool
    ensures starts { result ≡ starts_with letter (drop from input.now) }
    ensures inside { result ≡ true → from + 2 ≤ length input.now }
{
    if from >= input.len() {
        return false;
    }
    if input[from] != letter {
        return false;
    }
    if from + 1 >= input.len() {
        return false;
    }
    input[from + 1] == b'\t'
}

// A letter and so many numbers.
fn read_numbers<const N: usize>(input: &[u8], from: usize, letter: u8) -> Option<([u32; N], usize)>
    ensures line { read_lettered letter (read_row most_word N) (drop from input.now) ≡ answered input.now result }
    ensures place { Behind input.now from result }
{
    if !begins(input, from, letter) {
        return None;
    }
    let mut numbers = [0u32; N];
    let next = read_fields(input, from + 2, 0, &mut numbers)?;
    Some((numbers, next))
}

// Reads line 1.
pub fn read_counts(input: &[u8]) -> Option<(Counts, usize)>
    ensures line { read_counts input.now ≡ answered_counts input.now result }
    ensures place { Behind input.now 0 result }
{
    let (numbers, next) = read_numbers::<3>(input, 0, b'M')?;
    let [points, triangles, shells] = numbers;
    Some((
        Counts {
            points,
            triangles,
            shells,
        },
        next,
    ))
}

// Is an edge number not below the bound? The bound is one more than the edge number of the line before, so that this is whether bounds rise.
fn rises(edge: u32, bound: u64) -> bool
    ensures { result ≡ leb bound edge }
{
    bound < (edge as u64) + 1
}

// Reads a point's line: grid edge, x, y, z, mark. Its edge number is not below the bound.
pub fn read_point(input: &[u8], from: usize, bound: u64) -> Option<([u32; 5], usize)>
    ensures line { read_point bound (drop from input.now) ≡ answered input.now result }
    ensures place { Behind input.now from result }
{
    let (numbers, next) = read_numbers::<5>(input, from, b'V')?;
    if !rises(numbers[0], bound) {
        return None;
    }
    Some((numbers, next))
}

// Reads a triangle's line: three points.
pub fn read_triangle(input: &[u8], from: usize) -> Option<([u32; 3], usize)>
    ensures line { read_triangle (drop from input.now) ≡ answered input.now result }
    ensures place { Behind input.now from result }
{
    read_numbers::<3>(input, from, b'T')
}

fn shell_of(counts: [u32; 4], volume: i64, sides: [u32; 6]) -> Shell
    ensures { result ≡ shell_of counts (volume, sides) }
{
    Shell {
        low: counts[0],
        points: counts[1],
        triangles: counts[2],
        touches: counts[3],
        volume,
        least_x: sides[0],
        greatest_x: sides[1],
        least_y: sides[2],
        greatest_y: sides[3],
        least_z: sides[4],
        greatest_z: sides[5],
    }
}

// Reads a shell's line: four numbers, the sixfold volume, and the box.
pub fn read_shell(input: &[u8], from: usize) -> Option<(Shell, usize)>
    ensures line { read_shell (drop from input.now) ≡ answered input.now result }
    ensures place { Behind input.now from result }
{
    if !begins(input, from, b'S') {
        return None;
    }
    let mut counts = [0u32; 4];
    let measured_at = read_fields(input, from + 2, 7, &mut counts)?;
    let (volume, boxed_at) = read_signed(input, measured_at, MOST_VOLUME, b'\t')?;
    let mut sides = [0u32; 6];
    let next = read_fields(input, boxed_at, 0, &mut sides)?;
    Some((shell_of(counts, volume, sides), next))
}
