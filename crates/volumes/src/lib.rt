// The sixfold volumes of all shells, two words each, in the reader's work room.

#![tactic(auto)]

ghost use Rattle.std.specs.Prelude.{◌≡◌, ◌+◌, ◌*◌, ◌<◌, ◌≤◌, ◌^◌, length};
ghost use Rattle.mesh.specs.Mesh.{triangle_at};
ghost use Rattle.records.specs.Grown.{most_volume};
ghost use Rattle.columns.specs.Room.{ShellsStand, work_length, points_in, triangles_in, triangle_number};
ghost use Rattle.volumes.specs.Volumes.{volume_in, stored_volume, high_word, low_word, words_in, with_words, all_words, volume_read};
ghost use Rattle.volumes.specs.Turns.{changed, corners_at, Turnable, VolumeTurn};

use columns::{Parts, fill};
use mesh::place_of;
use records::volume::{MOST_VOLUME, diagonals};

// How many numbers there are of 32 bits.
const WORDS: u64 = 4_294_967_296;

// The two words of a number.
fn high(x: u64) -> u32
    ensures { result ≡ high_word x }
{
    (x / WORDS) as u32
}

fn low(x: u64) -> u32
    ensures { result ≡ low_word x }
{
    (x % WORDS) as u32
}

// The number of two words.
fn joined(high: u32, low: u32) -> u64
    ensures { result ≡ high * 2 ^ 32 + low }
{
    (high as u64) * WORDS + (low as u64)
}

// The number that stands in shell n's two words.
fn words_at(work: &[u32], parts: Parts, n: usize) -> u64
    requires { (n < parts.points) × (length work.now ≡ work_length parts.points parts.triangles) }
    ensures { result ≡ words_in parts.points parts.triangles work.now n }
{
    joined(work[parts.marks_at() + n], work[parts.column_at() + n])
}

// A number into shell n's two words.
fn put_words(work: &mut [u32], parts: Parts, n: usize, x: u64)
    requires { (n < parts.points) × (length work.old ≡ work_length parts.points parts.triangles) }
    ensures { work.new ≡ with_words parts.points parts.triangles n x work.old }
{
    work[parts.marks_at() + n] = high(x);
    work[parts.column_at() + n] = low(x);
}

// A stored volume with one triangle more, whose corners stand from `at` on.
fn with_triangle(work: &[u32], at: usize, stored: u64) -> u64
    requires { Turnable work.now at stored }
    ensures { result ≡ changed work.now (corners_at work.now at) stored }
{
    let a = place_of(work, work[at] as usize);
    let b = place_of(work, work[at + 1] as usize);
    let c = place_of(work, work[at + 2] as usize);
    stored + diagonals(a, b, c) - diagonals(c, b, a)
}

// Triangle k into its shell's volume.
fn add_triangle(work: &mut [u32], parts: Parts, k: usize)
    requires { VolumeTurn parts.points parts.triangles work.old k }
    ensures { let room = work.old in
        let n = triangle_number parts.points parts.triangles room k in
        work.new ≡ with_words parts.points parts.triangles n (changed (points_in parts.points room) (triangle_at (triangles_in parts.points parts.triangles room) k) (words_in parts.points parts.triangles room n)) room }
{
    let at = parts.triangles_at() + 3 * k;
    let first = work[at] as usize;
    let n = work[parts.numbers_at() + first] as usize;
    let stored = with_triangle(work, at, words_at(work, parts, n));
    put_words(work, parts, n, stored);
}

// The words of no volume for every shell.
fn start(work: &mut [u32], parts: Parts, shells: usize)
    requires { (shells ≤ parts.points) × (length work.old ≡ work_length parts.points parts.triangles) }
    ensures { work.new ≡ all_words parts.points parts.triangles shells (λ n. most_volume) work.old }
{
    fill(work, parts.marks_at(), shells, high(MOST_VOLUME));
    fill(work, parts.column_at(), shells, low(MOST_VOLUME));
}

// The volume of every shell, from the mesh and the shell numbers that stand in the room: the high words over the part of the marks, the low words into the column.
pub fn gather_volumes(work: &mut [u32], parts: Parts, shells: usize)
    requires { ShellsStand shells parts.points parts.triangles work.old }
    ensures { let room = work.old in
        work.new ≡ all_words parts.points parts.triangles shells (λ n. stored_volume (volume_in parts.points parts.triangles room n)) room }
{
    start(work, parts, shells);
    for k in 0..parts.triangles {
        add_triangle(work, parts, k);
    }
}

// The volume that shell n's two words hold.
pub fn volume_at(work: &[u32], parts: Parts, n: usize) -> i64
    requires n_lt_v { (n < parts.points) × (length work.now ≡ work_length parts.points parts.triangles) }
    requires n_bound { words_in parts.points parts.triangles work.now n ≤ 2 * most_volume }
    ensures { result ≡ volume_read parts.points parts.triangles work.now n }
{
    laws::signed::excess(words_at(work, parts, n), MOST_VOLUME)
}
