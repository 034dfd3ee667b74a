// A round of smoothing, over the lists of neighbours in the work room.

#![tactic(auto)]

ghost use Rattle.std.specs.Prelude.{◌≡◌, not, ◌&&◌, [], ◌∷◌, ◌+◌, ◌*◌, ◌-◌, ◌<◌, ◌≤◌, eqb, leb, length};
ghost use Rattle.std.proofs.lemmas.List.Edits.{sets};
ghost use Rattle.grid.specs.Limits.{most_weight, most_points, most_coordinate};
ghost use Rattle.rounds.specs.Round.{moved as moved_to};
ghost use Rattle.rounds.specs.Steps.{SmallPlaces, NamesTo, Held, SameTo, held_sum, held_point, held_round};

use grid::limits::MOST_WEIGHT;
use rooms::copy;

// ((256 - w)·d·p + w·S) / (256·d) to the nearest, halves up: where coordinate p of a point goes that has d neighbours whose coordinates sum up to S.
fn moved(weight: u32, d: usize, p: u32, sum: u64) -> u32
    requires weight_le_most_weight { weight ≤ most_weight }
    requires d_nonzero { (0 < d) × (d ≤ most_points) }
    requires p_le_most_coordinate { p ≤ most_coordinate }
    requires sum_bound { sum ≤ d * most_coordinate }
    ensures { (result ≡ moved_to weight d p sum) × (result ≤ most_coordinate) }
{
    let whole = (MOST_WEIGHT as u64) * (d as u64);
    let own = ((MOST_WEIGHT - weight) as u64) * (d as u64) * (p as u64);
    ((2 * (own + (weight as u64) * sum) + whole) / (2 * whole)) as u32
}

// What the coordinates of a point's neighbours sum up to.
#[derive(Clone, Copy)]
struct Sums {
    x: u64,
    y: u64,
    z: u64,
}

fn sum_up(from: usize, end: usize, old: &[u32], work: &[u32]) -> Sums
    requires from_le_end { (from ≤ end) × (end ≤ length work.now) }
    requires from_bound { end - from ≤ most_points }
    requires names_to { NamesTo (end - from) from old.now work.now }
    requires small_places { SmallPlaces old.now }
    ensures x { result.x ≡ held_sum old.now work.now from (end - from) 0 }
    ensures y { result.y ≡ held_sum old.now work.now from (end - from) 1 }
    ensures z { result.z ≡ held_sum old.now work.now from (end - from) 2 }
{
    let mut x: u64 = 0;
    let mut y: u64 = 0;
    let mut z: u64 = 0;
    for i in from..end {
        let q = 3 * (work[i] as usize);
        x += old[q] as u64;
        y += old[q + 1] as u64;
        z += old[q + 2] as u64;
    }
    Sums { x, y, z }
}

// Does a point stay: one that is marked, or has no neighbour?
fn stays(mark: u8, d: usize) -> bool
    ensures { result ≡ not (eqb mark 0 && leb 1 d) }
{
    if mark != 0 {
        return true;
    }
    d == 0
}

// Three numbers written from a place on.
fn write_three(to: usize, x: u32, y: u32, z: u32, work: &mut [u32])
    requires { to + 2 < length work.old }
    ensures { work.new ≡ sets work.old to (x ∷ y ∷ z ∷ []) }
{
    work[to] = x;
    work[to + 1] = y;
    work[to + 2] = z;
}

// The place of point p after the round, written from `to` on.
fn place(
    mark: u8,
    weight: u32,
    p: usize,
    v: usize,
    at: usize,
    to: usize,
    old: &[u32],
    work: &mut [u32],
)
    requires weight_le_most_weight { weight ≤ most_weight }
    requires p_lt_v { p < v }
    requires held { Held at work.old v }
    requires len { length old.now ≡ 3 * v }
    requires small_places { SmallPlaces old.now }
    requires v_bound { (at + v < to) × (to + 2 < length work.old) }
    ensures { work.new ≡ sets work.old to (held_point at work.old mark weight old.now p) }
{
    let from = work[at + p] as usize;
    let end = work[at + p + 1] as usize;
    let d = end - from;
    let here = 3 * p;
    if stays(mark, d) {
        write_three(to, old[here], old[here + 1], old[here + 2], work);
        return;
    }
    let sums = sum_up(from, end, old, work);
    let x = moved(weight, d, old[here], sums.x);
    let y = moved(weight, d, old[here + 1], sums.y);
    let z = moved(weight, d, old[here + 2], sums.z);
    write_three(to, x, y, z, work);
}

// A round: every point's new place goes behind `second` first, since all points of a round read the old places.
pub fn round(
    marks: &[u8],
    weight: u32,
    at: usize,
    second: usize,
    smoothed: &mut [u32],
    work: &mut [u32],
)
    requires weight_le_most_weight { weight ≤ most_weight }
    requires held { Held at work.old (length marks.now) }
    requires smoothed_len { length smoothed.old ≡ 3 * length marks.now }
    requires small_places { SmallPlaces smoothed.old }
    requires marks_bound { (at + length marks.now < second) × (second + 3 * length marks.now ≤ length work.old) }
    ensures moved { smoothed.new ≡ held_round at work.old marks.now weight smoothed.old }
    ensures kept { SameTo second work.old work.new }
{
    let v = marks.len();
    for (p, mark) in marks.iter().enumerate() {
        place(*mark, weight, p, v, at, second + 3 * p, smoothed, work);
    }
    copy(second, work, smoothed);
}
