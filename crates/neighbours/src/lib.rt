// Each point's different neighbours, listed once for all rounds in the work room.
//
// The room's parts: the entries, two for each corner of each triangle (6T in all); from `at` on the starts, V + 1 of them; then a stamp for each point.
// While the room is filled a point's entries are its bucket, and its start is where the bucket's next entry goes.

#![tactic(auto)]

ghost use Rattle.std.specs.Prelude.{◌≡◌, ◌+◌, ◌*◌, ◌-◌, ◌<◌, ◌≤◌, length, get_or};
ghost use Rattle.laws.specs.Range.{sum_to};
ghost use Rattle.grid.specs.Limits.{most_triangles};
ghost use Rattle.neighbours.specs.Lists.{bucket, different_to, ListsFit, Listed};
ghost use Rattle.neighbours.specs.Steps.{AllBelow, HoldsTo, From, Same, WrittenFrom, StampsBelow, size_to, put_two, Filled};

// How long each bucket will be: two entries for each corner.
fn count(triangles: &[u32], at: usize, work: &mut [u32])
    requires triangles_len_bound { length triangles.now ≤ 3 * most_triangles }
    requires all_below { AllBelow (length triangles.now) (λ k. at + get_or triangles.now k 0) (length work.old) }
    requires from { From at (λ p. 0) work.old }
    ensures { From at (size_to triangles.now (length triangles.now)) work.new }
{
    for corner in triangles {
        work[at + *corner as usize] += 2;
    }
}

// Where each bucket begins: behind those of all points below.
fn begin(v: usize, at: usize, work: &mut [u32])
    requires v_in_bounds { at + v ≤ length work.old }
    requires at_bound { at ≤ 6 * most_triangles }
    requires p_bound { sum_to v (λ p. get_or work.old (at + p) 0) ≤ at }
    ensures begun { HoldsTo v at (λ p. sum_to p (λ q. get_or work.old (at + q) 0)) work.new }
    ensures rest { From (at + v) (λ i. get_or work.old (at + v + i) 0) work.new }
{
    let mut sum: u32 = 0;
    for p in 0..v {
        let size = work[at + p];
        work[at + p] = sum;
        sum += size;
    }
}

// Two more entries in the bucket of p.
fn put_two(p: u32, q: u32, r: u32, at: usize, work: &mut [u32])
    requires at_bound { at ≤ 6 * most_triangles }
    requires p_in_bounds { at + p < length work.old }
    requires p_bound { get_or work.old (at + p) 0 + 2 ≤ at }
    ensures { work.new ≡ put_two at p q r work.old }
{
    let place = at + (p as usize);
    let next = work[place];
    let first = next as usize;
    work[first] = q;
    work[first + 1] = r;
    work[place] = next + 2;
}

// Each corner of each triangle puts the other two into its bucket.
fn fill(triangles: &[u32], v: usize, at: usize, work: &mut [u32])
    requires { ListsFit triangles.now v at (length work.old) }
    ensures filled { Filled triangles.now v at (bucket triangles.now) work.new }
    ensures stamps { StampsBelow (at + v + 1) 1 work.new }
{
    rooms::clear(work);
    count(triangles, at, work);
    begin(v, at, work);
    for i in 0..triangles.len() / 3 {
        let k = 3 * i;
        let a = triangles[k];
        let b = triangles[k + 1];
        let c = triangles[k + 2];
        put_two(a, b, c, at, work);
        put_two(b, c, a, at, work);
        put_two(c, a, b, at, work);
    }
}

// The different points of the bucket from..end, each where it is first met, moved down to `to`. A point that was met has the stamp.
fn keep_different(
    from: usize,
    end: usize,
    to: usize,
    stamps: usize,
    stamp: u32,
    work: &mut [u32],
) -> usize
    requires to_le_from { (to ≤ from) × (from ≤ end) × (end ≤ stamps) }
    requires all_below { AllBelow (end - from) (λ k. stamps + get_or work.old (from + k) 0) (length work.old) }
    requires stamps_below { StampsBelow stamps stamp work.old }
    ensures kept { result ≡ to + length (different_to (λ k. get_or work.old (from + k) 0) (end - from)) }
    ensures written { WrittenFrom to (different_to (λ k. get_or work.old (from + k) 0) (end - from)) work.new }
    ensures below { Same 0 to work.old work.new }
    ensures behind { Same end stamps work.old work.new }
    ensures stamps { StampsBelow stamps (stamp + 1) work.new }
{
    let mut kept = to;
    for i in from..end {
        let q = work[i];
        let place = stamps + (q as usize);
        if work[place] != stamp {
            work[place] = stamp;
            work[kept] = q;
            kept += 1;
        }
    }
    kept
}

// Lists the different neighbours of every point, whose number and one is its stamp. A bucket's end is read before its list's start is stored there.
pub fn list(triangles: &[u32], v: usize, at: usize, work: &mut [u32])
    requires { ListsFit triangles.now v at (length work.old) }
    ensures { Listed triangles.now v at work.new }
{
    fill(triangles, v, at, work);
    let mut from = 0;
    let mut to = 0;
    for p in 0..v {
        let end = work[at + p] as usize;
        work[at + p] = to as u32;
        to = keep_different(from, end, to, at + v + 1, p as u32 + 1, work);
        from = end;
    }
    work[at + v] = to as u32;
}
