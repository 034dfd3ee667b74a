// Points in sets. Each number of the room names its point's parent, never a higher point. The root of a set is its own parent, and so its lowest point.

#![tactic(auto)]

ghost use Rattle.std.specs.Prelude.{◌≡◌, true, ◌*◌, ◌<◌, ◌≤◌, length};
ghost use Rattle.laws.specs.Range.{count_to};
ghost use Rattle.laws.specs.Values.{list_to};
ghost use Rattle.grid.specs.Limits.{most_points};
ghost use Rattle.mesh.specs.Check.{triangles_fit};
ghost use Rattle.sets.specs.Sets.{Falling, root, is_root, rank_of, SameSets, Joined, United};

// Every point alone, its own root.
pub fn alone(room: &mut [u32])
    requires { length room.old ≤ 2 * most_points }
    ensures { room.new ≡ list_to (length room.old) (λ p. p) }
{
    for (p, parent) in room.iter_mut().enumerate() {
        *parent = p as u32;
    }
}

// The root of a point. Every second point on the way is put under its parent's parent, so that the next way is shorter.
fn find(room: &mut [u32], point: usize) -> usize
    requires falling { Falling room.old }
    requires point_in_bounds { point < length room.old }
    ensures value { result ≡ root room.old point }
    ensures same_sets { SameSets room.old room.new }
{
    let mut p = point;
    let mut above = room[p] as usize;
    while above != p {
        let next = room[above];
        room[p] = next;
        p = next as usize;
        above = room[p] as usize;
    }
    p
}

// Two points in one set: the higher root goes under the lower one.
pub fn join(room: &mut [u32], a: usize, b: usize)
    requires falling { Falling room.old }
    requires room_len_bound { length room.old ≤ 2 * most_points }
    requires a_in_bounds { (a < length room.old) × (b < length room.old) }
    ensures { Joined a b room.old room.new }
{
    let first = find(room, a);
    let second = find(room, b);
    if first < second {
        room[second] = first as u32;
    } else {
        room[first] = second as u32;
    }
}

// The corners of every triangle in one set.
pub fn unite(room: &mut [u32], triangles: &[u32], v: usize)
    requires room_len_bound { length room.old ≤ 2 * most_points }
    requires v_in_bounds { v ≤ length room.old }
    requires v_value { triangles_fit triangles.now v ≡ true }
    ensures { United triangles.now room.old room.new }
{
    alone(room);
    for k in 0..triangles.len() / 3 {
        let at = 3 * k;
        let middle = triangles[at + 1] as usize;
        join(room, triangles[at] as usize, middle);
        join(room, middle, triangles[at + 2] as usize);
    }
}

// How many of the first v points are roots.
pub fn count(room: &[u32], v: usize) -> usize
    requires { v ≤ length room.now }
    ensures { result ≡ count_to v (is_root room.now) }
{
    let mut roots = 0;
    for p in 0..v {
        if room[p] as usize == p {
            roots += 1;
        }
    }
    roots
}

// In the place of each point's parent the rank of its root among the roots. A point's parent has the same, and has it before.
pub fn rank(room: &mut [u32])
    requires falling { Falling room.old }
    requires room_len_bound { length room.old ≤ most_points }
    ensures { room.new ≡ list_to (length room.old) (rank_of room.old) }
{
    let mut next = 0;
    for p in 0..room.len() {
        let above = room[p] as usize;
        if above == p {
            room[p] = next;
            next += 1;
        } else {
            room[p] = room[above];
        }
    }
}

// To each point the rank of its root among the roots.
pub fn number(room: &[u32], numbers: &mut [u32])
    requires falling { Falling room.now }
    requires numbers_in_bounds { length numbers.old ≤ length room.now }
    requires numbers_len_bound { length numbers.old ≤ most_points }
    ensures { numbers.new ≡ list_to (length numbers.old) (rank_of room.now) }
{
    rooms::copy(0, room, numbers);
    rank(numbers);
}
