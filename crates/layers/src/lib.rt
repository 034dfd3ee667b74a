// Layers as they come off the scanner (document 02, request (v)): the extractor in three calls, an opening, one call a layer, and a closing, with two layers held and no more.

#![tactic(auto)]

ghost use Rattle.std.specs.Prelude.{◌≡◌, [], ◌++◌, ◌+◌, ◌*◌, ◌/◌, ◌≤◌, ◌<◌, min, length};
ghost use Rattle.grid.specs.Limits.{most_number, most_side};
ghost use Rattle.grid.specs.Refusal.{told};
ghost use Rattle.grid.specs.Work.{SidesFit};
ghost use Rattle.rows.specs.Rows.{size_of, grid_samples};
ghost use Rattle.pointplaces.specs.Places.{Given};
ghost use Rattle.layerstate.specs.State.{most_layer, state_length, kept_in, state_in};
ghost use Rattle.layerstate.specs.Heads.{head_in};
ghost use Rattle.layerparts.specs.Layer.{layer_through, last_layer};
ghost use Rattle.layers.specs.Outcome.{layer_hands, layer_measured, closing_hands, closing_measured};
ghost use Rattle.layers.specs.First.{first_taken};
ghost use Rattle.layers.specs.Promise.{rooms, open_left, answered, closing_answered, Opens, Layers, Closes};

use grid::limits::{MOST_POINTS, MOST_SIDE, MOST_TRIANGLES};
use grid::refusal::Refusal;
use layerstate::{Head, KEPT_AT, STATE_LENGTH};
use masks::MOST_WORDS;
use rows::Sides;

// The words of the rows of two layers.
const PAIR_WORDS: usize = 2 * (MOST_WORDS / MOST_SIDE as usize);

// How many points and triangles are handed out.
#[derive(Clone, Copy)]
pub struct Answered {
    pub points: u32,
    pub triangles: u32,
}

// How many points the three rooms hold.
fn point_room(points: usize, edges: usize, marks: usize) -> usize
    ensures { result ≡ min (points / 3) (min edges marks) }
{
    (points / 3).min(edges.min(marks))
}

// The opening of a run.
pub fn open(nx: u32, ny: u32, nz: u32, grey: u16, state: &mut [u32]) -> Result<(), Refusal>
    ensures { Opens nx ny nz grey state.old (open_left (told result) state.new) }
{
    if !grid::sides_fit(nx, ny, nz) {
        return Err(Refusal::Side);
    }
    if state.len() != STATE_LENGTH {
        return Err(Refusal::Room);
    }
    layerstate::write_opened(nx, ny, nz, grey, state);
    Ok(())
}

// The first layer is kept, if the state's totals are within the limits.
fn take_first(head: Head, layer: &[u16], state: &mut [u32]) -> Result<(), Refusal>
    requires head_value { head ≡ head_in state.old }
    requires state_len { (length state.old ≡ state_length) × (length layer.now ≤ most_layer) × (head.taken < most_side) }
    ensures { open_left (told result) state.new ≡ first_taken layer.now state.old }
{
    if MOST_POINTS < head.points {
        return Err(Refusal::Points);
    }
    if MOST_TRIANGLES < head.triangles {
        return Err(Refusal::Triangles);
    }
    layerstate::write_layered(layer, 0, 0, state);
    Ok(())
}

// The points of the kept layer and the triangles over it, to the front of their rooms, and the new layer into the state, which is written last.
fn hand_out(
    head: Head,
    sides: Sides,
    grey: u16,
    masks: &[u64],
    layer: &[u16],
    state: &mut [u32],
    points: &mut [u32],
    edges: &mut [u32],
    marks: &mut [u8],
    triangles: &mut [u32],
) -> Result<Answered, Refusal>
    requires given { Given sides sides.below grey (kept_in (sides.nx * sides.ny) state.old ++ layer.now) masks.now }
    requires below_bound { sides.below + 1 < sides.nz }
    requires head_value { head ≡ head_in state.old }
    requires state_len { (length state.old ≡ state_length) × (length layer.now ≤ most_layer) × (head.taken < most_side) }
    ensures { let before = rooms points.old edges.old marks.old triangles.old in
        let after = rooms points.new edges.new marks.new triangles.new in
        let samples = kept_in (sides.nx * sides.ny) state.old ++ layer.now in
        let handed = layer_through (size_of sides) grey (grid_samples sides samples) sides.below in
        answered result after state.new ≡ layer_measured before state.old layer.now handed }
{
    let room = point_room(points.len(), edges.len(), marks.len());
    layerparts::check_fits(head, sides, masks, room, triangles.len() / 3)?;
    let past = KEPT_AT + sides.nx * sides.ny;
    let kept = &state[KEPT_AT..past];
    let found = layerparts::hand_points(sides, grey, kept, layer, masks, points, edges, marks);
    let made = layerparts::hand_triangles(sides, masks, triangles);
    layerstate::write_layered(layer, found, made, state);
    Ok(Answered {
        points: found,
        triangles: made,
    })
}

// A layer over the kept one.
fn take_over(
    head: Head,
    layer: &[u16],
    state: &mut [u32],
    points: &mut [u32],
    edges: &mut [u32],
    marks: &mut [u8],
    triangles: &mut [u32],
) -> Result<Answered, Refusal>
    requires head_value { head ≡ head_in state.old }
    requires sides_fit { SidesFit head.nx head.ny head.nz × (head.grey ≤ most_number) }
    requires state_len { (length state.old ≡ state_length) × (length layer.now ≡ head.nx * head.ny) }
    requires taken_nonzero { (0 < head.taken) × (head.taken < head.nz) }
    ensures { let before = rooms points.old edges.old marks.old triangles.old in
        let after = rooms points.new edges.new marks.new triangles.new in
        let room = state.old in
        let handed = layer_hands (state_in room) head.taken layer.now in
        answered result after state.new ≡ layer_measured before room layer.now handed }
{
    let sides = layerparts::frame(head, head.taken as usize - 1);
    let grey = head.grey as u16;
    let nx = sides.nx;
    let past = KEPT_AT + nx * sides.ny;
    let kept = &state[KEPT_AT..past];
    let mut masks = [0u64; PAIR_WORDS];
    masks::fill(kept, layer, nx, sides.ny * 2, grey, &mut masks);
    hand_out(
        head, sides, grey, &masks, layer, state, points, edges, marks, triangles,
    )
}

// One layer of a run: the points of the layer below and the triangles of the cubes between, into lent rooms.
pub fn next(
    layer: &[u16],
    state: &mut [u32],
    points: &mut [u32],
    edges: &mut [u32],
    marks: &mut [u8],
    triangles: &mut [u32],
) -> Result<Answered, Refusal>
    ensures { let before = rooms points.old edges.old marks.old triangles.old in
        let after = rooms points.new edges.new marks.new triangles.new in
        Layers layer.now before state.old (answered result after state.new) }
{
    if state.len() != STATE_LENGTH {
        return Err(Refusal::Room);
    }
    let head = layerstate::read_head(state);
    if !layerstate::is_state(head) {
        return Err(Refusal::Side);
    }
    if layerstate::is_amiss(head, layer.len()) {
        return Err(Refusal::Layer);
    }
    if head.taken == 0 {
        take_first(head, layer, state)?;
        return Ok(Answered {
            points: 0,
            triangles: 0,
        });
    }
    take_over(head, layer, state, points, edges, marks, triangles)
}

// The points of the last layer, to the front of their rooms, and the end of the run into the state. Answers how many they are.
fn hand_last(
    head: Head,
    sides: Sides,
    grey: u16,
    masks: &[u64],
    state: &mut [u32],
    points: &mut [u32],
    edges: &mut [u32],
    marks: &mut [u8],
) -> Result<u32, Refusal>
    requires given { Given sides sides.below grey (kept_in (sides.nx * sides.ny) state.old) masks.now }
    requires below_lt_nz { sides.below < sides.nz }
    requires head_value { (head ≡ head_in state.old) × (length state.old ≡ state_length) }
    ensures { let before = rooms points.old edges.old marks.old [] in
        let after = rooms points.new edges.new marks.new [] in
        let samples = kept_in (sides.nx * sides.ny) state.old in
        let handed = last_layer (size_of sides) grey (grid_samples sides samples) sides.below in
        closing_answered result after state.new ≡ closing_measured before state.old handed }
{
    let found = layerparts::counting::count_points(sides, masks);
    let room = point_room(points.len(), edges.len(), marks.len());
    if layerparts::exceeds(head.points, found, MOST_POINTS, room) {
        return Err(Refusal::Points);
    }
    let past = KEPT_AT + sides.nx * sides.ny;
    let kept = &state[KEPT_AT..past];
    let none_new = [0u16; 0];
    layerparts::hand_points(sides, grey, kept, &none_new, masks, points, edges, marks);
    layerstate::write_closed(found, state);
    Ok(found)
}

// The kept layer is the last.
fn close_over(
    head: Head,
    state: &mut [u32],
    points: &mut [u32],
    edges: &mut [u32],
    marks: &mut [u8],
) -> Result<u32, Refusal>
    requires head_value { (head ≡ head_in state.old) × (length state.old ≡ state_length) }
    requires sides_fit { SidesFit head.nx head.ny head.nz × (head.grey ≤ most_number) }
    ensures { let before = rooms points.old edges.old marks.old [] in
        let after = rooms points.new edges.new marks.new [] in
        let room = state.old in
        closing_answered result after state.new ≡ closing_measured before room (closing_hands (state_in room)) }
{
    let sides = layerparts::frame(head, head.nz as usize - 1);
    let grey = head.grey as u16;
    let nx = sides.nx;
    let past = KEPT_AT + nx * sides.ny;
    let kept = &state[KEPT_AT..past];
    let none_new = [0u16; 0];
    let mut masks = [0u64; PAIR_WORDS];
    masks::fill(kept, &none_new, nx, sides.ny, grey, &mut masks);
    hand_last(head, sides, grey, &masks, state, points, edges, marks)
}

// The closing of a run: the points of the last layer, into lent rooms. Answers how many they are.
pub fn close(
    state: &mut [u32],
    points: &mut [u32],
    edges: &mut [u32],
    marks: &mut [u8],
) -> Result<u32, Refusal>
    ensures { let before = rooms points.old edges.old marks.old [] in
        let after = rooms points.new edges.new marks.new [] in
        Closes before state.old (closing_answered result after state.new) }
{
    if state.len() != STATE_LENGTH {
        return Err(Refusal::Room);
    }
    let head = layerstate::read_head(state);
    if !layerstate::is_state(head) {
        return Err(Refusal::Side);
    }
    if layerstate::is_early(head) {
        return Err(Refusal::Closing);
    }
    close_over(head, state, points, edges, marks)
}
