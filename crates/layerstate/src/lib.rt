// The state of a run of layers in its room: read, and written by a granted call.

#![tactic(auto)]

ghost use Rattle.std.specs.Prelude.{◌≡◌, not, ◌&&◌, ◌||◌, ◌+◌, ◌*◌, ◌≤◌, ◌<◌, ◌^◌, eqb, leb, ltb, length, get_or};
ghost use Rattle.std.proofs.lemmas.List.Edits.{sets};
ghost use Rattle.grid.specs.Limits.{most_number};
ghost use Rattle.grid.specs.Sides.{sides_fit};
ghost use Rattle.grid.specs.Work.{SidesFit};
ghost use Rattle.layerstate.specs.State.{taken_at, points_at, triangles_at, kept_at, most_layer, state_length, opened_room, layered_room, closed_room};
ghost use Rattle.layerstate.specs.Heads.{head_in};

use grid::limits::{MOST_NUMBER, MOST_SIDE};

// The places of the numbers that calls change.
const TAKEN_AT: usize = 4;

const CLOSED_AT: usize = 5;

const POINTS_AT: usize = 6;

const TRIANGLES_AT: usize = 7;

// Where the kept layer begins.
pub const KEPT_AT: usize = 8;

// The samples of the largest layer, and the numbers of a state.
const MOST_LAYER: usize = (MOST_SIDE * MOST_SIDE) as usize;

pub const STATE_LENGTH: usize = KEPT_AT + MOST_LAYER;

// The numbers of a state before its kept layer.
#[derive(Clone, Copy)]
pub struct Head {
    pub nx: u32,
    pub ny: u32,
    pub nz: u32,
    pub grey: u32,
    pub taken: u32,
    pub closed: u32,
    pub points: u32,
    pub triangles: u32,
}

// What stands in a state's room before the kept layer.
pub fn read_head(state: &[u32]) -> Head
    requires { length state.now ≡ state_length }
    ensures { result ≡ head_in state.now }
{
    Head {
        nx: state[0],
        ny: state[1],
        nz: state[2],
        grey: state[3],
        taken: state[TAKEN_AT],
        closed: state[CLOSED_AT],
        points: state[POINTS_AT],
        triangles: state[TRIANGLES_AT],
    }
}

// Are the numbers sides and a grey value?
pub fn is_state(head: Head) -> bool
    ensures { result ≡ (sides_fit head.nx head.ny head.nz && leb head.grey most_number) }
{
    grid::sides_fit(head.nx, head.ny, head.nz) && head.grey as u64 <= MOST_NUMBER
}

// Is the run closed?
fn is_closed(head: Head) -> bool
    ensures { result ≡ not (eqb head.closed 0) }
{
    head.closed != 0
}

// Is it not the turn of a layer of so many samples?
pub fn is_amiss(head: Head, samples: usize) -> bool
    requires { SidesFit head.nx head.ny head.nz }
    ensures { result ≡ (not (eqb samples (head.nx * head.ny)) || (leb head.nz head.taken || not (eqb head.closed 0))) }
{
    samples != (head.nx * head.ny) as usize || head.nz <= head.taken || is_closed(head)
}

// Is it too early to close the run, or is it closed?
pub fn is_early(head: Head) -> bool
    ensures { result ≡ (ltb head.taken head.nz || not (eqb head.closed 0)) }
{
    head.taken < head.nz || is_closed(head)
}

// The layer in the kept one's place.
fn keep(layer: &[u16], state: &mut [u32])
    requires { kept_at + length layer.now ≤ length state.old }
    ensures { state.new ≡ sets state.old kept_at layer.now }
{
    for (i, sample) in layer.iter().enumerate() {
        state[KEPT_AT + i] = *sample as u32;
    }
}

// The whole room after a granted opening.
pub fn write_opened(nx: u32, ny: u32, nz: u32, grey: u16, state: &mut [u32])
    requires { length state.old ≡ state_length }
    ensures { state.new ≡ opened_room nx ny nz grey }
{
    rooms::clear(state);
    state[0] = nx;
    state[1] = ny;
    state[2] = nz;
    state[3] = grey as u32;
}

// The room after a granted layer that handed out so many points and triangles.
#[tactic(auto, unfolding(crate::specs::State::layered_room))]
pub fn write_layered(layer: &[u16], points: u32, triangles: u32, state: &mut [u32])
    requires state_len { (length state.old ≡ state_length) × (length layer.now ≤ most_layer) }
    requires taken_at_bound { get_or state.old taken_at 0 + 1 < 2 ^ 32 }
    requires points_bound { get_or state.old points_at 0 + points < 2 ^ 32 }
    requires triangles_bound { get_or state.old triangles_at 0 + triangles < 2 ^ 32 }
    ensures { state.new ≡ layered_room layer.now points triangles state.old }
{
    let taken = state[TAKEN_AT] + 1;
    let all_points = state[POINTS_AT] + points;
    let all_triangles = state[TRIANGLES_AT] + triangles;
    state[TAKEN_AT] = taken;
    state[POINTS_AT] = all_points;
    state[TRIANGLES_AT] = all_triangles;
    keep(layer, state);
}

// The room after a granted closing that handed out so many points.
#[tactic(auto, unfolding(crate::specs::State::closed_room))]
pub fn write_closed(points: u32, state: &mut [u32])
    requires state_len { length state.old ≡ state_length }
    requires points_bound { get_or state.old points_at 0 + points < 2 ^ 32 }
    ensures { state.new ≡ closed_room points state.old }
{
    let all_points = state[POINTS_AT] + points;
    state[CLOSED_AT] = 1;
    state[POINTS_AT] = all_points;
}
