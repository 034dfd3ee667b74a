// One cube (document 01, "One cube"): the triangles of each of the 256 cases.

#![tactic(auto)]

ghost use Rattle.std.specs.Prelude.{◌≡◌, ◌+◌, ◌*◌, ◌<◌};
ghost use Rattle.laws.specs.Threes.{three_at};
ghost use Rattle.cube.specs.Promise.{Counted, Answered, Rows, Counts};
ghost use Rattle.cube.specs.Cube.{cases};
ghost use Rattle.cube.specs.Answer.{case_length};

mod table;

use table::{COUNTS, ROWS};

// The cases, the most triangles of one, the numbers in its answer, and those in the answers of all.
pub const CASES: usize = 256;

pub const MOST_CASE_TRIANGLES: usize = 5;

pub const CASE_LENGTH: usize = 3 * MOST_CASE_TRIANGLES;

pub const TABLE: usize = CASES * CASE_LENGTH;

// The table: fifteen edge numbers a case, case after case. It is built anew at each call, so a caller that goes through many cubes calls
// once, holds what it got, and lends it on.
pub fn rows() -> [u8; TABLE]
    ensures { Rows result }
{
    ROWS
}

// How many triangles each case has, case after case; to be held and lent as the rows are.
pub fn counts() -> [u8; CASES]
    ensures { Counts result }
{
    COUNTS
}

// How many triangles a case has.
pub fn count(case: u8) -> u8
    ensures { Counted case result }
{
    let counts = counts();
    let at = case as usize;
    counts[at]
}

// The three numbers that stand in the table from a place on.
fn three(rows: &[u8; TABLE], at: usize) -> [u8; 3]
    requires { at + 2 < cases * case_length }
    ensures { result ≡ three_at rows.now at }
{
    [rows[at], rows[at + 1], rows[at + 2]]
}

// The triangles of a case, three edge numbers each, in order; unused ones are zero.
pub fn triangles(case: u8) -> [[u8; 3]; 5]
    ensures { Answered case result }
{
    let rows = rows();
    let at = (case as usize) * CASE_LENGTH;
    [
        three(&rows, at),
        three(&rows, at + 3),
        three(&rows, at + 6),
        three(&rows, at + 9),
        three(&rows, at + 12),
    ]
}
