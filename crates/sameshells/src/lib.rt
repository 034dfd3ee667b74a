// Whether the S lines of a text are those of the mesh in the work room, field by field (document 02 (iii)).

#![tactic(auto)]

ghost use Rattle.std.specs.Prelude.{◌≡◌, ◌+◌, ◌≤◌, ◌<◌, length};
ghost use Rattle.columns.specs.Room.{StandsIn, record_in};
ghost use Rattle.columns.specs.Columns.{kind_of};
ghost use Rattle.sameshells.specs.Same.{shells_at, LinesThere, Decides, SameColumn, SameFields, ColumnLeft, WordsThere, SameVolumes, MeshLeft};
ghost use Rattle.laws.specs.Values.{list_to};
ghost use Rattle.volumes.specs.Volumes.{volume_read};

use columns::{Field, Parts};
use meshrows::read_shell;

// Is one field of every shell what stands from a place of the room on? Each line is known to be well formed.
fn same_column(
    input: &[u8],
    from: usize,
    shells: usize,
    field: Field,
    work: &[u32],
    column: usize,
) -> bool
    requires { LinesThere input.now from shells × (column + shells ≤ length work.now) }
    ensures { Decides result (SameColumn (shells_at input.now from shells) shells (kind_of field) work.now column) }
{
    let mut at = from;
    for n in 0..shells {
        let (shell, next) = read_shell(input, at).unwrap();
        if field.of(shell) != work[column + n] {
            return false;
        }
        at = next;
    }
    true
}

// Are all fields of every shell but the volume those of its record?
fn same_columns(input: &[u8], from: usize, shells: usize, work: &mut [u32], parts: Parts) -> bool
    requires { LinesThere input.now from shells × StandsIn shells parts.points parts.triangles work.old }
    ensures same { Decides result (SameFields (shells_at input.now from shells) shells (record_in parts.points parts.triangles work.old)) }
    ensures left { ColumnLeft parts.points parts.triangles shells work.old work.new }
{
    let column = parts.column_at();
    for field in &Field::ALL {
        columns::gather(work, parts, shells, *field);
        if !same_column(input, from, shells, *field, work, column) {
            return false;
        }
    }
    true
}

// Is the volume of every shell what its two words in the room hold? Each line is known to be well formed.
fn same_words(input: &[u8], from: usize, shells: usize, work: &[u32], parts: Parts) -> bool
    requires { LinesThere input.now from shells × WordsThere shells parts.points parts.triangles work.now }
    ensures { Decides result (SameVolumes (shells_at input.now from shells) shells (volume_read parts.points parts.triangles work.now)) }
{
    let mut at = from;
    for n in 0..shells {
        let (shell, next) = read_shell(input, at).unwrap();
        if shell.volume != volumes::volume_at(work, parts, n) {
            return false;
        }
        at = next;
    }
    true
}

// Are the lines of the shells, from a place of the text on, those of the mesh in the room? Points and triangles stand in the room as before.
pub fn same_shells(input: &[u8], from: usize, shells: usize, work: &mut [u32], parts: Parts) -> bool
    requires { LinesThere input.now from shells × StandsIn shells parts.points parts.triangles work.old }
    ensures same { Decides result (shells_at input.now from shells ≡ list_to shells (record_in parts.points parts.triangles work.old)) }
    ensures left { MeshLeft parts.points parts.triangles work.old work.new }
{
    if !same_columns(input, from, shells, work, parts) {
        return false;
    }
    volumes::gather_volumes(work, parts, shells);
    same_words(input, from, shells, work, parts)
}
