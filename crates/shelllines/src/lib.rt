// The lines of a mesh's shells, measured and written. A line is the text of one record, by value; the two loops go through a lent list of records.

#![tactic(auto)]

ghost use Rattle.std.specs.Prelude.{◌≡◌, ◌+◌, ◌*◌, ◌≤◌, length, get_or};
ghost use Rattle.std.proofs.lemmas.List.Edits.{sets};
ghost use Rattle.grid.specs.Limits.{most_points};
ghost use Rattle.records.specs.Grown.{none};
ghost use Rattle.shelllines.specs.ShellLines.{counts_of, box_of, shell_text, shells_text, longest_shell};

use records::Shell;
use writing::{fields_length, signed_length, write_fields, write_signed};

// The numbers that stand before the volume.
fn counts_of(s: Shell) -> [u32; 4]
    ensures { result ≡ counts_of s }
{
    [s.low, s.points, s.triangles, s.touches]
}

// The box behind it, in the order x, y, z.
fn box_of(s: Shell) -> [u32; 6]
    ensures { result ≡ box_of s }
{
    [
        s.least_x,
        s.greatest_x,
        s.least_y,
        s.greatest_y,
        s.least_z,
        s.greatest_z,
    ]
}

// How many bytes a shell's line takes.
fn shell_length(s: Shell) -> usize
    ensures { (result ≡ length (shell_text s)) × (result ≤ longest_shell) }
{
    let counts = counts_of(s);
    let sides = box_of(s);
    2 + fields_length(&counts) + signed_length(s.volume) + 1 + fields_length(&sides)
}

// Writes a shell's line, and answers the place behind it.
fn write_shell(s: Shell, room: &mut [u8], at: usize) -> usize
    requires { at + length (shell_text s) ≤ length room.old }
    ensures { (result ≡ at + length (shell_text s)) × (room.new ≡ sets room.old at (shell_text s)) }
{
    room[at] = b'S';
    room[at + 1] = b'\t';
    let counts = counts_of(s);
    let behind_counts = write_fields(&counts, 7, room, at + 2);
    let behind_volume = write_signed(s.volume, b'\t', room, behind_counts);
    let sides = box_of(s);
    write_fields(&sides, 0, room, behind_volume)
}

// How many bytes the lines of the first shells take.
pub fn shells_length(records: &[Shell], shells: usize) -> usize
    requires { (shells ≤ length records.now) × (shells ≤ most_points) }
    ensures { (result ≡ length (shells_text shells (λ n. get_or records.now n none))) × (result ≤ longest_shell * shells) }
{
    let mut sum = 0;
    for n in 0..shells {
        sum += shell_length(records[n]);
    }
    sum
}

// Writes the lines of the first shells, and answers the place behind them.
pub fn write_shells(records: &[Shell], shells: usize, room: &mut [u8], from: usize) -> usize
    requires { (shells ≤ length records.now) × (from + length (shells_text shells (λ n. get_or records.now n none)) ≤ length room.old) }
    ensures { let text = shells_text shells (λ n. get_or records.now n none) in
        (result ≡ from + length text) × (room.new ≡ sets room.old from text) }
{
    let mut at = from;
    for n in 0..shells {
        at = write_shell(records[n], room, at);
    }
    at
}
