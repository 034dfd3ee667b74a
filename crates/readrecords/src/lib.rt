// The records that the `S` lines of a text say, into a lent list of records (document 02 (iii)).

#![tactic(auto)]

ghost use Rattle.std.specs.Prelude.{◌≡◌, ◌<◌, ◌≤◌, length};
ghost use Rattle.laws.specs.Room.{laid};
ghost use Rattle.sameshells.specs.Same.{shells_at, LinesThere};

use meshrows::read_shell;
use records::Shell;

// Reads so many lines from a place on, one record each; of no lines nothing is asked. Each line is known to be well formed.
pub fn fill_records(records: &mut [Shell], shells: usize, input: &[u8], from: usize)
    requires { (0 < shells → LinesThere input.now from shells) × (shells ≤ length records.old) }
    ensures { records.new ≡ laid (shells_at input.now from shells) records.old }
{
    let mut at = from;
    for n in 0..shells {
        let (shell, next) = read_shell(input, at).unwrap();
        records[n] = shell;
        at = next;
    }
}
