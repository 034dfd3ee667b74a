// Lines of numbers as text (document 01, "The program for small grids").

#![tactic(auto)]

ghost use Rattle.std.specs.Prelude.{◌≡◌};
ghost use Rattle.lines.specs.Line.{end_of};

// The byte behind a field that has `left` fields after it in its line.
pub fn end_of(left: usize) -> u8
    ensures { result ≡ end_of left }
{
    if left == 0 { b'\n' } else { b'\t' }
}
