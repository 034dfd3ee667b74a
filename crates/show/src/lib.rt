// One point shown out of either list, the raw or the smoothed.

#![tactic(auto)]

ghost use Rattle.std.specs.Prelude.{[], MatchResult};
ghost use Rattle.grid.specs.Refusal.{number_of};
ghost use Rattle.show.specs.Promise.{Shown};

use grid::refusal::Refusal;

// The three coordinates of one point as a part of one of the two lists: of the second, the smoothed, if so asked, else of
// the raw. A refused call shows nothing.
#[tactic(auto, unfolding(crate::specs::Show::show_number, crate::specs::Show::shown_else), using(std::proofs::lemmas::Bool::Decides::nat_tests))]
pub fn show<'a>(
    raw: &'a [u32],
    smoothed: &'a [u32],
    second: bool,
    point: u32,
) -> Result<&'a [u32], Refusal>
    ensures { MatchResult result (λ part. Shown raw.now smoothed.now second point part.now 0) (λ e. Shown raw.now smoothed.now second point [] (number_of e)) }
{
    let count = raw.len();
    if count != smoothed.len() {
        return Err(Refusal::Lengths);
    }
    if count % 3 != 0 {
        return Err(Refusal::Lengths);
    }
    if count / 3 <= point as usize {
        return Err(Refusal::Beyond);
    }
    let at = 3 * (point as usize);
    if second {
        Ok(&smoothed[at..at + 3])
    } else {
        Ok(&raw[at..at + 3])
    }
}
