// Rooms of zeros, and the sizes that the greatest numbers of a small grid need.
ghost use Rattle.std.specs.Prelude.{◌≡◌, length};

use cube::MOST_CASE_TRIANGLES;
use grid::limits::{LONGEST_NUMBER, MOST_SMALL, NUMBER_DIGITS, WORD_DIGITS};

// At most three grid edges leave a sample.
pub const MOST_SMALL_POINTS: usize = 3 * (MOST_SMALL as usize);

// A case has at most five triangles, and there are fewer cubes than samples.
pub const MOST_SMALL_TRIANGLES: usize = MOST_CASE_TRIANGLES * (MOST_SMALL as usize);

// A number of the input and the byte that ends it. Line 1 has six behind its letter and tab; one more byte shows that something follows.
const LONGEST_SAMPLE: usize = NUMBER_DIGITS + 1;

pub const MOST_INPUT: usize = 2 + LONGEST_SAMPLE * 6 + LONGEST_SAMPLE * (MOST_SMALL as usize) + 1;

// A number of 32 bits and the byte that ends it; the longest line of three and of five behind its letter and tab; and that of a shell, ten such numbers and a volume.
const LONGEST_FIELD: usize = WORD_DIGITS + 1;

const LINE_OF_THREE: usize = 2 + LONGEST_FIELD * 3;

const LINE_OF_FIVE: usize = 2 + LONGEST_FIELD * 5;

const LONGEST_SHELL: usize = 2 + LONGEST_FIELD * 4 + (LONGEST_NUMBER + 1) + LONGEST_FIELD * 6;

// The longest text of a mesh with so many points, triangles and shells, of which there are no more than points.
pub const MOST_OUTPUT: usize = LINE_OF_THREE
    + LINE_OF_FIVE * MOST_SMALL_POINTS
    + LINE_OF_THREE * MOST_SMALL_TRIANGLES
    + LONGEST_SHELL * MOST_SMALL_POINTS;

// Three coordinates a point, and three points a triangle.
pub const MOST_SMALL_COORDINATES: usize = 3 * MOST_SMALL_POINTS;

pub const MOST_SMALL_CORNERS: usize = 3 * MOST_SMALL_TRIANGLES;

// The work rooms of smoothing and of the shells.
pub const MOST_SMOOTHING: usize = 6 * MOST_SMALL_TRIANGLES + 5 * MOST_SMALL_POINTS + 1;

pub const MOST_LISTING: usize = 2 * MOST_SMALL_POINTS;

// A room of so many zeros. It promises no more than its length: a lent room needs nothing else, and a proof that meets the zeros themselves counts them one by one.
pub fn room<T: Copy, const N: usize>(zero: T) -> [T; N]
    ensures { length result ≡ N }
{
    [zero; N]
}
