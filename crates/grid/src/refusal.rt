// Document 01, "Numbers that refuse", and those that document 02 adds.
ghost use Rattle.std.specs.Prelude.{◌≡◌, Err, length, replicate};
ghost use Rattle.grid.specs.Refusal.{number_of, grid_line, told, told_line};

// The numbers of document 02 that are larger.
const SHELLS_DIFFER: u32 = 16;

const LAYER_AMISS: u32 = 17;

const CLOSED_EARLY: u32 = 18;

const NO_SUMMARY: u32 = 19;

// Why a call is refused. A malformed line of a text is named.
#[derive(Clone, Copy, Debug, PartialEq, Eq)]
pub enum Refusal {
    Side,
    Samples,
    Room,
    Points,
    Triangles,
    Lengths,
    Corners,
    Coordinates,
    Marks,
    Smoothing,
    Shells,
    GridLine(u32),
    Small,
    Beyond,
    MeshLine(u64),
    OtherShells,
    Layer,
    Closing,
    Summary,
}

impl Refusal {
    // The number by which the documents and C name it.
    pub fn number(self) -> u32
        ensures { result ≡ number_of self }
    {
        match self {
            Refusal::Side => 1,
            Refusal::Samples => 2,
            Refusal::Room => 3,
            Refusal::Points => 4,
            Refusal::Triangles => 5,
            Refusal::Lengths => 6,
            Refusal::Corners => 7,
            Refusal::Coordinates => 8,
            Refusal::Marks => 9,
            Refusal::Smoothing => 10,
            Refusal::Shells => 11,
            Refusal::GridLine(_) => 12,
            Refusal::Small => 13,
            Refusal::Beyond => 14,
            Refusal::MeshLine(_) => 15,
            Refusal::OtherShells => SHELLS_DIFFER,
            Refusal::Layer => LAYER_AMISS,
            Refusal::Closing => CLOSED_EARLY,
            Refusal::Summary => NO_SUMMARY,
        }
    }

    // The malformed line of a grid's text that it names, or 0.
    pub fn grid_line(self) -> u32
        ensures { result ≡ grid_line self }
    {
        match self {
            Refusal::GridLine(line) => line,
            _ => 0,
        }
    }
}

// A refusal that comes after 3 leaves the work room zero.
pub fn refused_later<T>(refusal: Refusal, work: &mut [u32]) -> Result<T, Refusal>
    ensures answer { result ≡ Err refusal }
    ensures zero { work.new ≡ replicate (length work.old) 0 }
{
    work.fill(0);
    Err(refusal)
}

// What C is told of an answer: 0 if granted, else the refusal's number.
pub fn told<T: Copy>(answer: Result<T, Refusal>) -> u32
    ensures { result ≡ told answer }
{
    match answer {
        Ok(_) => 0,
        Err(refusal) => refusal.number(),
    }
}

// The malformed line of a mesh's text that C is told of an answer, or 0.
pub fn told_line<T: Copy>(answer: Result<T, Refusal>) -> u64
    ensures { result ≡ told_line answer }
{
    match answer {
        Err(Refusal::MeshLine(line)) => line,
        _ => 0,
    }
}
