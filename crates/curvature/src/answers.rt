// A point's answer.
ghost use Rattle.std.specs.Prelude.{◌≡◌, ℕ, ◌+◌, ◌*◌, ◌<◌, length, get_or};
ghost use Rattle.measures.specs.Vectors.{vector_at, put_vector};
ghost use Rattle.sums.specs.Sums.{sums};
ghost use Rattle.sums.specs.Rooms.{sum_at};
ghost use Rattle.curvature.specs.Answers.{answer_of, answer_from, kind_of, area_of, stored_vector};

use measures::vectors;
use measures::vectors::Vector;

// One of three: open with its area, flat, or bent with its area and a vector.
#[derive(Clone, Copy)]
pub enum Answer {
    Open(f64),
    Flat,
    Bent(f64, Vector),
}

// An answer as plain numbers, as C is told it: its kind, 0 open, 1 flat, 2 bent, its area and its vector; what a kind does not have is +0.0.
#[derive(Clone, Copy)]
pub struct Plain {
    pub kind: u32,
    pub area: f64,
    pub vector: Vector,
}

#[tactic(auto, unfolding(crate::specs::Answers::kind_of, crate::specs::Answers::area_of, crate::specs::Answers::stored_vector))]
pub fn told(answer: Answer) -> Plain
    ensures { (result.kind ≡ kind_of answer) × (result.area ≡ area_of answer) × (result.vector ≡ stored_vector answer) }
{
    match answer {
        Answer::Open(area) => Plain {
            kind: 0,
            area,
            vector: Vector::zero(),
        },
        Answer::Flat => Plain {
            kind: 1,
            area: 0.0,
            vector: Vector::zero(),
        },
        Answer::Bent(area, vector) => Plain {
            kind: 2,
            area,
            vector,
        },
    }
}

#[tactic(auto, unfolding(crate::specs::Answers::answer_of), using(std::proofs::lemmas::Bool::Decides::nat_tests))]
pub(crate) fn answer_of(mark: u8, area: f64, vector: Vector) -> Answer
    ensures { result ≡ answer_of mark area vector }
{
    if mark == 1 {
        return Answer::Open(area);
    }
    if area == 0.0 {
        return Answer::Flat;
    }
    Answer::Bent(area, vector)
}

// Open and flat points are stored with +0.0.
#[tactic(auto, unfolding(crate::specs::Answers::stored_vector))]
fn stored_vector(answer: Answer) -> Vector
    ensures { result ≡ stored_vector answer }
{
    match answer {
        Answer::Open(_) => Vector::zero(),
        Answer::Flat => Vector::zero(),
        Answer::Bent(_, vector) => vector,
    }
}

// One point: its running vector gives way to the vector of its answer.
fn finish_point(mark: u8, area: f64, vectors: &mut [f64], at: usize)
    requires { at + 2 < length vectors.old }
    ensures { vectors.new ≡ put_vector vectors.old at (stored_vector (answer_from mark (sums area (vector_at vectors.old at)))) }
{
    let running = vectors::vector_at(vectors, at);
    let answer = answer_of(mark, area, running.over(4.0 * area));
    vectors::put_vector(vectors, at, stored_vector(answer));
}

// All points.
pub(crate) fn finish(marks: &[u8], areas: &[f64], vectors: &mut [f64])
    requires { (length areas.now ≡ length marks.now) × (length vectors.old ≡ 3 * length marks.now) }
    ensures { let before = sum_at areas.now vectors.old in
        let marked = marks.now in
        ((x : ℕ) → x < length marked → vector_at vectors.new (3 * x) ≡ stored_vector (answer_from (get_or marked x 0) (before x))) }
{
    for (i, mark) in marks.iter().enumerate() {
        finish_point(*mark, areas[i], vectors, 3 * i);
    }
}
