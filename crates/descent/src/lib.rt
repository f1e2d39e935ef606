// The descent: from an entry of the pyramid down to a cell, always to the largest of the four entries below
// (`descend`). The pyramid lies by quarters: below the entry at place i of the whole pyramid are those at the places
// 4i + 1 to 4i + 4.
#![tactic(auto)]

ghost use Rattle.std.specs.Prelude.{◌≡◌, ◌+◌, ◌-◌, ◌^◌, ◌<◌, length};
ghost use Rattle.definition.specs.Descent.{of_equals, descend};
ghost use Rattle.definition.specs.Quarters.{rows_from};
ghost use Rattle.pyramid.specs.PyramidPart.{Within};
ghost use Rattle.descent.specs.Candidates.{candidate_at, better_of, FourAsked, Taken, DescentAsked, number_of};

// A cell of the map.
#[derive(Clone, Copy)]
pub struct Cell {
    pub row: usize,
    pub column: usize,
}

// One of the four entries below an entry, 0 to 3: the top two, then the bottom two; and its sum.
#[derive(Clone, Copy)]
struct Candidate {
    quarter: usize,
    sum: i64,
}

// One of the four entries from place `first` on, as a candidate.
fn candidate_at(pyramid: &[i64], first: usize, quarter: usize) -> Candidate
    requires { first + quarter < length pyramid.now }
    ensures { result ≡ candidate_at pyramid.now first quarter }
{
    Candidate {
        quarter,
        sum: pyramid[first + quarter],
    }
}

// The next one where the best so far is below its sum + tie, else the best. With tie 0 the first of equals is kept,
// with tie 1 the last is taken (S 3.3); added to the sum, the choice costs no branch.
fn better(best: Candidate, next: Candidate, last: bool) -> Candidate
    requires { Within (2 ^ 40) next.sum }
    ensures { result ≡ better_of last best next }
{
    let sum = next.sum + last as i64;
    if best.sum < sum { next } else { best }
}

// Which of the four entries from place `first` on is a largest.
fn largest(pyramid: &[i64], first: usize, last: bool) -> usize
    requires { FourAsked pyramid.now first }
    ensures { Taken last pyramid.now first result }
{
    let top_left = candidate_at(pyramid, first, 0);
    let top_right = candidate_at(pyramid, first, 1);
    let bottom_left = candidate_at(pyramid, first, 2);
    let bottom_right = candidate_at(pyramid, first, 3);
    let two = better(top_left, top_right, last);
    let three = better(two, bottom_left, last);
    better(three, bottom_right, last).quarter
}

// The number of the cell that the descent reaches from entry (a, b) of level k, which is at place `at`, by the last of
// equals or by the first. It returns one number, and the pyramid, which has just the needed length, is lent on as a
// part of that length: then the compiled code needn't store and reload a struct or the slice at each level.
fn walk(pyramid: &[i64], r: usize, k: usize, at: usize, a: usize, b: usize, last: bool) -> usize
    requires { DescentAsked pyramid.now r k at a b }
    ensures { result ≡ number_of r (descend (of_equals last) (rows_from r pyramid.now) (r - k) k a b) }
{
    if k == r {
        return a * sizes::pow2(r) + b;
    }
    let first = 4 * at + 1;
    let quarter = largest(pyramid, first, last);
    let n = sizes::needed(r);
    walk(
        &pyramid[..n],
        r,
        k + 1,
        first + quarter,
        2 * a + quarter / 2,
        2 * b + quarter % 2,
        last,
    )
}

// The cell that the descent (S 3.2) reaches from entry (a, b) of level k, which is at place `at`, by the last of equals
// or by the first (S 3.3).
pub fn descend(
    pyramid: &[i64],
    r: usize,
    k: usize,
    at: usize,
    a: usize,
    b: usize,
    last: bool,
) -> Cell
    requires { DescentAsked pyramid.now r k at a b }
    ensures { (result.row, result.column) ≡ descend (of_equals last) (rows_from r pyramid.now) (r - k) k a b }
{
    let number = walk(pyramid, r, k, at, a, b, last);
    let side = sizes::pow2(r);
    Cell {
        row: number / side,
        column: number % side,
    }
}
