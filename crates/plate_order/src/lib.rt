// Two plates of one side compared by their burnt cells (`compare_plates`): by their counts, and where these agree by
// the first cell at which they differ.
#![tactic(auto)]

ghost use Rattle.std.specs.Prelude.{◌≡◌, cond, ltb, length};
ghost use Rattle.definition.specs.Pyramid.{cell_count};
ghost use Rattle.definition.specs.Answers.{before_at, after_at, stands};
ghost use Rattle.definition.specs.Shelf.{pattern, first_difference, compared};
ghost use Rattle.plate_order.specs.TwoPlates.{PlatesAsked};

use definition::CompareAnswer;
use std::cmp::Ordering;

// Of two plates with the marks x and y at a cell where they differ, the one that is unburnt there comes first.
#[tactic(auto, unfolding(definition::specs::Answers::stands))]
fn differ_at(x: u32, y: u32, row: u32, column: u32) -> CompareAnswer
    ensures { stands result ≡ cond (ltb x y) (before_at row column) (after_at row column) }
{
    if x < y {
        CompareAnswer::BeforeAt(row, column)
    } else {
        CompareAnswer::AfterAt(row, column)
    }
}

// The first cell, row by row and in a row column by column, at which one plate is burnt and the other isn't (S 11.1).
fn first_difference(left: &[u32], right: &[u32], r: usize) -> CompareAnswer
    requires { PlatesAsked (length left.now) (length right.now) r }
    ensures { stands result ≡ first_difference r (cell_count r) 0 (pattern left.now) (pattern right.now) }
{
    let side = sizes::pow2(r);
    let mut found = CompareAnswer::Same;
    'rows: for row in 0..side {
        for column in 0..side {
            let at = row * side + column;
            let x = blocks::mark(left[at]);
            let y = blocks::mark(right[at]);
            if x != y {
                found = differ_at(x, y, row as u32, column as u32);
                break 'rows;
            }
        }
    }
    found
}

// How the left of two plates stands to the right one (S 11.1).
pub fn compare_plates(left: &[u32], right: &[u32], r: usize) -> CompareAnswer
    requires { PlatesAsked (length left.now) (length right.now) r }
    ensures { stands result ≡ compared r left.now right.now }
{
    let m = blocks::block_dots(left, r, 0, 0, 0);
    let n = blocks::block_dots(right, r, 0, 0, 0);
    match m.cmp(&n) {
        Ordering::Less => CompareAnswer::Before,
        Ordering::Greater => CompareAnswer::After,
        Ordering::Equal => first_difference(left, right, r),
    }
}
