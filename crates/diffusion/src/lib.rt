// Diffusion: what a dot lacks of its worth is taken from the neighbours of its cell, each its share (`place`,
// `diffuse`). The cells lie by quarters; what becomes of them is said of the cells written row after row.
#![tactic(auto)]

ghost use Rattle.std.specs.Prelude.{◌≡◌, ◌*◌, ◌/◌, ◌^◌, ◌<◌, ◌≤◌, get_or, set, pos, ◌-ℤ◌};
ghost use Rattle.definition.specs.Lists.{sum_to};
ghost use Rattle.definition.specs.Pyramid.{place_in, in_level};
ghost use Rattle.definition.specs.Model.{missing};
ghost use Rattle.definition.specs.Diffusion.{weights_of, places_in_turn, kernel_of, weight_at, diffuse};
ghost use Rattle.layouts.specs.Cells.{rows_level};
ghost use Rattle.places.specs.Parts.{parts_around};
ghost use Rattle.diffusion.specs.OneTurn.{
  share_taken,
  is_inside,
  one_of_three,
  CellAsked,
  ShareAsked,
  DiffuseAsked,
  TakeAsked,
  InsideAsked,
  PlaceAsked,
};

use places::{Parts, Table};
use sizes::DOT;

// The nine places in the order of the spread: the diagonals by row and column, then up, left, right and down; last the
// cell itself, which weighs nothing.
static TURNS: [usize; 9] = [0, 2, 6, 8, 1, 3, 5, 7, 4];

// The weight of place p of the nine around a cell, three by three (S 3.5). The cell itself, in the middle, weighs
// nothing; a straight neighbour, whose place is odd, 2 on plain cloth, which is knit 0, and 1 on ribbed; a diagonal one
// 1 and nothing.
fn knit_weight(knit: u32, p: usize) -> usize
    requires { p < 9 }
    ensures { result ≡ get_or (weights_of knit) p 0 }
{
    if p == 4 {
        return 0;
    }
    if knit != 0 {
        return p % 2;
    }
    1 + p % 2
}

// The place of the nine that comes in turn n (S 3.6).
fn turn(n: usize) -> usize
    requires { n < 9 }
    ensures { result ≡ get_or places_in_turn n 4 }
{
    TURNS[n]
}

// The weight of the place in turn n around a cell: 0 at the cell itself and off the map.
// Here and below row and column stay two numbers, as in the definitions: a struct of the two makes no contract plainer.
fn weight(knit: u32, r: usize, row: usize, column: usize, n: usize) -> usize
    requires { CellAsked r row column × (n < 9) }
    ensures { result ≡ weight_at (kernel_of knit) r row column n }
{
    let p = turn(n);
    let side = sizes::pow2(r);
    let x = row + p / 3;
    let y = column + p % 3;
    if x == 0 || side < x || y == 0 || side < y {
        return 0;
    }
    knit_weight(knit, p)
}

// The sum of the weights (S 3.5): inside the map, on a side, in a corner it is 12, 8, 5 on plain cloth and 4, 3, 2 on
// ribbed.
fn weight_sum(knit: u32, r: usize, row: usize, column: usize) -> usize
    requires { CellAsked r row column }
    ensures { result ≡ sum_to 9 (weight_at (kernel_of knit) r row column) }
{
    let mut sum = 0;
    for n in 0..9 {
        sum += weight(knit, r, row, column, n);
    }
    sum
}

// What goes of d to those neighbours whose weights sum to `sum`, where the weights of all neighbours sum to `all`.
fn part(d: usize, sum: usize, all: usize) -> usize
    requires { (d ≤ 2 ^ 41) × (sum ≤ 18) × (0 < all) }
    ensures { result ≡ d * sum / all }
{
    d * sum / all
}

// Takes a share off the residual at a place.
fn take(cells: &mut [i64], at: usize, s: usize)
    requires { TakeAsked cells.old at s }
    ensures { cells.new ≡ set cells.old at (get_or cells.old at (pos 0) -ℤ pos s) }
{
    cells[at] -= s as i64;
}

// Takes a share off the residual of the neighbour at place p of the nine, if its weight w isn't 0. The table has where
// it lies among the cells.
fn take_share(
    cells: &mut [i64],
    table: &Table,
    r: usize,
    row: usize,
    column: usize,
    p: usize,
    w: usize,
    s: usize,
)
    requires { ShareAsked cells.old r row column p w s }
    ensures { rows_level r cells.new ≡ share_taken r row column p w s (rows_level r cells.old) }
{
    if w == 0 {
        return;
    }
    take(cells, table.place(row + p / 3 - 1, column + p % 3 - 1), s);
}

// Takes d off the residuals of the neighbours of a cell. The share of a neighbour is what goes to those up to its turn
// less what was given to those before it (S 3.6, S 3.7).
pub fn diffuse(
    cells: &mut [i64],
    table: &Table,
    knit: u32,
    r: usize,
    row: usize,
    column: usize,
    d: usize,
)
    requires { DiffuseAsked cells.old r row column d }
    ensures { rows_level r cells.new
        ≡ diffuse (kernel_of knit) r row column d 9 (rows_level r cells.old) }
{
    let all = weight_sum(knit, r, row, column);
    let mut sum = 0;
    let mut given = 0;
    for n in 0..9 {
        let w = weight(knit, r, row, column, n);
        sum += w;
        let until = part(d, sum, all);
        take_share(cells, table, r, row, column, turn(n), w, until - given);
        given = until;
    }
}

// Whether all eight neighbours of a cell lie on the map, as those of nearly every cell do.
fn is_inside(r: usize, row: usize, column: usize) -> bool
    requires { r ≤ 8 }
    ensures { result ≡ is_inside r row column }
{
    let last = sizes::pow2(r) - 1;
    0 < row && 0 < column && row < last && column < last
}

// Of the three rows around a cell the part of row x: above, here, below.
fn row_at(p: Parts, x: usize) -> usize
    ensures { result ≡ one_of_three x p.above p.row p.below }
{
    match x {
        0 => p.above,
        1 => p.row,
        _ => p.below,
    }
}

// Of the three columns around a cell the part of column y: left, here, right.
fn column_at(p: Parts, y: usize) -> usize
    ensures { result ≡ one_of_three y p.left p.column p.right }
{
    match y {
        0 => p.left,
        1 => p.column,
        _ => p.right,
    }
}

// What `diffuse` does, for a cell inside the map, whose weights sum to `all`: no rim cuts a weight off, and a
// neighbour's place is the sum of its row's part and its column's. From the cell itself, which comes last, nothing is
// taken. Only the contract has a use for r, row and column.
fn spread(
    cells: &mut [i64],
    p: Parts,
    knit: u32,
    all: usize,
    r: usize,
    row: usize,
    column: usize,
    d: usize,
)
    requires inside_asked { InsideAsked cells.old p r row column d }
    requires all_value { all ≡ sum_to 9 (weight_at (kernel_of knit) r row column) }
    ensures { rows_level r cells.new
        ≡ diffuse (kernel_of knit) r row column d 9 (rows_level r cells.old) }
{
    let mut sum = 0;
    let mut given = 0;
    for n in 0..9 {
        let q = turn(n);
        sum += knit_weight(knit, q);
        let up_to = part(d, sum, all);
        take(cells, row_at(p, q / 3) + column_at(p, q % 3), up_to - given);
        given = up_to;
    }
}

// The same for any knit. Both calls name the knit and the sum of its weights, 12 on plain cloth and 4 on ribbed: the
// compiled code then knows every weight, and multiplies where it would divide.
fn spread_inside(
    cells: &mut [i64],
    p: Parts,
    knit: u32,
    r: usize,
    row: usize,
    column: usize,
    d: usize,
)
    requires { InsideAsked cells.old p r row column d }
    ensures { rows_level r cells.new
        ≡ diffuse (kernel_of knit) r row column d 9 (rows_level r cells.old) }
{
    if knit == 0 {
        spread(cells, p, 0, 12, r, row, column, d);
        return;
    }
    spread(cells, p, 1, 4, r, row, column, d);
}

// Takes d off the residuals of the neighbours of any cell: the quick way inside the map, else as at the rim. The parts
// are those of the places around the cell.
fn diffuse_at(
    cells: &mut [i64],
    table: &Table,
    p: Parts,
    knit: u32,
    r: usize,
    row: usize,
    column: usize,
    d: usize,
)
    requires diffuse_asked { DiffuseAsked cells.old r row column d }
    requires p_value { p ≡ parts_around (2 ^ r) row column }
    ensures { rows_level r cells.new
        ≡ diffuse (kernel_of knit) r row column d 9 (rows_level r cells.old) }
{
    if is_inside(r, row, column) {
        spread_inside(cells, p, knit, r, row, column, d);
        return;
    }
    diffuse(cells, table, knit, r, row, column, d);
}

// Places a dot at a cell, which lies at place `at` of the cells: its residual becomes 0 (S 3.4), and what it lacks of a
// whole dot is taken from its neighbours, by weight (S 3.5), in turn (S 3.6), each its share (S 3.7). The parts are
// those of the places around the cell.
pub fn place(
    cells: &mut [i64],
    table: &Table,
    p: Parts,
    knit: u32,
    r: usize,
    at: usize,
    row: usize,
    column: usize,
)
    requires place_asked { PlaceAsked cells.old r at row column }
    requires p_value { p ≡ parts_around (2 ^ r) row column }
    ensures { rows_level r cells.new
        ≡ diffuse (kernel_of knit) r row column
        (missing (in_level r (rows_level r cells.old) row column)) 9
        (set (rows_level r cells.old) (place_in r row column) (pos 0)) }
{
    let d = DOT - cells[at];
    cells[at] = 0;
    diffuse_at(cells, table, p, knit, r, row, column, d as usize);
}
