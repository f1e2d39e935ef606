// The pyramid of sums, by quarters: cells from greys, one block of four (`sum_of_four`), one level, all levels
// (`fill_pyramid`). Load fills with it; renewal and the test for a sound sheet take its sums of four.
#![tactic(auto)]

ghost use Rattle.std.specs.Prelude.{◌≡◌, ◌++◌, ◌+◌, ◌*◌, ◌^◌, ◌<◌, ◌≤◌, length, drop, pos};
ghost use Rattle.definition.specs.Pyramid.{start, cell_count};
ghost use Rattle.definition.specs.Quarters.{quarter_level, quarters_from};
ghost use Rattle.layouts.specs.Sums.{four_from, coarser_from, quarters_over};
ghost use Rattle.pyramid.specs.PyramidPart.{residual_at, four_at, fresh_pyramid};
ghost use Rattle.pyramid.specs.PyramidPart.{FourAsked, SumsAsked, Whole, SmallCells, CellsAsked, FillAsked};
ghost use Rattle.pyramid.specs.PyramidPart.{RowAsked, MoreFilled};

use places::Table;

// A cell's residual at the start: 256 x grey (S 3.9).
fn residual(grey: u8) -> i64
    ensures { result ≡ pos (256 * grey) }
{
    256 * (grey as i64)
}

// Fills one row of level r, which is the whole part, with the residuals of its greys. `first` is the row's part in the
// places of its cells.
fn fill_row(
    part: &mut [i64],
    columns: &[usize; 256],
    greys: &[u8],
    first: usize,
    row: usize,
    r: usize,
)
    requires { RowAsked (length part.old) columns.now (length greys.now) first row r }
    ensures { MoreFilled r greys.now (row * 2 ^ r) (row * 2 ^ r + 2 ^ r) part.old part.new }
{
    let side = sizes::pow2(r);
    for column in 0..side {
        part[first + columns[column]] = residual(greys[row * side + column]);
    }
}

// Fills level r, which is the whole part, with the residuals of the greys, each at the place of its cell: row after
// row.
fn fill_cells(part: &mut [i64], table: &Table, greys: &[u8], r: usize)
    requires { CellsAsked part.old (length greys.now) r }
    ensures { part.new ≡ quarter_level r (residual_at r greys.now) }
{
    let side = sizes::pow2(r);
    let columns = table.column_parts(side);
    for row in 0..side {
        fill_row(part, &columns, greys, table.row_part(row), row, r);
    }
}

// The sum of the four entries whose top left one is at place `top`, in rows of `wide` entries. An entry of the next
// coarser level is such a sum, by the definition of report 265, section 3.1.
pub fn sum_of_four(part: &[i64], top: usize, wide: usize) -> i64
    requires { FourAsked part.now top wide }
    ensures { result ≡ four_at part.now top wide }
{
    let low = top + wide;
    part[top] + part[top + 1] + part[low] + part[low + 1]
}

// The sum of the four entries below the one at place i of the level of `size` entries with which the part begins. They
// lie side by side.
fn sum_below(part: &[i64], size: usize, i: usize) -> i64
    requires sums_asked { SumsAsked part.now size }
    requires i_lt_size { i < size }
    ensures { result ≡ four_from (drop size part.now) i }
{
    sum_of_four(part, size + 4 * i, 2)
}

// Fills level k, with which the part begins, from the next finer level, with which it goes on and ends.
fn fill_level(part: &mut [i64], k: usize)
    requires { (k ≤ 7) × SumsAsked part.old (cell_count k) }
    ensures { part.new
        ≡ coarser_from k (drop (cell_count k) part.old) ++ drop (cell_count k) part.old }
{
    let size = sizes::cell_count(k);
    for i in 0..size {
        part[i] = sum_below(part, size, i);
    }
}

// Sums up all levels over level k, with which the part ends.
fn sum_up(part: &mut [i64], k: usize)
    requires { Whole part.old k × SmallCells part.old k }
    ensures { part.new ≡ quarters_over k (drop (start k) part.old) }
{
    if 0 < k {
        let up = sizes::level_start(k - 1);
        fill_level(&mut part[up..], k - 1);
        let off = sizes::level_start(k);
        sum_up(&mut part[..off], k - 1);
    }
}

// Fills a pyramid of power r (S 2.4), of just the needed length, from the greys.
pub fn fill_pyramid(part: &mut [i64], table: &Table, greys: &[u8], r: usize)
    requires { FillAsked part.old (length greys.now) r }
    ensures { part.new ≡ quarters_from r (fresh_pyramid r greys.now) }
{
    let off = sizes::level_start(r);
    fill_cells(&mut part[off..], table, greys, r);
    sum_up(part, r);
}
