// Whether a sheet is sound (`is_sound`): its seven tests, for any contents of the three buffers, in either layout of
// the pyramid.
#![tactic(auto)]

ghost use Rattle.std.specs.Prelude.{◌≡◌, ◌&&◌, ◌≤◌, ◌<◌, ◌+◌, ◌*◌, ◌-◌, length, get_or};
ghost use Rattle.definition.specs.Lists.{sum_to};
ghost use Rattle.definition.specs.Blocks.{burnt};
ghost use Rattle.definition.specs.Sound.{few_dots, numbered, counted, unused, summed, bounded, owing, is_sound};
ghost use Rattle.definition.specs.Sound.{every_entry};
ghost use Rattle.integers.specs.Totals.{Total};
ghost use Rattle.sound.specs.OnePlace.{in_rows, SoundAsked, CellsAsked, NumberedAsked, NextAsked, next_at, free_at};
ghost use Rattle.sound.specs.OnePlace.{LineAsked, row_place, ColumnPlaces, CellAsked, bounded_at};
ghost use Rattle.sound.specs.OnePlace.{
  on_side,
  NearPlace,
  NearAsked,
  near_at,
  owing_cell,
  OwingAsked,
  owing_at,
  held_at,
};
ghost use Rattle.sound.specs.OnePlace.{SumAsked, sum_holds, SidesAsked, row_sum_at, sum_at, LevelAsked, level_summed};
ghost use Rattle.sound.specs.OnePlace.{GridAsked, RowAsked, row_held, SummedAsked};

use places::Table;
use sizes::DOT;

// Whether there are at most as many dots as cells (S 4.1).
fn few_dots(r: usize, dots: u32) -> bool
    requires { r ≤ 8 }
    ensures { result ≡ few_dots r dots }
{
    dots as usize <= sizes::cell_count(r)
}

// Whether order place i names a cell whose serial is i + 1.
fn is_next(cells: usize, serials: &[u32], order: &[u32], i: usize) -> bool
    requires { NextAsked cells (length serials.now) (length order.now) i }
    ensures { result ≡ next_at cells serials.now order.now i }
{
    let cell = order[i] as usize;
    cell < cells && serials[cell] as usize == i + 1
}

// Whether each dot stands at its order place, and has its serial there (S 4.2).
fn numbered(r: usize, serials: &[u32], order: &[u32], dots: u32) -> bool
    requires { NumberedAsked r (length serials.now) (length order.now) dots }
    ensures { result ≡ numbered r serials.now order.now dots }
{
    let cells = sizes::cell_count(r);
    let count = dots as usize;
    for i in 0..count {
        if !is_next(cells, serials, order, i) {
            return false;
        }
    }
    true
}

// Whether there are as many serials other than 0 as dots (S 4.3).
fn counted(r: usize, serials: &[u32], dots: u32) -> bool
    requires { CellsAsked r (length serials.now) }
    ensures { result ≡ counted r serials.now dots }
{
    let mut sum = 0;
    for serial in serials {
        sum += blocks::mark(*serial);
    }
    sum == dots
}

// Whether order place i is one of a dot, or 0.
fn is_free(order: &[u32], dots: u32, i: usize) -> bool
    requires { i < length order.now }
    ensures { result ≡ free_at dots order.now i }
{
    i < dots as usize || order[i] == 0
}

// Whether the order places past those of the dots are 0 (S 4.4).
fn unused(r: usize, order: &[u32], dots: u32) -> bool
    requires { CellsAsked r (length order.now) }
    ensures { result ≡ unused r order.now dots }
{
    let cells = sizes::cell_count(r);
    for i in 0..cells {
        if !is_free(order, dots, i) {
            return false;
        }
    }
    true
}

// The part of row a, of a map of side `side`, in the places of its cells within their level. A place is its row's part
// and its column's, added, in either layout: so a row's part is found once for all its cells.
// The layout is a flag here and below: three short functions ask for it, and a trait with a type for each layout would
// be no plainer.
fn row_place(rows: bool, table: &Table, side: usize, a: usize) -> usize
    requires { LineAsked side a }
    ensures { result ≡ row_place rows side a }
{
    if rows { a * side } else { table.row_part(a) }
}

// The parts of all columns of a map of side `side`, found once for all rows.
fn column_places(rows: bool, table: &Table, side: usize) -> [usize; 256]
    requires { side ≤ 256 }
    ensures { ColumnPlaces rows side result }
{
    if rows {
        let mut columns = [0; 256];
        for b in 0..side {
            columns[b] = b;
        }
        columns
    } else {
        table.column_parts(side)
    }
}

// Whether the residual of cell i, which is at place `at`, is at most one dot, and at most 0 if the cell is burnt
// (S 4.6).
fn cell_bounded(at: usize, pyramid: &[i64], serials: &[u32], i: usize) -> bool
    requires { CellAsked at (length pyramid.now) (length serials.now) i }
    ensures { result ≡ bounded_at pyramid.now serials.now at i }
{
    let residual = pyramid[at];
    if serials[i] == 0 {
        residual <= DOT
    } else {
        residual <= 0
    }
}

// Whether a row or column, counted from one before the map, lies on the map.
fn on_side(side: usize, x: usize) -> bool
    ensures { result ≡ on_side side x }
{
    (1..=side).contains(&x)
}

// 1 if there is a dot in row x and column y, so counted, else 0.
fn mark_at(side: usize, serials: &[u32], x: usize, y: usize) -> u32
    requires { NearPlace side (length serials.now) x y }
    ensures { Total (burnt (get_or serials.now ((x - 1) * side + (y - 1)) 0)) 1 result }
{
    blocks::mark(serials[(x - 1) * side + (y - 1)])
}

// 1 if place p of the nine around a cell is a burnt cell of the map, and not the cell itself; else 0.
fn near_mark(side: usize, serials: &[u32], row: usize, column: usize, p: usize) -> u32
    requires near_asked { NearAsked side (length serials.now) row column }
    requires p_bound { p < 9 }
    ensures { Total (near_at side serials.now row column p) 1 result }
{
    if p == 4 {
        return 0;
    }
    let x = row + p / 3;
    let y = column + p % 3;
    if !on_side(side, x) {
        return 0;
    }
    if !on_side(side, y) {
        return 0;
    }
    mark_at(side, serials, x, y)
}

// The number of a cell's burnt neighbours.
fn burnt_near(side: usize, serials: &[u32], row: usize, column: usize) -> u32
    requires { NearAsked side (length serials.now) row column }
    ensures { Total (sum_to 9 (near_at side serials.now row column)) 9 result }
{
    let mut sum = 0;
    for p in 0..9 {
        sum += near_mark(side, serials, row, column, p);
    }
    sum
}

// Whether a residual is at least -65,280 for each of `near` burnt neighbours (S 4.7).
fn is_owing(residual: i64, near: u32) -> bool
    requires { near ≤ 9 }
    ensures { result ≡ owing_cell residual near }
{
    0 - DOT * (near as i64) <= residual
}

// Whether this holds of a cell, whose residual is at place `at`. From 0 on it does, whatever is burnt: so neighbours
// are counted only for a residual below 0.
fn cell_owing(
    side: usize,
    at: usize,
    pyramid: &[i64],
    serials: &[u32],
    row: usize,
    column: usize,
) -> bool
    requires { OwingAsked side at (length pyramid.now) (length serials.now) row column }
    ensures { result ≡ owing_at side pyramid.now serials.now at row column }
{
    let residual = pyramid[at];
    if 0 <= residual {
        return true;
    }
    let near = burnt_near(side, serials, row, column);
    is_owing(residual, near)
}

// Whether both bounds hold of a cell, whose residual is at place `at`.
fn cell_held(
    side: usize,
    at: usize,
    pyramid: &[i64],
    serials: &[u32],
    row: usize,
    column: usize,
) -> bool
    requires { OwingAsked side at (length pyramid.now) (length serials.now) row column }
    ensures { result ≡ held_at side pyramid.now serials.now at row column }
{
    cell_bounded(at, pyramid, serials, row * side + column)
        && cell_owing(side, at, pyramid, serials, row, column)
}

// Whether they hold of every cell of a row. The residual of a cell is at the column's part from place `first` on.
fn row_held(
    side: usize,
    first: usize,
    columns: &[usize; 256],
    pyramid: &[i64],
    serials: &[u32],
    row: usize,
) -> bool
    requires { RowAsked side first columns.now (length pyramid.now) (length serials.now) row }
    ensures { result ≡ row_held side first columns.now pyramid.now serials.now row }
{
    for column in 0..side {
        let at = first + columns[column];
        if !cell_held(side, at, pyramid, serials, row, column) {
            return false;
        }
    }
    true
}

// Whether they hold of every cell, row after row.
fn cells_held(r: usize, rows: bool, table: &Table, pyramid: &[i64], serials: &[u32]) -> bool
    requires { GridAsked r (length pyramid.now) (length serials.now) }
    ensures { result
        ≡ (bounded r (in_rows rows r pyramid.now) serials.now
        && owing r (in_rows rows r pyramid.now) serials.now) }
{
    let side = sizes::pow2(r);
    let off = sizes::level_start(r);
    let columns = column_places(rows, table, side);
    for row in 0..side {
        let first = off + row_place(rows, table, side, row);
        if !row_held(side, first, &columns, pyramid, serials, row) {
            return false;
        }
    }
    true
}

// Whether the entry at place `at` is the sum of the four from place `top` on, in rows of `wide` entries.
fn is_sum(pyramid: &[i64], at: usize, top: usize, wide: usize) -> bool
    requires { SumAsked pyramid.now at top wide }
    ensures { result ≡ sum_holds pyramid.now at top wide }
{
    let sum = pyramid::sum_of_four(pyramid, top, wide);
    pyramid[at] == sum
}

// Whether this holds of place i of a level of side `side`, which begins at `off`, the next finer one at `next`, row
// after row.
fn row_summed(pyramid: &[i64], off: usize, next: usize, side: usize, i: usize) -> bool
    requires sides_asked { SidesAsked pyramid.now off next side }
    requires i_bound { i < side * side }
    ensures { result ≡ row_sum_at pyramid.now off next side i }
{
    let wide = 2 * side;
    let a = i / side;
    let b = i % side;
    is_sum(pyramid, off + i, next + (2 * a * wide + 2 * b), wide)
}

// The same in either layout: by quarters the four follow each other, from four times the place on.
fn place_summed(rows: bool, pyramid: &[i64], off: usize, next: usize, side: usize, i: usize) -> bool
    requires sides_asked { SidesAsked pyramid.now off next side }
    requires i_bound { i < side * side }
    ensures { result ≡ sum_at rows pyramid.now off next side i }
{
    if rows {
        row_summed(pyramid, off, next, side, i)
    } else {
        is_sum(pyramid, off + i, next + 4 * i, 2)
    }
}

// Whether it holds of every entry of level k.
fn level_summed(k: usize, rows: bool, pyramid: &[i64]) -> bool
    requires { LevelAsked pyramid.now k }
    ensures { result ≡ every_entry k (level_summed rows pyramid.now k) }
{
    let side = sizes::pow2(k);
    let off = sizes::level_start(k);
    let next = sizes::level_start(k + 1);
    let size = sizes::cell_count(k);
    for i in 0..size {
        if !place_summed(rows, pyramid, off, next, side, i) {
            return false;
        }
    }
    true
}

// Whether it holds of every level over the cells (S 4.5). It goes from the finest on, so that no sum overflows: the
// entries of a level that holds are sums of small entries.
fn summed(r: usize, rows: bool, pyramid: &[i64]) -> bool
    requires { SummedAsked rows pyramid.now r }
    ensures { result ≡ summed r (in_rows rows r pyramid.now) }
{
    for k in (0..r).rev() {
        if !level_summed(k, rows, pyramid) {
            return false;
        }
    }
    true
}

// Whether a sheet of power r is sound (S 4.1, S 4.2, S 4.3, S 4.4, S 4.5, S 4.6, S 4.7), its pyramid lying row after
// row or by quarters. The bounds of the cells are tested before the sums, which then do not overflow.
pub fn is_sound(
    r: usize,
    dots: u32,
    rows: bool,
    table: &Table,
    pyramid: &[i64],
    serials: &[u32],
    order: &[u32],
) -> bool
    requires { SoundAsked r (length pyramid.now) (length serials.now) (length order.now) }
    ensures { result
        ≡ is_sound r
        (record {
          pyramid = in_rows rows r pyramid.entry.now;
          serials = serials.now;
          order = order.now;
          dots = dots;
        }) }
{
    if !few_dots(r, dots) {
        return false;
    }
    if !numbered(r, serials, order, dots) {
        return false;
    }
    if !counted(r, serials, dots) {
        return false;
    }
    if !unused(r, order, dots) {
        return false;
    }
    if !cells_held(r, rows, table, pyramid, serials) {
        return false;
    }
    summed(r, rows, pyramid)
}
