// A macroblock of the laser with two heads: four blocks of 4 by 4 cells, which are entries of level r − 2 of the
// pyramid (`work`). It goes by the row and the column, on that level, of its top left block. The pyramid lies by
// quarters; what is read of it is said of the pyramid written row after row.
#![tactic(auto)]

ghost use Rattle.std.specs.Prelude.{◌≡◌, true, false, ◌&&◌, ◌≤◌, ◌<◌, length, pos, ◌+ℤ◌, MatchOption};
ghost use Rattle.std.specs.Int.Signed.{le_z};
ghost use Rattle.definition.specs.Pyramid.{half_dot, needed};
ghost use Rattle.definition.specs.Quarters.{rows_from};
ghost use Rattle.definition.specs.Diffusion.{kernel_of};
ghost use Rattle.heads.specs.TwoHeads.{macroblock_sum, clear, work};
ghost use Rattle.head_order.specs.Promise.{Fits};
ghost use Rattle.macroblock.specs.FourBlocks.{BlockAsked, MacroblockAsked, LargeSheet, SmallSums};
ghost use Rattle.macroblock.specs.FourBlocks.{block_of, better_of, largest_of, Seen};

use places::Table;
use sizes::HALF_DOT;

// A block: its row, its column and its place in the pyramid, and the sum of its cells.
#[derive(Clone, Copy)]
struct Block {
    row: usize,
    column: usize,
    at: usize,
    sum: i64,
}

// Block (a, b).
fn block_at(pyramid: &[i64], table: &Table, r: usize, a: usize, b: usize) -> Block
    requires { BlockAsked pyramid.now r a b }
    ensures { result ≡ block_of r (rows_from r pyramid.now) a b }
{
    let first = sizes::level_start(r - 2);
    let at = first + table.place(a, b);
    let sum = pyramid[at];
    Block {
        row: a,
        column: b,
        at,
        sum,
    }
}

// The next one where it owes more, else the best so far: the first of equals.
fn better(best: Block, next: Block) -> Block
    ensures { result ≡ better_of best next }
{
    if best.sum < next.sum { next } else { best }
}

// Of four blocks, one that owes most: the first of equals.
fn largest(first: Block, second: Block, third: Block, fourth: Block) -> Block
    ensures { result ≡ largest_of first second third fourth }
{
    let two = better(first, second);
    let three = better(two, third);
    better(three, fourth)
}

// Whether four blocks that owe so much burn a cell.
fn is_due(first: i64, second: i64, third: i64, fourth: i64) -> bool
    requires { SmallSums first second third fourth }
    ensures { result ≡ le_z (pos half_dot) (first +ℤ second +ℤ third +ℤ fourth) }
{
    HALF_DOT <= first + second + third + fourth
}

// The block that owes most of macroblock (a, b), where the macroblock owes half a dot or more (S 13.2). Each block is
// read once.
fn debt_of(pyramid: &[i64], table: &Table, r: usize, a: usize, b: usize) -> Option<Block>
    requires { MacroblockAsked pyramid.now r a b }
    ensures { MatchOption result
        (false ≡ le_z (pos half_dot) (macroblock_sum r (rows_from r pyramid.now) (a, b)))
        (λ best. Seen r (rows_from r pyramid.now) a b true best.row best.column best.at) }
{
    let top_left = block_at(pyramid, table, r, a, b);
    let top_right = block_at(pyramid, table, r, a, b + 1);
    let bottom_left = block_at(pyramid, table, r, a + 1, b);
    let bottom_right = block_at(pyramid, table, r, a + 1, b + 1);
    if !is_due(
        top_left.sum,
        top_right.sum,
        bottom_left.sum,
        bottom_right.sum,
    ) {
        return None;
    }
    Some(largest(top_left, top_right, bottom_left, bottom_right))
}

// Whether x is no rim row of a macroblock, whose rows are 4a to 4a + 7, or one that is the map's edge. Of columns
// likewise.
fn is_clear(r: usize, a: usize, x: usize) -> bool
    requires { (r ≤ 8) × (a < 256) }
    ensures { result ≡ clear r a x }
{
    let first = 4 * a;
    if x == first {
        return a == 0;
    }
    if x == first + 7 {
        let side = sizes::pow2(r);
        return first + 8 == side;
    }
    true
}

// Whether a cell of macroblock (a, b) lies clear of its rim (S 13.3), by its row and by its column.
fn lies_clear(r: usize, a: usize, b: usize, row: usize, column: usize) -> bool
    requires { (r ≤ 8) × (a < 256) × (b < 256) }
    ensures { result ≡ (clear r a row && clear r b column) }
{
    is_clear(r, a, row) && is_clear(r, b, column)
}

// Works macroblock (a, b) of a sound sheet of just the needed lengths, on cloth of a knit: where it owes half a dot or
// more (S 13.2), and the cell that it comes to lies clear of its rim (S 13.3), that cell is burnt. Returns the dots
// made by then.
pub fn work(
    pyramid: &mut [i64],
    serials: &mut [u32],
    order: &mut [u32],
    table: &Table,
    knit: u32,
    r: usize,
    a: usize,
    b: usize,
    dots: u32,
) -> u32
    requires large_sheet { LargeSheet r
        (record { pyramid = rows_from r pyramid.now; serials = serials.old; order = order.old; dots = dots }) }
    requires fits { Fits r (a, b) }
    requires pyramid_len { length pyramid.old ≡ needed r }
    ensures { record {
      pyramid = rows_from r pyramid.exit.now;
      serials = serials.new;
      order = order.new;
      dots = result;
    }
        ≡ work (kernel_of knit) r
        (record {
          pyramid = rows_from r pyramid.entry.now;
          serials = serials.old;
          order = order.old;
          dots = dots;
        })
        (a, b) }
{
    let Some(block) = debt_of(pyramid, table, r, a, b) else {
        return dots;
    };
    let cell = descent::descend(pyramid, r, r - 2, block.at, block.row, block.column, false);
    if !lies_clear(r, a, b, cell.row, cell.column) {
        return dots;
    }
    place_dot::place_at(pyramid, serials, order, table, knit, r, cell, dots);
    dots + 1
}
