// The counting over aligned squares behind Tally, Quote Page and the test for a sound sheet: the dots of a block
// (`block_dots`), its greys (`block_greys`), and the mark of a cell (`mark`).
#![tactic(auto)]

ghost use Rattle.std.specs.Prelude.{◌≡◌, ◌*◌, ◌≤◌, ℕ, length};
ghost use Rattle.definition.specs.Blocks.{burnt, grey_sum, dots_in};
ghost use Rattle.integers.specs.Totals.{Total};
ghost use Rattle.blocks.specs.Squares.{row_weight, square_weight, RowAsked, SquareAsked, as_it_is, grey_small};
ghost use Rattle.blocks.specs.Squares.{serial_small};
ghost use Rattle.blocks.specs.Blocks.{BlockAsked, block_weight};

// What a cell holds, with what it counts in a sum over cells.
trait Weighed: Copy {
    ghost weight: { Self → ℕ };

    ghost most: { ℕ };

    fn weight(self) -> u32
        ensures { Total (weight self) most result };

    ghost few: { most ≤ 255 };
}

// The serial of a dot counts 1, that of a cell without one 0.
impl Weighed for u32 {
    ghost weight = { burnt };

    ghost most = { 1 };

    ghost few = { serial_small };

    fn weight(self) -> u32 {
        mark(self)
    }
}

// A grey counts itself.
impl Weighed for u8 {
    ghost weight = { as_it_is };

    ghost most = { 255 };

    ghost few = { grey_small };

    fn weight(self) -> u32 {
        u32::from(self)
    }
}

// 1 for the serial of a dot, 0 for that of a cell without one.
pub fn mark(serial: u32) -> u32
    ensures { Total (burnt serial) 1 result }
{
    u32::from(serial != 0)
}

// What `count` cells count together, from the cell `from` on.
fn row_weight<T: Weighed>(values: &[T], from: usize, count: usize) -> u32
    requires { RowAsked (length values.now) from count }
    ensures { Total (row_weight T.weight values.now from count) (256 * T.most) result }
{
    let mut sum = 0;
    for value in &values[from..from + count] {
        sum += value.weight();
    }
    sum
}

// What a square of s by s cells counts, on a map of `side` by `side`.
fn square_weight<T: Weighed>(values: &[T], side: usize, s: usize, top: usize, left: usize) -> u32
    requires { SquareAsked (length values.now) side s top left }
    ensures { Total (square_weight T.weight values.now side s top left) (65536 * T.most) result }
{
    let mut sum = 0;
    for x in 0..s {
        sum += row_weight(values, (top + x) * side + left, s);
    }
    sum
}

// What the block (row, column) of level k counts (S 2.10).
fn block_weight<T: Weighed>(values: &[T], r: usize, k: usize, row: usize, column: usize) -> u32
    requires { BlockAsked (length values.now) r k row column }
    ensures { result ≡ block_weight T.weight r values.now k row column }
{
    let side = sizes::pow2(r);
    let s = sizes::pow2(r - k);
    square_weight(values, side, s, row * s, column * s)
}

// The dots of the block (row, column) of level k (S 2.10).
pub fn block_dots(serials: &[u32], r: usize, k: usize, row: usize, column: usize) -> u32
    requires { BlockAsked (length serials.now) r k row column }
    ensures { result ≡ dots_in r serials.now k row column }
{
    block_weight(serials, r, k, row, column)
}

// The grey sum of the block (row, column) of level k (S 2.10).
pub fn block_greys(greys: &[u8], r: usize, k: usize, row: usize, column: usize) -> u32
    requires { BlockAsked (length greys.now) r k row column }
    ensures { result ≡ grey_sum r greys.now k row column }
{
    block_weight(greys, r, k, row, column)
}
