// The two figures of a quote, in the one place where they are worked out: the dots that a map comes to (`total_dots`),
// and the cap of an aligned square (`quote_cap`), for one square and for all squares of a level (`put_caps`).
#![tactic(auto)]

ghost use Rattle.std.specs.Prelude.{◌≡◌, ◌++◌, ◌*◌, ◌/◌, ◌%◌, ◌^◌, ◌<◌, ◌≤◌, length, drop};
ghost use Rattle.definition.specs.Blocks.{block_side, grey_sum, grey_total, total_of};
ghost use Rattle.definition.specs.QuotePage.{quote_cap};
ghost use Rattle.definition.specs.SketchQuote.{caps_of};
ghost use Rattle.quote_figures.specs.MapLent.{MapLent, LevelLent};

// The dots that a map comes to (S 15.3).
pub fn total_dots(r: usize, greys: &[u8]) -> u64
    requires { MapLent r (length greys.now) }
    ensures value { result ≡ total_of (grey_total r greys.now) }
    ensures upper_bound { result ≤ 65536 }
{
    let sum = blocks::block_greys(greys, r, 0, 0, 0) as u64;
    (2 * sum + 255) / 510
}

// The cap of a square of side s with a grey sum (S 8.3).
#[tactic(auto, unfolding(definition::specs::QuotePage::quote_cap))]
pub fn quote_cap(s: u64, grey: u64) -> u64
    requires { (s ≤ 256) × (grey < 2 ^ 32) }
    ensures { result ≡ quote_cap s grey }
{
    let square = s * s;
    let quotient = (3 * grey + 764 + 1020 * s) / 765;
    quotient.min(square)
}

// The cap of the square with number i of level k, by row then column.
pub fn block_cap(greys: &[u8], r: usize, k: usize, i: usize) -> u32
    requires level_lent { LevelLent r k (length greys.now) }
    requires i_bound { i < 2 ^ k * 2 ^ k }
    ensures { result ≡ quote_cap (block_side r k) (grey_sum r greys.now k (i / 2 ^ k) (i % 2 ^ k)) }
{
    let count = sizes::pow2(k);
    let s = sizes::pow2(r - k) as u64;
    let grey = blocks::block_greys(greys, r, k, i / count, i % count) as u64;
    quote_cap(s, grey) as u32
}

// The caps (S 8.3) of all squares of level k, by row then column, in front of what the list has behind them.
pub fn put_caps(greys: &[u8], r: usize, k: usize, caps: &mut [u32])
    requires level_lent { LevelLent r k (length greys.now) }
    requires k_in_bounds { 2 ^ k * 2 ^ k ≤ length caps.old }
    ensures { caps.new ≡ caps_of r greys.now k ++ drop (2 ^ k * 2 ^ k) caps.old }
{
    let count = sizes::cell_count(k);
    for (i, cap) in caps[..count].iter_mut().enumerate() {
        *cap = block_cap(greys, r, k, i);
    }
}
