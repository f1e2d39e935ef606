// Quote Page (`quote_page`): a line for each aligned square of a level, by row then column, with five figures in
// columns: the square's row (3 places) and column (3), its grey sum (8), its holes (5) and its cap (5). A line has 29
// bytes.
#![tactic(auto)]

ghost use Rattle.std.specs.Prelude.{◌≡◌, ◌^◌, ◌<◌, ◌≤◌};
ghost use Rattle.definition.specs.Lists.{joined};
ghost use Rattle.definition.specs.Answers.{value_says};
ghost use Rattle.definition.specs.QuotePage.{columns, aligned_line, quote_line, quote_text, quote_page_refusal};
ghost use Rattle.definition.specs.QuotePage.{quote_page_of};
ghost use Rattle.decimals.specs.Writing.{Wrote};
ghost use Rattle.checks.specs.Checks.{checked};
ghost use Rattle.quote_page.specs.Page.{PageAsked, page_length};

use definition::Refusal;

// A line of five figures in columns (S 6.5).
fn put_line(
    out: &mut [u8],
    at: usize,
    row: u64,
    column: u64,
    grey: u64,
    dots: u64,
    cap: u64,
) -> usize
    requires { at ≤ 2 ^ 61 }
    ensures { Wrote out.old at (aligned_line (columns row column grey dots cap)) result out.new }
{
    let second = decimals::put_column(out, at, 3, row, b' ');
    let third = decimals::put_column(out, second, 3, column, b' ');
    let fourth = decimals::put_column(out, third, 8, grey, b' ');
    let fifth = decimals::put_column(out, fourth, 5, dots, b' ');
    decimals::put_column(out, fifth, 5, cap, b'\n')
}

// The line of the block (row, column) of level k.
fn put_block(
    out: &mut [u8],
    at: usize,
    greys: &[u8],
    serials: &[u32],
    r: usize,
    k: usize,
    row: usize,
    column: usize,
) -> usize
    requires { (at ≤ 2 ^ 61) × (row < 2 ^ k) × (column < 2 ^ k) × PageAsked greys.now serials.now r k }
    ensures { Wrote out.old at (quote_line r greys.now serials.now k row column) result
        out.new }
{
    let s = sizes::pow2(r - k) as u64;
    let grey = blocks::block_greys(greys, r, k, row, column) as u64;
    let dots = blocks::block_dots(serials, r, k, row, column) as u64;
    let cap = quote_figures::quote_cap(s, grey);
    put_line(out, at, row as u64, column as u64, grey, dots, cap)
}

// The lines of a row of blocks.
fn put_row(
    out: &mut [u8],
    from: usize,
    greys: &[u8],
    serials: &[u32],
    r: usize,
    k: usize,
    row: usize,
) -> usize
    requires { (from ≤ 2 ^ 60) × (row < 2 ^ k) × PageAsked greys.now serials.now r k }
    ensures { Wrote out.old from (joined (2 ^ k) (quote_line r greys.now serials.now k row))
        result out.new }
{
    let mut at = from;
    for column in 0..sizes::pow2(k) {
        at = put_block(out, at, greys, serials, r, k, row, column);
    }
    at
}

// The whole page.
fn put_page(out: &mut [u8], greys: &[u8], serials: &[u32], r: usize, k: usize) -> usize
    requires { PageAsked greys.now serials.now r k }
    ensures { Wrote out.old 0 (quote_text r greys.now serials.now k) result out.new }
{
    let mut at = 0;
    for row in 0..sizes::pow2(k) {
        at = put_row(out, at, greys, serials, r, k, row);
    }
    at
}

// The refusals 1, 2, 4, 6, 8 (S 5.2), for lengths lent.
#[tactic(auto, unfolding(checks::specs::Checks::checked, definition::specs::Answers::number_of, // the number it says
definition::specs::Refusals::lowest, definition::specs::QuotePage::quote_page_refusal))]
fn check_quote(r: usize, greys: usize, serials: usize, k: usize, out: usize) -> Result<(), Refusal>
    requires { r ≤ 8 }
    ensures { checked result ≡ quote_page_refusal r greys serials k (page_length k) out }
{
    if r == 0 {
        return Err(Refusal::SideUnknown);
    }
    let cells = sizes::cell_count(r);
    if greys < cells {
        return Err(Refusal::GreysShort);
    }
    if serials < cells {
        return Err(Refusal::SheetShort);
    }
    if r < k {
        return Err(Refusal::BlockUnknown);
    }
    let page = 29 * sizes::cell_count(k);
    if out < page {
        return Err(Refusal::OutputShort);
    }
    Ok(())
}

// Quote Page (S 8.4): the page of a level, or a refusal with nothing written. It reads each cell once.
pub fn quote_page(
    side: u32,
    greys: &[u8],
    serials: &[u32],
    level: u32,
    out: &mut [u8],
) -> Result<usize, Refusal>
    ensures { record {
      said = value_says result;
      output = out.new;
    }
        ≡ quote_page_of side greys.now serials.now level out.old }
{
    let r = sizes::power_of(side);
    let k = level as usize;
    check_quote(r, greys.len(), serials.len(), k, out.len())?;
    Ok(put_page(out, greys, serials, r, k))
}
