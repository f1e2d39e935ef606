// The texts of maps and of sketches: the first line, with the side (`first_line`), and what the lines behind it say of
// each cell (`read_cells`, `find_cells`). A map says one number of a cell, its grey; a sketch says a pair, its low and
// its high grey. One reader serves both: to it the grey of a map is low and high at once.
#![tactic(auto)]

ghost use Rattle.std.specs.Prelude.{◌≡◌, true, ◌*◌, ◌<◌, drop};
ghost use Rattle.definition.specs.Answers.{number_of};
ghost use Rattle.text_cells.specs.Ends.{end_at};
ghost use Rattle.text_cells.specs.Cell.{cell_of, cell_in};
ghost use Rattle.text_cells.specs.Cells.{CellsAsked, CellsRead};
ghost use Rattle.text_cells.specs.Found.{CellsFound, why_not};
ghost use Rattle.text_cells.specs.FirstLine.{LineSays};

use definition::Refusal;

// What the first line of a text says: a side, and the place behind the line.
#[derive(Clone, Copy)]
pub struct FirstLine {
    pub side: u32,
    pub next: usize,
}

// What a text says of a cell: low and high, and the place behind them.
#[derive(Clone, Copy)]
pub struct Cell {
    pub low: u32,
    pub high: u32,
    pub next: usize,
}

// The byte that ends cell i: a comma, or byte 10 at the end of a row (S 6.1).
#[tactic(auto, unfolding(crate::specs::Ends::end_at))]
pub fn end_at(side: usize, i: usize) -> u8
    requires { (0 < side) × (i < 65536) }
    ensures { result ≡ end_at side i }
{
    if (i + 1) % side == 0 { b'\n' } else { b',' }
}

// A pair: low, a comma, high, and the byte that ends the cell.
fn read_pair(text: &[u8], at: usize, most: u32, end: u8) -> Option<Cell>
    ensures { cell_in text.now result ≡ cell_of true most end (drop at text.now) }
{
    let low = decimals::read_number(text, at, most, b',')?;
    let high = decimals::read_number(text, low.next, most, end)?;
    Some(Cell {
        low: low.value,
        high: high.value,
        next: high.next,
    })
}

// A cell of a sketch, where `pairs` says so, or of a map; no number is above `most`.
fn read_cell(text: &[u8], at: usize, pairs: bool, most: u32, end: u8) -> Option<Cell>
    ensures { cell_in text.now result ≡ cell_of pairs most end (drop at text.now) }
{
    if pairs {
        return read_pair(text, at, most, end);
    }
    let grey = decimals::read_number(text, at, most, end)?;
    Some(Cell {
        low: grey.value,
        high: grey.value,
        next: grey.next,
    })
}

// Reads the cells of a map (S 6.2) or of a sketch (S 6.3) from a place of the text on, and stores the lows and highs
// for which the parts lent have a place: none in an empty one. Where the cells are all there, with nothing behind them,
// it answers whether no low is above its high.
#[tactic(auto, using(crate::specs::Cells::left_broken, crate::specs::Cells::left_none))]
pub fn read_cells(
    text: &[u8],
    from: usize,
    side: usize,
    pairs: bool,
    most: u32,
    lows: &mut [u8],
    highs: &mut [u8],
) -> Option<bool>
    requires { CellsAsked side most }
    ensures { CellsRead text.now from side pairs most lows.old highs.old
        result lows.new highs.new }
{
    let mut rise = true;
    let mut at = from;
    for i in 0..side * side {
        let cell = read_cell(text, at, pairs, most, end_at(side, i))?;
        decimals::put_byte(lows, i, cell.low as u8);
        decimals::put_byte(highs, i, cell.high as u8);
        rise &= cell.low <= cell.high;
        at = cell.next;
    }
    (text.len() <= at).then_some(rise)
}

// The same, without storing any.
#[tactic(auto, using(crate::specs::Found::cells_found))]
pub fn find_cells(text: &[u8], from: usize, side: usize, pairs: bool, most: u32) -> Option<bool>
    requires { CellsAsked side most }
    ensures { CellsFound text.now from side pairs most result }
{
    read_cells(text, from, side, pairs, most, &mut [], &mut [])
}

// Why cells are refused that aren't all there with no number above 240: 7 if they break the grammar, and else 12.
pub fn why_not(text: &[u8], from: usize, side: usize, pairs: bool) -> Refusal
    requires { CellsAsked side 255 }
    ensures { number_of result ≡ why_not text.now from side pairs }
{
    match find_cells(text, from, side, pairs, 255) {
        None => Refusal::TextMalformed,
        Some(_) => Refusal::GreyHigh,
    }
}

// The first line of a text (S 6.4), for greys buffers of which the shortest has `room` places: refusals 7, 1 and 2, in
// this order (S 5.2).
pub fn first_line(text: &[u8], room: usize) -> Result<FirstLine, Refusal>
    ensures { LineSays text.now room result }
{
    let line = decimals::read_number(text, 0, 999, b'\n').ok_or(Refusal::TextMalformed)?;
    checks::check_greys(sizes::power_of(line.value), room)?;
    Ok(FirstLine {
        side: line.value,
        next: line.next,
    })
}
