// Map texts: Map Text, which reads one (`map_text`); the writer (`put_map`); and Lower Text (`lower_text`), which
// lowers the greys of a text to 240 and writes the one text of them.
#![tactic(auto)]

ghost use Rattle.std.specs.Prelude.{◌≡◌, ◌^◌, ◌≤◌, length};
ghost use Rattle.definition.specs.Answers.{value_says};
ghost use Rattle.definition.specs.MapText.{map_text, map_text_of};
ghost use Rattle.definition.specs.LowerText.{lower_text_of};
ghost use Rattle.decimals.specs.Writing.{Wrote};
ghost use Rattle.text_cells.specs.Cells.{CellsAsked};
ghost use Rattle.text_cells.specs.FirstLine.{GoodSide};
ghost use Rattle.map_text.specs.WaysOut.{GreysStored};
ghost use Rattle.map_text.specs.Written.{MapLent, greys_text, LoweredPut};

use definition::Refusal;

// Reads the greys of a map, none above `most`, and stores them: of each cell's low and high, which are the same, the
// low.
#[tactic(auto, using(crate::specs::WaysOut::greys_stored))]
fn store_greys(text: &[u8], from: usize, side: usize, most: u32, greys: &mut [u8]) -> Option<bool>
    requires { CellsAsked side most }
    ensures { GreysStored text.now from side most greys.old result greys.new }
{
    text_cells::read_cells(text, from, side, false, most, greys, &mut [])
}

// The greys behind a first line that says a good side: tested, then stored.
fn read_map(text: &[u8], from: usize, side: u32, greys: &mut [u8]) -> Result<u32, Refusal>
    requires { GoodSide text.now (length greys.old) side from }
    ensures { record { said = value_says result; greys = greys.new }
        ≡ map_text_of text.now greys.old }
{
    let n = side as usize;
    let found = text_cells::find_cells(text, from, n, false, 240);
    if found.is_none() {
        return Err(text_cells::why_not(text, from, n, false));
    }
    store_greys(text, from, n, 240, greys);
    Ok(side)
}

// Map Text (S 9.1), with its refusals in order (S 5.2).
pub fn map_text(text: &[u8], greys: &mut [u8]) -> Result<u32, Refusal>
    ensures { record { said = value_says result; greys = greys.new }
        ≡ map_text_of text.now greys.old }
{
    let line = text_cells::first_line(text, greys.len())?;
    read_map(text, line.next, line.side, greys)
}

// Stores the greys of a map, each with the byte that ends it, from a place on.
fn put_greys(out: &mut [u8], from: usize, side: usize, greys: &[u8]) -> usize
    requires { (from ≤ 2 ^ 61) × MapLent side (length greys.now) }
    ensures { Wrote out.old from
        (greys_text side greys.now (length greys.now)) result out.new }
{
    let mut at = from;
    for (i, &grey) in greys.iter().enumerate() {
        at = decimals::put_field(out, at, u64::from(grey), text_cells::end_at(side, i));
    }
    at
}

// The one text of a map (S 6.2), as far as the buffer has places; returns its length.
pub fn put_map(out: &mut [u8], side: usize, greys: &[u8]) -> usize
    requires { MapLent side (length greys.now) }
    ensures { Wrote out.old 0 (map_text side greys.now) result out.new }
{
    let at = decimals::put_field(out, 0, side as u64, b'\n');
    put_greys(out, at, side, greys)
}

// Lowers the greys of a map in their place, and stores their text as put_map does.
#[tactic(auto, using(crate::specs::Written::lowered_put))]
fn put_lowered(out: &mut [u8], side: usize, greys: &mut [u8]) -> usize
    requires { MapLent side (length greys.old) }
    ensures { LoweredPut side greys.old out.old greys.new result out.new }
{
    lower::lower(greys);
    put_map(out, side, greys)
}

// The greys behind a first line that says a good side: tested, then stored, lowered and written as a text.
fn lower_map(
    text: &[u8],
    from: usize,
    side: usize,
    greys: &mut [u8],
    output: &mut [u8],
) -> Result<usize, Refusal>
    requires { GoodSide text.now (length greys.old) side from }
    ensures { record { said = value_says result; greys = greys.new; output = output.new }
        ≡ lower_text_of text.now greys.old output.old }
{
    let there = text_cells::find_cells(text, from, side, false, 255);
    if there.is_none() {
        return Err(Refusal::TextMalformed);
    }
    // the text that is written is as long as the one that was read: 241 to 255 have three digits, as 240 has
    if output.len() < text.len() {
        return Err(Refusal::OutputShort);
    }
    store_greys(text, from, side, 255, greys);
    Ok(put_lowered(output, side, &mut greys[..side * side]))
}

// Lower Text (S 9.2), with its refusals in order (S 5.2).
pub fn lower_text(text: &[u8], greys: &mut [u8], output: &mut [u8]) -> Result<usize, Refusal>
    ensures { record { said = value_says result; greys = greys.new; output = output.new }
        ≡ lower_text_of text.now greys.old output.old }
{
    let line = text_cells::first_line(text, greys.len())?;
    lower_map(text, line.next, line.side as usize, greys, output)
}
