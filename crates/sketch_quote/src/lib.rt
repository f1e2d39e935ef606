// Sketch Quote (`sketch_quote`): the figures of a rough sketch, which has a low and a high grey for each cell. They are
// the least and the greatest total of the maps between, and the greatest cap of each square of a level.
#![tactic(auto)]

ghost use Rattle.std.specs.Prelude.{◌≡◌, ◌≤◌, min, length};
ghost use Rattle.definition.specs.Answers.{sketch_says};
ghost use Rattle.definition.specs.SketchQuote.{sketch_quote_of};
ghost use Rattle.checks.specs.Checks.{checked};
ghost use Rattle.text_cells.specs.Cells.{CellsAsked};
ghost use Rattle.text_cells.specs.FirstLine.{GoodSide};
ghost use Rattle.sketch_quote.specs.Checks.{sketch_check};
ghost use Rattle.sketch_quote.specs.WaysOut.{FiguresAsked, FiguresPut};

use definition::{Refusal, SketchAnswer};

// The refusals behind a good first line, for a level k and so many places for caps: 7, 12, 13, 6, 8 (S 5.2).
#[tactic(auto, using(crate::specs::Checks::not_there), unfolding(checks::specs::Checks::checked))]
fn check_sketch(
    text: &[u8],
    from: usize,
    side: usize,
    r: usize,
    k: usize,
    caps: usize,
) -> Result<(), Refusal>
    requires { CellsAsked side 240 × (r ≤ 8) }
    ensures { checked result ≡ sketch_check text.now from side r k caps }
{
    let Some(rise) = text_cells::find_cells(text, from, side, true, 240) else {
        return Err(text_cells::why_not(text, from, side, true));
    };
    if !rise {
        return Err(Refusal::PairFalls);
    }
    if r < k {
        return Err(Refusal::BlockUnknown);
    }
    let squares = sizes::cell_count(k);
    if caps < squares {
        return Err(Refusal::OutputShort);
    }
    Ok(())
}

// The answer for the lows and highs of a map's cells, and the caps of level k.
fn put_figures(
    side: u32,
    r: usize,
    k: usize,
    lows: &[u8],
    highs: &[u8],
    caps: &mut [u32],
) -> SketchAnswer
    requires { FiguresAsked r k (length lows.now) (length highs.now) (length caps.old) }
    ensures { FiguresPut side r k lows.now highs.now caps.old result caps.new }
{
    let least = quote_figures::total_dots(r, lows) as u32;
    let greatest = quote_figures::total_dots(r, highs) as u32;
    quote_figures::put_caps(highs, r, k, caps);
    SketchAnswer {
        side,
        least,
        greatest,
    }
}

// The sketch behind a first line that says a good side: tested, then stored, with its figures.
fn quote_cells(
    text: &[u8],
    from: usize,
    side: u32,
    level: u32,
    lows: &mut [u8],
    highs: &mut [u8],
    caps: &mut [u32],
) -> Result<SketchAnswer, Refusal>
    requires { GoodSide text.now (min (length lows.old) (length highs.old)) side from }
    ensures { record { said = sketch_says result; lows = lows.new; highs = highs.new; caps = caps.new }
        ≡ sketch_quote_of text.now level lows.old highs.old caps.old }
{
    let n = side as usize;
    let r = sizes::power_of(side);
    let k = level as usize;
    check_sketch(text, from, n, r, k, caps.len())?;
    text_cells::read_cells(text, from, n, true, 240, lows, highs);
    Ok(put_figures(side, r, k, &lows[..n * n], &highs[..n * n], caps))
}

// Sketch Quote (S 9.4): totals and caps of a sketch (S 6.3), or a refusal with nothing written.
pub fn sketch_quote(
    text: &[u8],
    level: u32,
    lows: &mut [u8],
    highs: &mut [u8],
    caps: &mut [u32],
) -> Result<SketchAnswer, Refusal>
    ensures { record { said = sketch_says result; lows = lows.new; highs = highs.new; caps = caps.new }
        ≡ sketch_quote_of text.now level lows.old highs.old caps.old }
{
    let line = text_cells::first_line(text, lows.len().min(highs.len()))?;
    quote_cells(text, line.next, line.side, level, lows, highs, caps)
}
