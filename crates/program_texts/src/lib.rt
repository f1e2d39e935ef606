// What the programs print, as functions from bytes to bytes: `plate_text`, `quote_text` (docs/DECISIONS.md 69),
// `sample_text`, `convert_text` (docs/DECISIONS.md 71) and `sketch_text`.
#![tactic(auto)]

ghost use Rattle.std.specs.Prelude.{◌≡◌, List, ℕ, [], ◌∷◌, ◌+◌, ◌^◌, ◌<◌, ◌≤◌, length, take, MatchResult};
ghost use Rattle.definition.specs.Diffusion.{plain};
ghost use Rattle.definition.specs.Refusals.{power_of};
ghost use Rattle.definition.specs.DrillList.{drill_text};
ghost use Rattle.definition.specs.Sample.{sample_text};
ghost use Rattle.definition.specs.Plate.{finished_of, plate_of};
ghost use Rattle.definition.specs.Quote.{quote_of_map, quote_of_text, quote_of};
ghost use Rattle.definition.specs.Convert.{convert_of};
ghost use Rattle.definition.specs.QuotePage.{aligned_line};
ghost use Rattle.definition.specs.Sketch.{sketch_page, sketch_of_text, sketch_of};
ghost use Rattle.decimals.specs.Writing.{Wrote};
ghost use Rattle.decimals.specs.Printed.{Printed};
ghost use Rattle.program_texts.specs.Promised.{Answered};
ghost use Rattle.program_texts.specs.Finished.{finished_in, MapAsked};
ghost use Rattle.program_texts.specs.Sketching.{cap_columns, CapsWritten, SquaresLent};

use definition::{Progress, Refusal};

// A text of at most N bytes: so many of them as `length` says, from the first on.
#[derive(Drop)]
pub struct Text<const N: usize> {
    pub bytes: [u8; N],
    pub length: usize,
    ghost fits: { length ≤ N },
}

impl<const N: usize> Text<N> {
    // The bytes of the text.
    pub fn as_bytes(&self) -> &[u8]
        ensures { result.now ≡ take self.now.length self.now.bytes }
    {
        &self.bytes[..self.length]
    }
}

// A list of `plate` and `two_heads`: the longest of side 32 has 1,024 lines of at most 11 bytes, and a first line of at
// most 8.
pub const LIST_MOST: usize = 11300;

// A page of `quote`: the longest of side 32 has 1,024 lines of 29 bytes.
pub const PAGE_MOST: usize = 29696;

// The longest text of a map of side 32, and of side 256.
pub const SAMPLE_MOST: usize = 4099;

pub const MAP_MOST: usize = 262148;

// A page of `sketch`: it has a line with the totals, of two columns, and 1,024 lines of three; a column takes at most
// 21 bytes beside its width.
pub const SKETCH_MOST: usize = 75828;

// The programs are for plain cloth.
pub const PLAIN: u32 = 0;

// What is printed of an answer: the text that was written, or the line of the refusal.
pub fn put_answer(out: &mut [u8], answer: Result<usize, Refusal>) -> usize
    requires { 29 ≤ length out.old }
    ensures { (text before : List ℕ) → Answered text before answer out.old
        → Printed text before result out.new }
{
    match answer {
        Ok(length) => length,
        Err(why) => refusal_line::put_refused(out, checks::number_of(why)),
    }
}

// The map loaded, and all its holes made.
fn run_map(
    side: u32,
    greys: &[u8],
    pyramid: &mut [i64],
    serials: &mut [u32],
    order: &mut [u32],
) -> Result<Progress, Refusal>
    requires { MapAsked side greys.now (length pyramid.old) (length serials.old) (length order.old) }
    ensures { MatchResult result (λ progress. record {
      progress = progress;
      pyramid = pyramid.new;
      serials = serials.new;
      order = order.new;
    } ≡ finished_in (power_of side) greys.now
        pyramid.old serials.old order.old) (λ _. ⊥) }
{
    let start = load::load(side, PLAIN, greys, pyramid, serials, order)?;
    let end = advance::advance(start, u32::MAX, pyramid, serials, order)?;
    Ok(end.progress)
}

// The list of all holes of a map.
fn put_drill_list(side: u32, greys: &[u8], out: &mut [u8]) -> Result<usize, Refusal>
    requires { MapAsked side greys.now 1365 1024 1024 × (11300 ≤ length out.old) }
    ensures { Answered (drill_text (power_of side) (finished_of plain (power_of side) greys.now))
        out.old result out.new }
{
    let mut pyramid = [0i64; 1365];
    let mut serials = [0u32; 1024];
    let mut order = [0u32; 1024];
    let progress = run_map(side, greys, &mut pyramid, &mut serials, &mut order)?;
    drill_list::drill_list(progress, &pyramid, &serials, &order, out)
}

// What `plate` prints.
fn put_plate(input: &[u8], out: &mut [u8]) -> Result<usize, Refusal>
    requires { 11300 ≤ length out.old }
    ensures { Answered (plate_of input.now) out.old result out.new }
{
    if 4099 < input.len() {
        return Err(Refusal::InputLong);
    }
    let mut greys = [0u8; 1024];
    let side = map_text::map_text(input, &mut greys)?;
    put_drill_list(side, &greys, out)
}

// The quote page of a map with all its holes, or the refusal of the level.
fn put_quote_page(level: u32, side: u32, greys: &[u8], out: &mut [u8]) -> Result<usize, Refusal>
    requires { MapAsked side greys.now 1365 1024 1024 × (29696 ≤ length out.old) }
    ensures { Answered (quote_of_map level side greys.now) out.old result out.new }
{
    let mut pyramid = [0i64; 1365];
    let mut serials = [0u32; 1024];
    let mut order = [0u32; 1024];
    run_map(side, greys, &mut pyramid, &mut serials, &mut order)?;
    quote_page::quote_page(side, greys, &serials, level, out)
}

// What `quote` prints for a map text behind the level's line.
fn put_quote_of_text(level: u32, text: &[u8], out: &mut [u8]) -> Result<usize, Refusal>
    requires { 29696 ≤ length out.old }
    ensures { Answered (quote_of_text level text.now) out.old result out.new }
{
    let mut greys = [0u8; 1024];
    let side = map_text::map_text(text, &mut greys)?;
    put_quote_page(level, side, &greys, out)
}

// What `quote` prints.
fn put_quote(input: &[u8], out: &mut [u8]) -> Result<usize, Refusal>
    requires { 29696 ≤ length out.old }
    ensures { Answered (quote_of input.now) out.old result out.new }
{
    let level = decimals::read_number(input, 0, u32::MAX, b'\n').ok_or(Refusal::TextMalformed)?;
    let from = level.next.min(input.len());
    put_quote_of_text(level.value, &input[from..], out)
}

// What `sample` prints.
fn put_sample(out: &mut [u8]) -> usize
    requires { 4099 ≤ length out.old }
    ensures out_after { take result out.new ≡ sample_text }
    ensures upper_bound { result ≤ 4099 }
{
    let mut greys = [0u8; 1024];
    let _ = sample_map::sample(1, 32, &mut greys);
    lower::lower(&mut greys);
    map_text::put_map(out, 32, &greys)
}

// What `convert` prints.
fn put_converted(input: &[u8], out: &mut [u8]) -> Result<usize, Refusal>
    requires { 262148 ≤ length out.old }
    ensures { Answered (convert_of input.now) out.old result out.new }
{
    let mut greys = [0u8; 65536];
    map_text::lower_text(input, &mut greys, out)
}

// The line with the totals of a sketch.
fn put_totals(out: &mut [u8], least: u64, greatest: u64) -> usize
    ensures { Wrote out.old 0 (aligned_line ((5, least) ∷ (5, greatest) ∷ [])) result out.new
        × (result ≤ 52) }
{
    let second = decimals::put_column(out, 0, 5, least, b' ');
    decimals::put_column(out, second, 5, greatest, b'\n')
}

// The line of square i of a level that has `count` squares in a row.
fn put_cap(out: &mut [u8], at: usize, count: usize, i: usize, cap: u64) -> usize
    requires { (at ≤ 2 ^ 61) × (0 < count) }
    ensures { Wrote out.old at (aligned_line (cap_columns count i cap)) result out.new
        × (result ≤ at + 74) }
{
    let second = decimals::put_column(out, at, 3, (i / count) as u64, b' ');
    let third = decimals::put_column(out, second, 3, (i % count) as u64, b' ');
    decimals::put_column(out, third, 5, cap, b'\n')
}

// The lines of all squares of level k.
fn put_caps(out: &mut [u8], from: usize, k: usize, caps: &[u32]) -> usize
    requires { (from ≤ 2 ^ 60) × SquaresLent k (length caps.now) }
    ensures { CapsWritten out.old from k caps.now (length caps.now) result out.new }
{
    let count = sizes::pow2(k);
    let mut at = from;
    for (i, &cap) in caps.iter().enumerate() {
        at = put_cap(out, at, count, i, u64::from(cap));
    }
    at
}

// The page of a sketch's totals and caps.
fn put_sketch_page(out: &mut [u8], k: usize, least: u32, greatest: u32, caps: &[u32]) -> usize
    requires { (75828 ≤ length out.old) × SquaresLent k (length caps.now) }
    ensures { Printed (sketch_page k least greatest caps.now) out.old result out.new }
{
    let at = put_totals(out, u64::from(least), u64::from(greatest));
    put_caps(out, at, k, caps)
}

// What `sketch` prints for a sketch behind the level's line.
fn put_sketch_of_text(level: u32, text: &[u8], out: &mut [u8]) -> Result<usize, Refusal>
    requires { 75828 ≤ length out.old }
    ensures { Answered (sketch_of_text level text.now) out.old result out.new }
{
    let mut lows = [0u8; 1024];
    let mut highs = [0u8; 1024];
    let mut caps = [0u32; 1024];
    let figures = sketch_quote::sketch_quote(text, level, &mut lows, &mut highs, &mut caps)?;
    let k = level as usize;
    let squares = sizes::cell_count(k);
    Ok(put_sketch_page(out, k, figures.least, figures.greatest, &caps[..squares]))
}

// What `sketch` prints.
fn put_sketch(input: &[u8], out: &mut [u8]) -> Result<usize, Refusal>
    requires { 75828 ≤ length out.old }
    ensures { Answered (sketch_of input.now) out.old result out.new }
{
    let line = decimals::read_number(input, 0, u32::MAX, b'\n').ok_or(Refusal::TextMalformed)?;
    let from = line.next.min(input.len());
    put_sketch_of_text(line.value, &input[from..], out)
}

// What `plate` prints (S 14.1).
pub fn plate_text(input: &[u8]) -> Text<LIST_MOST>
    ensures { take result.length result.bytes ≡ plate_of input.now }
{
    let mut bytes = [0; LIST_MOST];
    let answer = put_plate(input, &mut bytes);
    let length = put_answer(&mut bytes, answer);
    Text { bytes, length }
}

// What `quote` prints (S 14.2).
pub fn quote_text(input: &[u8]) -> Text<PAGE_MOST>
    ensures { take result.length result.bytes ≡ quote_of input.now }
{
    let mut bytes = [0; PAGE_MOST];
    let answer = put_quote(input, &mut bytes);
    let length = put_answer(&mut bytes, answer);
    Text { bytes, length }
}

// What `sample` prints (S 14.3).
pub fn sample_text() -> Text<SAMPLE_MOST>
    ensures { take result.length result.bytes ≡ sample_text }
{
    let mut bytes = [0; SAMPLE_MOST];
    let length = put_sample(&mut bytes);
    Text { bytes, length }
}

// What `convert` prints (S 14.4).
pub fn convert_text(input: &[u8]) -> Text<MAP_MOST>
    ensures { take result.length result.bytes ≡ convert_of input.now }
{
    let mut bytes = [0; MAP_MOST];
    let answer = put_converted(input, &mut bytes);
    let length = put_answer(&mut bytes, answer);
    Text { bytes, length }
}

// What `sketch` prints (S 14.5).
pub fn sketch_text(input: &[u8]) -> Text<SKETCH_MOST>
    ensures { take result.length result.bytes ≡ sketch_of input.now }
{
    let mut bytes = [0; SKETCH_MOST];
    let answer = put_sketch(input, &mut bytes);
    let length = put_answer(&mut bytes, answer);
    Text { bytes, length }
}
