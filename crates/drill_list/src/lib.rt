// Drill List (`drill_list`): the number of dots and the side on one line, then a line for each dot with its serial, row
// and column.
#![tactic(auto)]

ghost use Rattle.std.specs.Prelude.{◌≡◌, [], ◌∷◌, ◌*◌, ◌/◌, ◌%◌, ◌^◌, ◌≤◌, length};
ghost use Rattle.definition.specs.Answers.{value_says};
ghost use Rattle.definition.specs.Text.{line};
ghost use Rattle.definition.specs.DrillList.{dot_lines};
ghost use Rattle.definition.specs.ByQuarters.{drill_list_by_quarters};
ghost use Rattle.decimals.specs.Writing.{Wrote};
ghost use Rattle.drill_list.specs.Listing.{list_text, listed_in};

use definition::{Progress, Refusal};
use places::Table;

// The first line.
fn put_head(out: &mut [u8], dots: u64, r: usize) -> usize
    requires { r ≤ 8 }
    ensures { Wrote out.old 0 (line (dots ∷ 2 ^ r ∷ [])) result out.new }
{
    let side = sizes::pow2(r) as u64;
    let at = decimals::put_field(out, 0, dots, b',');
    decimals::put_field(out, at, side, b'\n')
}

// The line of one dot.
fn put_dot(out: &mut [u8], at: usize, serial: u64, cell: u64, r: usize) -> usize
    requires { (at ≤ 2 ^ 61) × (r ≤ 8) }
    ensures { Wrote out.old at (line (serial ∷ cell / 2 ^ r ∷ cell % 2 ^ r ∷ [])) result out.new }
{
    let side = sizes::pow2(r) as u64;
    let row = decimals::put_field(out, at, serial, b',');
    let column = decimals::put_field(out, row, cell / side, b',');
    decimals::put_field(out, column, cell % side, b'\n')
}

// The lines of the dots in these cells, with serials from 1 on.
fn put_dots(out: &mut [u8], from: usize, cells: &[u32], r: usize) -> usize
    requires from_small { from ≤ 2 ^ 60 }
    requires r_small { r ≤ 8 }
    requires few { length cells.now ≤ 65536 }
    ensures { Wrote out.old from (dot_lines r 1 cells.now) result out.new }
{
    let mut at = from;
    for (j, &cell) in cells.iter().enumerate() {
        at = put_dot(out, at, (j + 1) as u64, u64::from(cell), r);
    }
    at
}

// The whole list, as far as the buffer has places; returns its length.
fn put_list(out: &mut [u8], cells: &[u32], r: usize) -> usize
    requires r_small { r ≤ 8 }
    requires few { length cells.now ≤ 65536 }
    ensures { Wrote out.old 0 (list_text r (length cells.now) cells.now) result out.new }
{
    let at = put_head(out, cells.len() as u64, r);
    put_dots(out, at, cells, r)
}

// How long the first line is.
fn head_length(dots: u64, r: usize) -> usize
    requires { r ≤ 8 }
    ensures { (result ≡ length (line (dots ∷ 2 ^ r ∷ []))) × (result ≤ 42) }
{
    let side = sizes::pow2(r) as u64;
    decimals::field_length(dots) + decimals::field_length(side)
}

// How long the line of one dot is.
fn dot_length(serial: u64, cell: u64, r: usize) -> usize
    requires { r ≤ 8 }
    ensures { (result ≡ length (line (serial ∷ cell / 2 ^ r ∷ cell % 2 ^ r ∷ []))) × (result ≤ 63) }
{
    let side = sizes::pow2(r) as u64;
    decimals::field_length(serial)
        + decimals::field_length(cell / side)
        + decimals::field_length(cell % side)
}

// How long the lines of the dots in these cells are.
fn dots_length(cells: &[u32], r: usize) -> usize
    requires r_small { r ≤ 8 }
    requires few { length cells.now ≤ 65536 }
    ensures { (result ≡ length (dot_lines r 1 cells.now)) × (result ≤ 63 * length cells.now) }
{
    let mut bytes = 0;
    for (j, &cell) in cells.iter().enumerate() {
        bytes += dot_length((j + 1) as u64, u64::from(cell), r);
    }
    bytes
}

// How long the whole list is, by counting digits: nothing is written.
#[tactic(auto, using(crate::specs::Listing::list_adds))]
fn list_length(cells: &[u32], r: usize) -> usize
    requires r_small { r ≤ 8 }
    requires few { length cells.now ≤ 65536 }
    ensures { result ≡ length (list_text r (length cells.now) cells.now) }
{
    head_length(cells.len() as u64, r) + dots_length(cells, r)
}

// Works out the list's length, then writes it where there is room.
fn write_list(out: &mut [u8], cells: &[u32], r: usize) -> Result<usize, Refusal>
    requires r_small { r ≤ 8 }
    requires few { length cells.now ≤ 65536 }
    ensures { record {
      said = value_says result;
      output = out.new;
    }
        ≡ listed_in (list_text r (length cells.now) cells.now) out.old }
{
    let length = list_length(cells, r);
    if out.len() < length {
        return Err(Refusal::OutputShort);
    }
    Ok(put_list(out, cells, r))
}

// Drill List (S 9.3), with its checks in order (S 5.2); the text from the output's first byte on (S 6.6).
pub fn drill_list(
    progress: Progress,
    pyramid: &[i64],
    serials: &[u32],
    order: &[u32],
    out: &mut [u8],
) -> Result<usize, Refusal>
    ensures { record { said = value_says result; output = out.new }
        ≡ drill_list_by_quarters progress
        pyramid.now serials.now order.now out.old }
{
    let dots = progress.dots;
    let r = sizes::power_of(progress.side);
    let table = Table::new();
    sheet::check_sheet(r, dots, progress.knit, &table, pyramid, serials, order)?;
    write_list(out, &order[..dots as usize], r)
}
