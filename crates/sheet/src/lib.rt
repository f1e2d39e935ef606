// The check of the calls that take a sheet: refusals 1, 11, 3, 4 and 5 (`check_sheet`; `check_lengths` and `sound_lent`
// are its halves).
#![tactic(auto)]

ghost use Rattle.std.specs.Prelude.{◌≡◌, true, ◌≤◌, length};
ghost use Rattle.definition.specs.Sound.{is_sound};
ghost use Rattle.definition.specs.Advance.{sheet_in, advance_refusal};
ghost use Rattle.definition.specs.Quarters.{as_rows};
ghost use Rattle.checks.specs.Checks.{checked};
ghost use Rattle.sheet.specs.Sheets.{SheetLent, shown_rows};

use definition::Refusal;
use places::Table;

// Refusals 1, 11, 3, 4 (S 5.2), from the side's power, the knit and the lengths lent.
pub fn check_lengths(
    r: usize,
    knit: u32,
    pyramid: usize,
    serials: usize,
    order: usize,
) -> Result<(), Refusal>
    requires { r ≤ 8 }
    ensures { checked result ≡ advance_refusal r knit pyramid serials order true }
{
    let cells = sizes::cell_count(r);
    let needed = sizes::needed(r);
    if r == 0 {
        return Err(Refusal::SideUnknown);
    }
    if 1 < knit {
        return Err(Refusal::KnitUnknown);
    }
    if pyramid < needed {
        return Err(Refusal::PyramidShort);
    }
    if serials < cells {
        return Err(Refusal::SheetShort);
    }
    if order < cells {
        return Err(Refusal::SheetShort);
    }
    Ok(())
}

// Whether the sheet that lies in these buffers is sound, its pyramid lying row after row or by quarters.
pub fn sound_lent(
    r: usize,
    dots: u32,
    rows: bool,
    table: &Table,
    pyramid: &[i64],
    serials: &[u32],
    order: &[u32],
) -> bool
    requires { (r ≤ 8) × SheetLent r (length pyramid.now) (length serials.now) (length order.now) }
    ensures { result
        ≡ is_sound r
        (sheet_in r dots (shown_rows rows r pyramid.now) serials.now order.now) }
{
    let needed = sizes::needed(r);
    let cells = sizes::cell_count(r);
    sound::is_sound(
        r,
        dots,
        rows,
        table,
        &pyramid[..needed],
        &serials[..cells],
        &order[..cells],
    )
}

// Refusals 1, 11, 3, 4, 5 (S 5.2): side, knit and the lengths lent, then whether the sheet is sound by quarters.
pub fn check_sheet(
    r: usize,
    dots: u32,
    knit: u32,
    table: &Table,
    pyramid: &[i64],
    serials: &[u32],
    order: &[u32],
) -> Result<(), Refusal>
    requires { r ≤ 8 }
    ensures { checked result
        ≡ advance_refusal r knit
        (length pyramid.now) (length serials.now) (length order.now)
        (is_sound r (sheet_in r dots (as_rows r pyramid.now) serials.now order.now)) }
{
    check_lengths(r, knit, pyramid.len(), serials.len(), order.len())?;
    if sound_lent(r, dots, false, table, pyramid, serials, order) {
        return Ok(());
    }
    Err(Refusal::SheetUnsound)
}
