// Keep and Restore: counts of dots under eight names (`keep`), and the way back to one of them (`restore`).
#![tactic(auto)]

ghost use Rattle.std.specs.Prelude.{◌≡◌, [], ◌∷◌, ◌-◌, ◌≤◌, length};
ghost use Rattle.definition.specs.Answers.{done_says, kept_after, record_after};
ghost use Rattle.definition.specs.Blocks.{grey_total, total_of};
ghost use Rattle.definition.specs.Sound.{is_sound};
ghost use Rattle.definition.specs.Refusals.{sheet_unsound, grey_high, lowest};
ghost use Rattle.definition.specs.Load.{low_map};
ghost use Rattle.definition.specs.Advance.{sheet_in};
ghost use Rattle.definition.specs.Checkpoints.{kept_at, name_unknown, keep_refusal, keep_of};
ghost use Rattle.definition.specs.Checkpoints.{can_restore, restore_refusal};
ghost use Rattle.definition.specs.Quarters.{as_rows};
ghost use Rattle.definition.specs.ByQuarters.{restore_by_quarters};
ghost use Rattle.checks.specs.Checks.{checked};
ghost use Rattle.checkpoints.specs.Restoring.{CountAsked, AnewAsked, Restored};

use definition::{Checkpoints, Progress, Refusal};
use places::Table;

// Keep's refusals 1, then 10 (S 5.2).
fn check_keep(r: usize, name: u32) -> Result<(), Refusal>
    ensures { checked result ≡ keep_refusal r name }
{
    if r == 0 {
        return Err(Refusal::SideUnknown);
    }
    if !names::is_name(name) {
        return Err(Refusal::NameUnknown);
    }
    Ok(())
}

// Keep (S 10.1): the dots of the record are written down under a name. The record stays.
pub fn keep(progress: Progress, checkpoints: Checkpoints, name: u32) -> Result<Checkpoints, Refusal>
    ensures { record {
      progress = progress;
      checkpoints = kept_after checkpoints result;
      said = done_says result;
    }
        ≡ keep_of progress checkpoints name }
{
    check_keep(sizes::power_of(progress.side), name)?;
    let with = names::with_dots(checkpoints, name, progress.dots);
    Ok(with)
}

// Restore's last refusals: 5, then 12, then 10.
fn check_last(sound: bool, low: bool, known: bool) -> Result<(), Refusal>
    ensures { checked result ≡ lowest (sheet_unsound sound ∷ grey_high low ∷ name_unknown known ∷ []) }
{
    if !sound {
        return Err(Refusal::SheetUnsound);
    }
    if !low {
        return Err(Refusal::GreyHigh);
    }
    if !known {
        return Err(Refusal::NameUnknown);
    }
    Ok(())
}

// Restore's refusals (S 5.2): those of Load by what is lent, for which its greys count as low, then the last.
fn check_restore(
    r: usize,
    dots: u32,
    knit: u32,
    checkpoints: Checkpoints,
    name: u32,
    table: &Table,
    greys: &[u8],
    pyramid: &[i64],
    serials: &[u32],
    order: &[u32],
) -> Result<(), Refusal>
    requires { r ≤ 8 }
    ensures { checked result
        ≡ restore_refusal r knit
        (length greys.now) (length pyramid.now)
        (length serials.now) (length order.now)
        (is_sound r (sheet_in r dots (as_rows r pyramid.now) serials.now order.now))
        (low_map r greys.now)
        (can_restore checkpoints name (total_of (grey_total r greys.now))) }
{
    fresh_sheet::check_load(
        r,
        knit,
        greys.len(),
        pyramid.len(),
        serials.len(),
        order.len(),
        true,
    )?;
    let sound = sheet::sound_lent(r, dots, false, table, pyramid, serials, order);
    let low = fresh_sheet::low_map(r, greys);
    let total = quote_figures::total_dots(r, greys);
    let known = names::can_restore(checkpoints, name, total);
    check_last(sound, low, known)
}

// The dots kept under a name, which is not empty.
fn kept_dots(checkpoints: Checkpoints, name: u32) -> u32
    requires { CountAsked checkpoints name }
    ensures { result ≡ kept_at checkpoints name - 1 }
{
    (names::kept_at(checkpoints, name) - 1) as u32
}

// Makes the sheet anew from the greys, with so many dots.
fn restore_sheet(
    knit: u32,
    r: usize,
    dots: u32,
    table: &Table,
    greys: &[u8],
    pyramid: &mut [i64],
    serials: &mut [u32],
    order: &mut [u32],
)
    requires { AnewAsked r greys.now (length pyramid.old) (length serials.old) (length order.old) }
    ensures { Restored knit r dots
        greys.now pyramid.old serials.old order.old
        pyramid.new serials.new order.new }
{
    fresh_sheet::fill(r, table, greys, pyramid, serials, order);
    let needed = sizes::needed(r);
    let cells = sizes::cell_count(r);
    let _ = dot_run::run(
        &mut pyramid[..needed],
        &mut serials[..cells],
        &mut order[..cells],
        table,
        knit,
        r,
        0,
        dots,
    );
}

// Restore (S 10.2, S 10.3): the way back to the sheet of a name, and its record. The value stays.
pub fn restore(
    progress: Progress,
    checkpoints: Checkpoints,
    name: u32,
    greys: &[u8],
    pyramid: &mut [i64],
    serials: &mut [u32],
    order: &mut [u32],
) -> Result<Progress, Refusal>
    ensures { record {
      progress = record_after progress result;
      checkpoints = checkpoints;
      said = done_says result;
      pyramid = pyramid.new;
      serials = serials.new;
      order = order.new;
    }
        ≡ restore_by_quarters progress checkpoints name
        greys.now pyramid.old serials.old order.old }
{
    let table = Table::new();
    let r = sizes::power_of(progress.side);
    check_restore(
        r,
        progress.dots,
        progress.knit,
        checkpoints,
        name,
        &table,
        greys,
        pyramid,
        serials,
        order,
    )?;
    let side = progress.side;
    let dots = kept_dots(checkpoints, name);
    let knit = progress.knit;
    restore_sheet(knit, r, dots, &table, greys, pyramid, serials, order);
    Ok(Progress { side, dots, knit })
}
