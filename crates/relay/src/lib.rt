// Relay (`relay`): the pyramid of an older sheet, which lies row after row, written by quarters into a second one.
#![tactic(auto)]

ghost use Rattle.std.specs.Prelude.{◌≡◌, ◌++◌, ◌≤◌, length, drop};
ghost use Rattle.definition.specs.Answers.{done_says};
ghost use Rattle.definition.specs.Pyramid.{needed, cell_count, in_level};
ghost use Rattle.definition.specs.Sound.{is_sound};
ghost use Rattle.definition.specs.Advance.{sheet_in};
ghost use Rattle.definition.specs.Quarters.{quarter_level, quarters_from};
ghost use Rattle.definition.specs.ByQuarters.{relay_refusal, relay_of};
ghost use Rattle.checks.specs.Checks.{checked};
ghost use Rattle.relay.specs.Laying.{LevelAsked, LevelsAsked};

use definition::{Progress, Refusal};
use places::Table;

// Refusals 1, 11, 3, 4, 5 (S 5.2). Refusal 3 is for either pyramid, so the shorter one counts; the sheet is to be sound
// row after row.
fn check_relay(
    r: usize,
    dots: u32,
    knit: u32,
    table: &Table,
    pyramid: &[i64],
    serials: &[u32],
    order: &[u32],
    second: usize,
) -> Result<(), Refusal>
    requires { r ≤ 8 }
    ensures { checked result
        ≡ relay_refusal r knit (length pyramid.now) second
        (length serials.now) (length order.now)
        (is_sound r (sheet_in r dots pyramid.now serials.now order.now)) }
{
    let lent = pyramid.len().min(second);
    sheet::check_lengths(r, knit, lent, serials.len(), order.len())?;
    if sheet::sound_lent(r, dots, true, table, pyramid, serials, order) {
        return Ok(());
    }
    Err(Refusal::SheetUnsound)
}

// Writes level k, with which `from` begins, by quarters into a level of its own.
fn lay_level(level: &mut [i64], table: &Table, from: &[i64], k: usize)
    requires { LevelAsked (length level.old) (length from.now) k }
    ensures { level.new ≡ quarter_level k (in_level k from.now) }
{
    let side = sizes::pow2(k);
    let count = sizes::cell_count(k);
    for i in 0..count {
        let at = table.place(i / side, i % side);
        level[at] = from[i];
    }
}

// Writes all levels of a pyramid of power r.
fn lay_levels(second: &mut [i64], table: &Table, pyramid: &[i64], r: usize)
    requires { LevelsAsked (length second.old) (length pyramid.now) r }
    ensures { second.new ≡ quarters_from r pyramid.now ++ drop (needed r) second.old }
{
    for k in 0..r + 1 {
        let from = sizes::level_start(k);
        let until = sizes::level_start(k + 1);
        lay_level(&mut second[from..until], table, &pyramid[from..], k);
    }
}

// Relay (S 12.2): the pyramid of an older sheet (S 2.6), written by quarters.
pub fn relay(
    progress: Progress,
    pyramid: &[i64],
    serials: &[u32],
    order: &[u32],
    second: &mut [i64],
) -> Result<(), Refusal>
    ensures { record { said = done_says result; second = second.new }
        ≡ relay_of progress
        pyramid.now serials.now order.now second.old }
{
    let table = Table::new();
    let r = sizes::power_of(progress.side);
    check_relay(
        r,
        progress.dots,
        progress.knit,
        &table,
        pyramid,
        serials,
        order,
        second.len(),
    )?;
    lay_levels(second, &table, pyramid, r);
    Ok(())
}
