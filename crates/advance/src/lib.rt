// Advance: as many dots as are due, and at most the budget, spread by the knit of the record (`advance`).
#![tactic(auto)]

ghost use Rattle.std.specs.Prelude.{◌≡◌};
ghost use Rattle.definition.specs.Answers.{status_says};
ghost use Rattle.definition.specs.Advance.{said_at, advanced, reply_of};
ghost use Rattle.definition.specs.Quarters.{as_rows};
ghost use Rattle.definition.specs.ByQuarters.{advance_by_quarters};
ghost use Rattle.sheet.specs.Sheets.{SheetAsked};

use definition::{AdvanceAnswer, AdvanceStatus, Progress, Refusal};
use places::Table;
use sizes::HALF_DOT;

// What is said with this top: finished if it is below 32,640, else more (S 7.3).
fn ended(top: i64) -> AdvanceStatus
    ensures { status_says result ≡ said_at top }
{
    if top < HALF_DOT {
        AdvanceStatus::Finished
    } else {
        AdvanceStatus::More
    }
}

// Advance, on a sheet that is not refused (S 7.3); its pyramid lies by quarters, and is told of row after row.
fn advance_sheet(
    progress: Progress,
    r: usize,
    table: &Table,
    budget: u32,
    pyramid: &mut [i64],
    serials: &mut [u32],
    order: &mut [u32],
) -> AdvanceAnswer
    requires { SheetAsked r progress.dots pyramid.old serials.old order.old }
    ensures { record {
      reply = record { progress = result.progress; made = result.made; said = status_says result.status };
      pyramid = as_rows r pyramid.new;
      serials = serials.new;
      order = order.new;
    }
        ≡ advanced r progress budget
        (as_rows r pyramid.old) serials.old order.old }
{
    let Progress { side, dots, knit } = progress;
    let needed = sizes::needed(r);
    let cells = sizes::cell_count(r);
    let made = dot_run::run(
        &mut pyramid[..needed],
        &mut serials[..cells],
        &mut order[..cells],
        table,
        knit,
        r,
        dots,
        budget,
    );
    let dots = dots + made;
    AdvanceAnswer {
        progress: Progress { side, dots, knit },
        made,
        status: ended(pyramid[0]),
    }
}

// Advance (S 7.3, S 7.4), with its checks in order (S 5.2). It asks nothing of how the sheet came about (S 7.5).
pub fn advance(
    progress: Progress,
    budget: u32,
    pyramid: &mut [i64],
    serials: &mut [u32],
    order: &mut [u32],
) -> Result<AdvanceAnswer, Refusal>
    ensures { record {
      reply = reply_of progress result;
      pyramid = pyramid.new;
      serials = serials.new;
      order = order.new;
    }
        ≡ advance_by_quarters progress budget pyramid.old serials.old order.old }
{
    let table = Table::new();
    let r = sizes::power_of(progress.side);
    sheet::check_sheet(
        r,
        progress.dots,
        progress.knit,
        &table,
        pyramid,
        serials,
        order,
    )?;
    Ok(advance_sheet(progress, r, &table, budget, pyramid, serials, order))
}
