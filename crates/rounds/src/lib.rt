// Rounds of the laser with two heads: the macroblocks of a round, and rounds until four in a row have made no hole
// (`run`). The pyramid lies by quarters; what becomes of it is said of the pyramid written row after row.
#![tactic(auto)]

ghost use Rattle.std.specs.Prelude.{◌≡◌, cond, suc, ◌<◌, eqb, length};
ghost use Rattle.definition.specs.Pyramid.{needed};
ghost use Rattle.definition.specs.Quarters.{rows_from};
ghost use Rattle.definition.specs.Diffusion.{kernel_of};
ghost use Rattle.heads.specs.TwoHeads.{across, work_all, macroblocks, rounds, most_rounds};
ghost use Rattle.macroblock.specs.FourBlocks.{LargeSheet};
ghost use Rattle.rounds.specs.Offsets.{AcrossAsked};

use places::Table;

// How many macroblocks lie side by side on a map of power r, from an offset of 0 or 1 blocks on (S 13.1).
fn across(r: usize, offset: usize) -> usize
    requires { AcrossAsked r offset }
    ensures { result ≡ across r offset }
{
    (sizes::pow2(r - 2) - offset) / 2
}

// Works the macroblocks of round t (S 13.1), by row then column, and returns the dots made by then.
fn round(
    pyramid: &mut [i64],
    serials: &mut [u32],
    order: &mut [u32],
    table: &Table,
    knit: u32,
    r: usize,
    t: usize,
    dots: u32,
) -> u32
    requires large_sheet { LargeSheet r
        (record { pyramid = rows_from r pyramid.now; serials = serials.old; order = order.old; dots = dots }) }
    requires pyramid_len { length pyramid.old ≡ needed r }
    ensures { record {
      pyramid = rows_from r pyramid.exit.now;
      serials = serials.new;
      order = order.new;
      dots = result;
    }
        ≡ work_all (kernel_of knit) r
        (record {
          pyramid = rows_from r pyramid.entry.now;
          serials = serials.old;
          order = order.old;
          dots = dots;
        })
        (macroblocks r t) }
{
    let row = t % 4 / 2;
    let column = t % 2;
    let rows = across(r, row);
    let columns = across(r, column);
    let count = rows * columns;
    let mut after = dots;
    for i in 0..count {
        let a = row + 2 * (i / columns);
        let b = column + 2 * (i % columns);
        after = macroblock::work(pyramid, serials, order, table, knit, r, a, b, after);
    }
    after
}

// The rounds in a row without a hole, after one more round.
fn idle_after(idle: usize, before: u32, after: u32) -> usize
    requires { idle < 4 }
    ensures { result ≡ cond (eqb after before) (suc idle) 0 }
{
    if after == before { idle + 1 } else { 0 }
}

// Makes rounds on a sheet without dots, until four in a row have made none (S 13.4), and returns the dots made.
// It is `idle` that ends the loop, and not the number t of rounds, so it is no `for`.
pub fn run(
    pyramid: &mut [i64],
    serials: &mut [u32],
    order: &mut [u32],
    table: &Table,
    knit: u32,
    r: usize,
) -> u32
    requires large_sheet { LargeSheet r
        (record { pyramid = rows_from r pyramid.now; serials = serials.old; order = order.old; dots = 0 }) }
    requires pyramid_len { length pyramid.old ≡ needed r }
    ensures { record {
      pyramid = rows_from r pyramid.exit.now;
      serials = serials.new;
      order = order.new;
      dots = result;
    }
        ≡ rounds (kernel_of knit) r (macroblocks r) (most_rounds r) 0 0
        (record {
          pyramid = rows_from r pyramid.entry.now;
          serials = serials.old;
          order = order.old;
          dots = 0;
        }) }
{
    let mut dots = 0;
    let mut idle = 0;
    let mut t = 0;
    while idle < 4 {
        let after = round(pyramid, serials, order, table, knit, r, t, dots);
        idle = idle_after(idle, dots, after);
        dots = after;
        t += 1;
    }
    dots
}
