// The laser with two heads (`two_heads`): Load, then rounds of macroblocks until four in a row have made no hole. Of
// the engine it sees the contracts alone.
#![tactic(auto)]

ghost use Rattle.std.specs.Prelude.{◌≡◌, [], ◌∷◌};
ghost use Rattle.definition.specs.Answers.{returned, done_says, two_heads_answer};
ghost use Rattle.definition.specs.Refusals.{side_unknown, side_small, knit_unknown, lowest};
ghost use Rattle.heads.specs.TwoHeads.{two_heads_by_quarters};
ghost use Rattle.checks.specs.Checks.{checked};
ghost use Rattle.laser.specs.SheetLent.{SheetLent, ran_of};

use definition::{Progress, Refusal, TwoHeadsAnswer};
use places::Table;

// The checks up to the knit (S 5.2): 1, then 14 for a side that has no room for macroblocks, then 11. The others are
// Load's.
fn check_side(r: usize, side: u32, knit: u32) -> Result<(), Refusal>
    ensures { checked result ≡ lowest (side_unknown r ∷ side_small side ∷ knit_unknown knit ∷ []) }
{
    if r == 0 {
        return Err(Refusal::SideUnknown);
    }
    if side < 16 {
        return Err(Refusal::SideSmall);
    }
    if 1 < knit {
        return Err(Refusal::KnitUnknown);
    }
    Ok(())
}

// The run, on the sheet that Load has left.
fn run_sheet(
    side: u32,
    knit: u32,
    r: usize,
    pyramid: &mut [i64],
    serials: &mut [u32],
    order: &mut [u32],
) -> TwoHeadsAnswer
    requires { SheetLent r pyramid.old serials.old order.old }
    ensures { record {
      progress = result.progress;
      made = result.made;
      debt = result.debt;
      said = returned [];
      pyramid = pyramid.new;
      serials = serials.new;
      order = order.new;
    }
        ≡ ran_of side knit r pyramid.old serials.old order.old }
{
    let needed = sizes::needed(r);
    let cells = sizes::cell_count(r);
    let table = Table::new();
    let made = rounds::run(
        &mut pyramid[..needed],
        &mut serials[..cells],
        &mut order[..cells],
        &table,
        knit,
        r,
    );
    let dots = made;
    let progress = Progress { side, dots, knit };
    let debt = pyramid[0];
    TwoHeadsAnswer {
        progress,
        made,
        debt,
    }
}

// Two Heads (S 13.5): fills the buffers as Load does, and runs to the end. What is promised of it (S 15.15) is the law
// `heads_hold` of `head_order`.
pub fn two_heads(
    side: u32,
    knit: u32,
    greys: &[u8],
    pyramid: &mut [i64],
    serials: &mut [u32],
    order: &mut [u32],
) -> Result<TwoHeadsAnswer, Refusal>
    ensures { record {
      progress = (two_heads_answer result).progress;
      made = (two_heads_answer result).made;
      debt = (two_heads_answer result).debt;
      said = done_says result;
      pyramid = pyramid.new;
      serials = serials.new;
      order = order.new;
    }
        ≡ two_heads_by_quarters side knit
        greys.now pyramid.old serials.old order.old }
{
    let r = sizes::power_of(side);
    check_side(r, side, knit)?;
    load::load(side, knit, greys, pyramid, serials, order)?;
    Ok(run_sheet(side, knit, r, pyramid, serials, order))
}
