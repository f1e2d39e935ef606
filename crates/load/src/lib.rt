// Load (`load`): the pyramid summed from the greys, by quarters, the two other buffers cleared, and the record (side,
// 0, knit).
#![tactic(auto)]

ghost use Rattle.std.specs.Prelude.{◌≡◌};
ghost use Rattle.definition.specs.Answers.{load_record, done_says};
ghost use Rattle.definition.specs.ByQuarters.{load_by_quarters};

use definition::{Progress, Refusal};
use places::Table;

// Load (S 7.1, S 7.2), with its checks in order (S 5.2) and the record (S 2.8).
pub fn load(
    side: u32,
    knit: u32,
    greys: &[u8],
    pyramid: &mut [i64],
    serials: &mut [u32],
    order: &mut [u32],
) -> Result<Progress, Refusal>
    ensures { record {
      progress = load_record result;
      said = done_says result;
      pyramid = pyramid.new;
      serials = serials.new;
      order = order.new;
    }
        ≡ load_by_quarters side knit
        greys.now pyramid.old serials.old order.old }
{
    let r = sizes::power_of(side);
    fresh_sheet::check_load(
        r,
        knit,
        greys.len(),
        pyramid.len(),
        serials.len(),
        order.len(),
        fresh_sheet::low_map(r, greys),
    )?;
    fresh_sheet::fill(r, &Table::new(), greys, pyramid, serials, order);
    let dots = 0;
    Ok(Progress { side, dots, knit })
}
