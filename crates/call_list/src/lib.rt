// The price list in code (`run_calls`): a map is loaded for a knit, and a list of Advance calls is made on it, each
// lent parts of the buffers (`one_call`).
#![tactic(auto)]

ghost use Rattle.std.specs.Prelude.{◌≡◌};
ghost use Rattle.definition.specs.Answers.{load_record};
ghost use Rattle.definition.specs.AdvanceList.{call_of, held_after, held_after_calls};
ghost use Rattle.call_list.specs.PriceListOfCode.{call_in, calls_in, Kept};

use definition::{Progress, Refusal};

// How many places a call is lent of each buffer: so many, or all of a shorter one.
#[derive(Clone, Copy)]
pub struct Lent {
    pub pyramid: usize,
    pub serials: usize,
    pub order: usize,
}

// An Advance of the list: its budget, and what it is lent.
#[derive(Clone, Copy)]
pub struct AdvanceCall {
    pub budget: u32,
    pub lent: Lent,
}

// The record of a Load that refuses.
const NO_RECORD: Progress = Progress {
    side: 0,
    dots: 0,
    knit: 0,
};

// The record after Load.
pub fn record_of(loaded: Result<Progress, Refusal>) -> Progress
    ensures { result ≡ load_record loaded }
{
    loaded.unwrap_or(NO_RECORD)
}

// One call, lent the first places of the buffers.
pub fn one_call(
    progress: Progress,
    call: AdvanceCall,
    pyramid: &mut [i64],
    serials: &mut [u32],
    order: &mut [u32],
) -> Progress
    ensures { record {
      progress = result;
      pyramid = pyramid.new;
      serials = serials.new;
      order = order.new;
    }
        ≡ held_after
        (call_of
        (record {
          progress = progress;
          pyramid = pyramid.old;
          serials = serials.old;
          order = order.old;
        })
        (call_in call)) }
{
    let p = call.lent.pyramid.min(pyramid.len());
    let s = call.lent.serials.min(serials.len());
    let o = call.lent.order.min(order.len());
    match advance::advance(
        progress,
        call.budget,
        &mut pyramid[..p],
        &mut serials[..s],
        &mut order[..o],
    ) {
        Ok(answer) => answer.progress,
        Err(_) => progress,
    }
}

// These calls, one after the other.
fn make_calls(
    first: Progress,
    pyramid: &mut [i64],
    serials: &mut [u32],
    order: &mut [u32],
    calls: &[AdvanceCall],
) -> Progress
    ensures { record {
      progress = result;
      pyramid = pyramid.new;
      serials = serials.new;
      order = order.new;
    }
        ≡ held_after_calls
        (record {
          progress = first;
          pyramid = pyramid.old;
          serials = serials.old;
          order = order.old;
        })
        (calls_in calls.now) }
{
    let mut progress = first;
    for &call in calls {
        progress = one_call(progress, call, pyramid, serials, order);
    }
    progress
}

// Load, then these calls: answers and buffers are the model's (S 15.2), and the price list holds of them (S 15.3,
// S 15.4, S 15.5, S 15.6, S 15.7).
pub fn run_calls(
    side: u32,
    knit: u32,
    greys: &[u8],
    pyramid: &mut [i64],
    serials: &mut [u32],
    order: &mut [u32],
    calls: &[AdvanceCall],
) -> Progress
    ensures { Kept side knit
        greys.now pyramid.old serials.old order.old
        (calls_in calls.now)
        (record {
          progress = result;
          pyramid = pyramid.new;
          serials = serials.new;
          order = order.new;
        }) }
{
    let first = record_of(load::load(side, knit, greys, pyramid, serials, order));
    make_calls(first, pyramid, serials, order, calls)
}
