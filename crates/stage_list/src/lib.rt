// The promise of names in code (`run_stages`): a map is loaded, and a list of Advance, Keep and Restore calls is made
// on it, each lent parts of the greys and the buffers. What is promised of such a list is promised of what this code
// leaves.
#![tactic(auto)]

ghost use Rattle.std.specs.Prelude.{◌≡◌, replicate};
ghost use Rattle.definition.specs.Answers.{done_says, record_after};
ghost use Rattle.definition.specs.Stages.{return_of, act, caller_after_all};
ghost use Rattle.stage_list.specs.Items.{return_in, action_in, actions_in, caller_of};
ghost use Rattle.stage_list.specs.PromiseOfCode.{Promised};

use call_list::{AdvanceCall, Lent};
use definition::{Checkpoints, Progress, Refusal};

// A Restore of the list: its name, and how many places it is lent of the greys and of each buffer.
#[derive(Clone, Copy)]
pub struct RestoreCall {
    pub name: u32,
    pub greys: usize,
    pub lent: Lent,
}

// A call of the list. A Keep has a name, and is lent nothing; an Advance is lent no greys.
#[derive(Clone, Copy)]
pub enum StageCall {
    Advance(AdvanceCall),
    Keep(u32),
    Restore(RestoreCall),
}

// What the calls so far have left beside the buffers, and the next call is given: the record and the value.
#[derive(Clone, Copy)]
pub struct Latest {
    pub progress: Progress,
    pub checkpoints: Checkpoints,
}

// The value to begin with: all names are empty (S 2.11).
fn no_names() -> Checkpoints
    ensures { result ≡ record { kept = replicate 8 0 } }
{
    let kept = [0; 8];
    Checkpoints { kept }
}

// A Restore, lent as much as the call says.
fn restore_lent(
    call: RestoreCall,
    latest: Latest,
    greys: &[u8],
    pyramid: &mut [i64],
    serials: &mut [u32],
    order: &mut [u32],
) -> Result<Progress, Refusal>
    ensures { record {
      progress = record_after latest.progress result;
      checkpoints = latest.checkpoints;
      said = done_says result;
      pyramid = pyramid.new;
      serials = serials.new;
      order = order.new;
    }
        ≡ return_of greys.now
        (caller_of latest pyramid.old serials.old order.old) (return_in call) }
{
    let g = call.greys.min(greys.len());
    let p = call.lent.pyramid.min(pyramid.len());
    let s = call.lent.serials.min(serials.len());
    let o = call.lent.order.min(order.len());
    checkpoints::restore(
        latest.progress,
        latest.checkpoints,
        call.name,
        &greys[..g],
        &mut pyramid[..p],
        &mut serials[..s],
        &mut order[..o],
    )
}

// One call of the list. What it answers goes on to the next one.
fn one_action(
    call: StageCall,
    latest: Latest,
    greys: &[u8],
    pyramid: &mut [i64],
    serials: &mut [u32],
    order: &mut [u32],
) -> Latest
    ensures { caller_of result pyramid.new serials.new order.new
        ≡ act greys.now
        (caller_of latest pyramid.old serials.old order.old) (action_in call) }
{
    let before = latest.progress;
    let checkpoints = latest.checkpoints;
    match call {
        StageCall::Advance(call) => {
            let after = call_list::one_call(before, call, pyramid, serials, order);
            Latest {
                progress: after,
                checkpoints,
            }
        }
        StageCall::Keep(name) => {
            let with = checkpoints::keep(before, checkpoints, name).unwrap_or(checkpoints);
            Latest {
                progress: before,
                checkpoints: with,
            }
        }
        StageCall::Restore(call) => {
            let restored = restore_lent(call, latest, greys, pyramid, serials, order);
            Latest {
                progress: restored.unwrap_or(before),
                checkpoints,
            }
        }
    }
}

// These calls, one after the other.
fn make_actions(
    first: Latest,
    greys: &[u8],
    pyramid: &mut [i64],
    serials: &mut [u32],
    order: &mut [u32],
    calls: &[StageCall],
) -> Latest
    ensures { caller_of result pyramid.new serials.new order.new
        ≡ caller_after_all greys.now
        (caller_of first pyramid.old serials.old order.old)
        (actions_in calls.now) }
{
    let mut latest = first;
    for &call in calls {
        latest = one_action(call, latest, greys, pyramid, serials, order);
    }
    latest
}

// Load, then these calls, on the greys and the buffers that Load was lent: the promise of names holds of what they
// leave (S 15.9).
pub fn run_stages(
    side: u32,
    knit: u32,
    greys: &[u8],
    pyramid: &mut [i64],
    serials: &mut [u32],
    order: &mut [u32],
    calls: &[StageCall],
) -> Latest
    ensures { Promised side knit
        greys.now pyramid.old serials.old order.old
        (actions_in calls.now)
        (caller_of result pyramid.new serials.new order.new) }
{
    let progress = call_list::record_of(load::load(side, knit, greys, pyramid, serials, order));
    let checkpoints = no_names();
    let first = Latest {
        progress,
        checkpoints,
    };
    make_actions(first, greys, pyramid, serials, order, calls)
}
