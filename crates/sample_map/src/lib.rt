// The sample: the greys of a map filled from a seed (`sample`).
#![tactic(auto)]

ghost use Rattle.std.specs.Prelude.{◌≡◌, length};
ghost use Rattle.definition.specs.Answers.{value_says};
ghost use Rattle.definition.specs.Sample.{next_state, grey_of, sample_greys, state_after, sample_of};

use definition::Refusal;

// The state that one step reaches (S 12.1).
#[tactic(auto, unfolding(definition::specs::Sample::next_state))]
fn next_state(state: u32) -> u32
    ensures { result ≡ next_state state }
{
    state.wrapping_mul(1664525).wrapping_add(1013904223)
}

// The grey of a state: its highest byte (S 12.1).
#[tactic(auto, unfolding(definition::specs::Sample::grey_of))]
fn grey_of(state: u32) -> u8
    ensures { result ≡ grey_of state }
{
    (state >> 24) as u8
}

// Fills greys from a seed on, and returns the state reached.
fn fill_greys(seed: u32, greys: &mut [u8]) -> u32
    ensures reached { result ≡ state_after (length greys.old) seed }
    ensures stored { greys.new ≡ sample_greys (length greys.old) seed }
{
    let mut state = seed;
    for grey in greys.iter_mut() {
        let next = next_state(state);
        *grey = grey_of(next);
        state = next;
    }
    state
}

// The sample (S 12.1), with its checks in order (S 5.2).
pub fn sample(seed: u32, side: u32, greys: &mut [u8]) -> Result<u32, Refusal>
    ensures { record {
      said = value_says result;
      greys = greys.new;
    }
        ≡ sample_of seed side greys.old }
{
    let r = sizes::power_of(side);
    checks::check_greys(r, greys.len())?;
    let cells = sizes::cell_count(r);
    let state = fill_greys(seed, &mut greys[..cells]);
    Ok(state)
}
