// Greys that are too high for a map: the test for them (`none_high`), and the lowering of them (`lower`).
#![tactic(auto)]

ghost use Rattle.std.specs.Prelude.{◌≡◌, min};
ghost use Rattle.definition.specs.Lowering.{none_high, lowered};

// Whether no grey is above 240 (S 2.2).
pub fn none_high(greys: &[u8]) -> bool
    ensures { result ≡ none_high greys.now }
{
    greys.iter().all(|grey| *grey <= 240)
}

// A grey, or 240 if it is above that.
fn low(grey: u8) -> u8
    ensures { result ≡ min grey 240 }
{
    grey.min(240)
}

// Lowers each grey above 240 to 240 (S 12.4).
#[tactic(auto, using(crate::specs::Loops::one_lowered), unfolding(definition::specs::Lowering::lowered))]
pub fn lower(greys: &mut [u8])
    ensures { greys.new ≡ lowered greys.old }
{
    for grey in greys.iter_mut() {
        *grey = low(*grey);
    }
}
