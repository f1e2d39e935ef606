// The number of a refusal (`number_of`), and the check of a greys buffer (`check_greys`). A call checks before anything
// is read or written: a check answers `Ok`, or the first of its refusals that applies.
#![tactic(auto)]

ghost use Rattle.std.specs.Prelude.{◌≡◌, ◌≤◌};
ghost use Rattle.definition.specs.Answers.{number_of};
ghost use Rattle.definition.specs.Refusals.{greys_refusal};
ghost use Rattle.checks.specs.Checks.{checked};

use definition::Refusal;

// The number of a refusal (S 5.1).
#[tactic(auto, unfolding(definition::specs::Answers::number_of))]
pub fn number_of(why: Refusal) -> u32
    ensures { result ≡ number_of why }
{
    why as u32
}

// Refusals 1 and 2, in this order (S 5.2), from the side's power and the places of the greys buffer.
pub fn check_greys(r: usize, lent: usize) -> Result<(), Refusal>
    requires { r ≤ 8 }
    ensures { checked result ≡ greys_refusal r lent }
{
    let cells = sizes::cell_count(r);
    if r == 0 {
        return Err(Refusal::SideUnknown);
    }
    if lent < cells {
        return Err(Refusal::GreysShort);
    }
    Ok(())
}
