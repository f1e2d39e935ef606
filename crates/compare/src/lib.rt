// Compare: how two plates of one side stand to each other (`compare`).
#![tactic(auto)]

ghost use Rattle.std.specs.Prelude.{◌≡◌, ◌≤◌};
ghost use Rattle.definition.specs.Answers.{compare_says};
ghost use Rattle.definition.specs.Shelf.{compare_refusal, compare_of};
ghost use Rattle.checks.specs.Checks.{checked};

use definition::{CompareAnswer, Refusal};

// Compare's refusals 1, 4 (S 5.2), for lengths lent.
#[tactic(auto, using(std::proofs::lemmas::Bool::Decides::nat_tests), // how the tests decide
unfolding(checks::specs::Checks::checked, definition::specs::Answers::number_of, // the number that a check says
definition::specs::Refusals::lowest, definition::specs::Shelf::compare_refusal))]
fn check_compare(r: usize, left: usize, right: usize) -> Result<(), Refusal>
    requires { r ≤ 8 }
    ensures { checked result ≡ compare_refusal r left right }
{
    if r == 0 {
        return Err(Refusal::SideUnknown);
    }
    let cells = sizes::cell_count(r);
    if left < cells {
        return Err(Refusal::SheetShort);
    }
    if right < cells {
        return Err(Refusal::SheetShort);
    }
    Ok(())
}

// Compare (S 11.1): before, same or after, with the first cell that differs where the counts agree.
pub fn compare(side: u32, left: &[u32], right: &[u32]) -> Result<CompareAnswer, Refusal>
    ensures { compare_says result ≡ compare_of side left.now right.now }
{
    let r = sizes::power_of(side);
    check_compare(r, left.len(), right.len())?;
    Ok(plate_order::compare_plates(left, right, r))
}
