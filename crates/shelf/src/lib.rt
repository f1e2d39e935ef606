// Shelf (`shelf`): the numbers of a shelf's plates in order. Each plate is put among those before it, at the place that
// a search by halves finds; no space beside the list is used.
#![tactic(auto)]

ghost use Rattle.std.specs.Prelude.{◌≡◌, ◌∷◌, ◌++◌, ◌+◌, ◌-◌, ◌≤◌, length, take, drop};
ghost use Rattle.definition.specs.Answers.{stands, done_says};
ghost use Rattle.definition.specs.Shelf.{compared, plate_at, is_before, in_order, shelf_refusal, shelf_of};
ghost use Rattle.checks.specs.Checks.{checked};
ghost use Rattle.shelf.specs.PlatesLent.{PairAsked, PlaceAsked, PlaceFor, PutAsked, SortAsked};

use definition::{CompareAnswer, Refusal};

// Whether an answer says before.
#[tactic(auto, unfolding(definition::specs::Answers::stands, definition::specs::Shelf::is_before))]
fn says_before(answer: CompareAnswer) -> bool
    ensures { result ≡ is_before (stands answer) }
{
    matches!(
        answer,
        CompareAnswer::Before | CompareAnswer::BeforeAt(_, _)
    )
}

// Whether plate x of a shelf comes before plate y.
fn plate_before(plates: &[u32], r: usize, x: usize, y: usize) -> bool
    requires { PairAsked (length plates.now) r x y }
    ensures { result ≡ is_before (compared r (plate_at r plates.now x) (plate_at r plates.now y)) }
{
    let cells = sizes::cell_count(r);
    let a = x * cells;
    let b = y * cells;
    says_before(plate_order::compare_plates(&plates[a..a + cells], &plates[b..b + cells], r))
}

// Where plate n is put among the first n, which the list has in order: behind all that it does not come before. A
// search by halves. The library's `partition_point` takes only a test that may be asked of every number, and
// `plate_before` may be asked of plates on the shelf alone.
fn find_place(plates: &[u32], list: &[u32], r: usize, n: usize) -> usize
    requires { PlaceAsked plates.now list.now r n }
    ensures { PlaceFor plates.now list.now r n result }
{
    let mut low = 0;
    let mut high = n;
    while low < high {
        let middle = low + (high - low) / 2;
        if plate_before(plates, r, n, list[middle] as usize) {
            high = middle;
        } else {
            low = middle + 1;
        }
    }
    low
}

// Puts x at place p; what stands from there to place n - 1 moves up by one.
fn put_at(list: &mut [u32], p: usize, n: usize, x: u32)
    requires { PutAsked (length list.old) p n }
    ensures { list.new ≡ take p list.old ++ x ∷ (take (n - p) (drop p list.old) ++ drop (n + 1) list.old) }
{
    list.copy_within(p..n, p + 1);
    list[p] = x;
}

// The numbers of the first n plates in order, in the first n places of the list.
fn sort(plates: &[u32], list: &mut [u32], r: usize, n: u32)
    requires { SortAsked (length plates.now) (length list.old) r n }
    ensures { list.new ≡ in_order r plates.now n ++ drop n list.old }
{
    for i in 0..n {
        let place = find_place(plates, list, r, i as usize);
        put_at(list, place, i as usize, i);
    }
}

// Shelf's refusals 1, 4, 8 (S 5.2), for n plates and lengths lent. The shelf's length is worked out in 64 bits.
#[tactic(auto, using(std::proofs::lemmas::Bool::Decides::nat_tests), // how the tests decide
unfolding(checks::specs::Checks::checked, definition::specs::Answers::number_of, // the number that a check says
definition::specs::Refusals::lowest, definition::specs::Shelf::shelf_refusal))]
fn check_shelf(r: usize, n: u32, plates: usize, list: usize) -> Result<(), Refusal>
    requires { r ≤ 8 }
    ensures { checked result ≡ shelf_refusal r n plates list }
{
    if r == 0 {
        return Err(Refusal::SideUnknown);
    }
    let count = n as usize;
    let places = count * sizes::cell_count(r);
    if plates < places {
        return Err(Refusal::SheetShort);
    }
    if list < count {
        return Err(Refusal::OutputShort);
    }
    Ok(())
}

// Shelf (S 11.2): the plate numbers 0 to n - 1 in order, equal plates as they stood; or a refusal with nothing written.
pub fn shelf(side: u32, n: u32, plates: &[u32], list: &mut [u32]) -> Result<(), Refusal>
    ensures { record { said = done_says result; list = list.new }
        ≡ shelf_of side n plates.now list.old }
{
    let r = sizes::power_of(side);
    check_shelf(r, n, plates.len(), list.len())?;
    sort(plates, list, r, n);
    Ok(())
}
