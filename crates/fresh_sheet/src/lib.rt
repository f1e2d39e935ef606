// The sheet that a map starts with: the check of what is lent for it (`check_load`, `low_map`), and the filling of the
// three buffers (`fill`).
#![tactic(auto)]

ghost use Rattle.std.specs.Prelude.{◌≡◌, ◌++◌, ◌≤◌, length, drop, replicate};
ghost use Rattle.definition.specs.Load.{low_map, load_refusal};
ghost use Rattle.checks.specs.Checks.{checked};
ghost use Rattle.fresh_sheet.specs.Filling.{FillLent, Filled};

use definition::Refusal;
use places::Table;

// Whether no grey of the map is above 240 (S 2.2). What lies behind its cells is not looked at; where fewer greys are
// lent, those are.
#[tactic(auto, using(crate::specs::Rows::low_short))]
pub fn low_map(r: usize, greys: &[u8]) -> bool
    requires { r ≤ 8 }
    ensures { result ≡ low_map r greys.now }
{
    let cells = sizes::cell_count(r);
    if greys.len() < cells {
        return lower::none_high(greys);
    }
    lower::none_high(&greys[..cells])
}

// Load's refusals 1, 11, 2, 3, 4, 12 (S 5.2), from the side's power, the knit, the lengths lent, and whether the map's
// greys are low.
pub fn check_load(
    r: usize,
    knit: u32,
    greys: usize,
    pyramid: usize,
    serials: usize,
    order: usize,
    low: bool,
) -> Result<(), Refusal>
    requires { r ≤ 8 }
    ensures { checked result ≡ load_refusal r knit greys pyramid serials order low }
{
    let cells = sizes::cell_count(r);
    let needed = sizes::needed(r);
    if r == 0 {
        return Err(Refusal::SideUnknown);
    }
    if 1 < knit {
        return Err(Refusal::KnitUnknown);
    }
    if greys < cells {
        return Err(Refusal::GreysShort);
    }
    if pyramid < needed {
        return Err(Refusal::PyramidShort);
    }
    if serials < cells {
        return Err(Refusal::SheetShort);
    }
    if order < cells {
        return Err(Refusal::SheetShort);
    }
    if !low {
        return Err(Refusal::GreyHigh);
    }
    Ok(())
}

// Sets the first `count` places to 0.
fn clear(places: &mut [u32], count: usize)
    requires { count ≤ length places.old }
    ensures { places.new ≡ replicate count 0 ++ drop count places.old }
{
    places[..count].fill(0);
}

// Fills the three buffers with the model's start (S 3.9), the pyramid by quarters.
pub fn fill(
    r: usize,
    table: &Table,
    greys: &[u8],
    pyramid: &mut [i64],
    serials: &mut [u32],
    order: &mut [u32],
)
    requires { FillLent r (length greys.now) (length pyramid.old) (length serials.old) (length order.old) }
    ensures { Filled r greys.now pyramid.old serials.old order.old
        pyramid.new serials.new order.new }
{
    let needed = sizes::needed(r);
    pyramid::fill_pyramid(&mut pyramid[..needed], table, greys, r);
    let cells = sizes::cell_count(r);
    clear(serials, cells);
    clear(order, cells);
}
