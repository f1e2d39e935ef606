// Renewal: after a dot the coarser sums over its cell and each neighbour are made again, on every level up to the top
// (`renew`; by itself, on any lent pyramid, `renew_lent`). It is the second half of step 2 of report 265, section 3.2:
// the quadtree is brought in line with its cells again.
//
// The report goes up from each of the nine cells by itself, nine paths with an entry on each level. Here there are four
// paths, from the corners of the nine. They meet the same entries: of three rows side by side the middle one lies, on
// every coarser level, under the same row of entries as the one above it or the one below it, and columns likewise. So
// whatever entry is over one of the nine cells is over one of the corners. Where the four paths are one entry there is
// one path, and each level is made after the one below it, from entries that are right already.
//
// The pyramid lies by quarters: over the entry at place i of the whole pyramid is the one at (i - 1) / 4.
#![tactic(auto)]

ghost use Rattle.std.specs.Prelude.{◌≡◌, ◌<◌, length, set};
ghost use Rattle.std.specs.List.{list_all};
ghost use Rattle.definition.specs.Refusals.{power_of};
ghost use Rattle.definition.specs.Renewal.{is_near, renewed, is_small, renewable};
ghost use Rattle.definition.specs.Quarters.{rows_from};
ghost use Rattle.definition.specs.ByQuarters.{renewal_by_quarters};
ghost use Rattle.renewal.specs.OverPlaces.{at, below, over, four_made_up, four_renewed};
ghost use Rattle.renewal.specs.OverPlaces.{AtAsked, FourPlaces, CarryAsked, Rising, InLevel, Corners, RenewAsked};

use places::{Parts, Table};

// The place over place i.
fn over(i: usize) -> usize
    requires { 0 < i }
    ensures { result ≡ over i }
{
    (i - 1) / 4
}

// Four places of one level, by where they lie: north west, north east, south west, south east.
#[derive(Clone, Copy)]
struct Four {
    nw: usize,
    ne: usize,
    sw: usize,
    se: usize,
}

impl Four {
    // The places over these.
    fn up(self) -> Four
        requires { (0 < self.nw) × (0 < self.ne) × (0 < self.sw) × (0 < self.se) }
        ensures { result
            ≡ record { nw = over self.nw; ne = over self.ne; sw = over self.sw; se = over self.se } }
    {
        Four {
            nw: over(self.nw),
            ne: over(self.ne),
            sw: over(self.sw),
            se: over(self.se),
        }
    }
}

// The sum of the four entries below the one at place i.
fn four_below(pyramid: &[i64], i: usize) -> i64
    requires { AtAsked pyramid.now i }
    ensures { result ≡ below pyramid.now i }
{
    pyramid::sum_of_four(pyramid, 4 * i + 1, 2)
}

// The entry at a place. The place is always there. The test is for the compiled code, which without it reads two
// neighbours at once, and then waits where one of them has just been stored.
fn entry(pyramid: &[i64], i: usize) -> i64
    requires { i < length pyramid.now }
    ensures { result ≡ at pyramid.now i }
{
    pyramid.get(i).copied().unwrap_or(0)
}

// What `four_below` gives, where some of the four have just been stored: the four are read one by one.
fn four_apart(pyramid: &[i64], i: usize) -> i64
    requires { AtAsked pyramid.now i }
    ensures { result ≡ below pyramid.now i }
{
    let first = 4 * i + 1;
    let low = first + 2;
    let a = entry(pyramid, first);
    let b = entry(pyramid, first + 1);
    let c = entry(pyramid, low);
    let d = entry(pyramid, low + 1);
    a + b + c + d
}

// Renews the entries at four places of one level, of which some may be the same: each becomes the sum of the four below
// it, as the report's section 3.1 defines it. All are added up before one is stored, so that no sum waits for a store.
fn renew_four(pyramid: &mut [i64], at: Four)
    requires { FourPlaces pyramid.old at.nw at.ne at.sw at.se }
    ensures { pyramid.new ≡ four_renewed pyramid.old at.nw at.ne at.sw at.se }
{
    let nw = four_below(pyramid, at.nw);
    let ne = four_below(pyramid, at.ne);
    let sw = four_below(pyramid, at.sw);
    let se = four_below(pyramid, at.se);
    pyramid[at.nw] = nw;
    pyramid[at.ne] = ne;
    pyramid[at.sw] = sw;
    pyramid[at.se] = se;
}

// Stores an entry's new sum, and returns that of the entry over it: the sum of its four as they were, less what the
// entry was, and its new sum. So the levels' sums are read side by side, and only this one number goes from level to
// level.
fn carry(pyramid: &mut [i64], i: usize, sum: i64) -> i64
    requires { CarryAsked pyramid.old i sum }
    ensures { (pyramid.new ≡ set pyramid.old i sum)
        × (result ≡ below (set pyramid.old i sum) (over i)) }
{
    let four = four_below(pyramid, over(i));
    let old = pyramid[i];
    pyramid[i] = sum;
    four - old + sum
}

// Renews one entry of a level and every entry over it, up to the top: one path of the report.
fn carry_up(pyramid: &mut [i64], level: usize, place: usize)
    requires { Rising pyramid.old level × InLevel level place }
    ensures { pyramid.new ≡ four_made_up level place place place place pyramid.old }
{
    let mut i = place;
    let mut sum = four_apart(pyramid, i);
    for _up in 0..level {
        sum = carry(pyramid, i, sum);
        i = over(i);
    }
    pyramid[0] = sum;
}

// Renews four entries of a level, in two rows and two columns, and every entry over them, up to the top: four paths of
// the report, level by level, and one path from where they are one entry on.
fn renew_up(pyramid: &mut [i64], level: usize, places: Four)
    requires { Rising pyramid.old level × Corners level places.nw places.ne places.sw places.se }
    ensures { pyramid.new ≡ four_made_up level places.nw places.ne places.sw places.se pyramid.old }
{
    let mut k = level;
    let mut at = places;
    while at.nw != at.se {
        renew_four(pyramid, at);
        at = at.up();
        k -= 1;
    }
    carry_up(pyramid, k, at.nw);
}

// Renews the coarser sums over a cell and its neighbours (S 3.8), in a pyramid of just the needed length. The parts are
// those of the places around the cell; only the contract has a use for its row and column.
pub fn renew(pyramid: &mut [i64], r: usize, p: Parts, row: usize, column: usize)
    requires { RenewAsked pyramid.old r p row column }
    ensures { rows_from r pyramid.new ≡ renewed r (is_near row column) (rows_from r pyramid.old) }
{
    let cells = sizes::level_start(r);
    let corners = Four {
        nw: cells + p.above + p.left,
        ne: cells + p.above + p.right,
        sw: cells + p.below + p.left,
        se: cells + p.below + p.right,
    };
    renew_up(pyramid, r - 1, corners.up());
}

// -2^40 and 2^40: a pyramid may be lent with entries from the one to the other.
const LEAST: i64 = -1099511627776;

const MOST: i64 = 1099511627776;

// Whether an entry is from -2^40 to 2^40.
fn is_small(entry: i64) -> bool
    ensures { result ≡ is_small entry }
{
    LEAST <= entry && entry <= MOST
}

// Whether all of these entries are.
fn all_small(entries: &[i64]) -> bool
    ensures { result ≡ list_all is_small entries.now }
{
    entries.iter().all(|entry| is_small(*entry))
}

// Whether the renewal can be made around this cell (S 12.3), r being the side's power.
fn is_renewable(side: u32, r: usize, row: u32, column: u32, pyramid: &[i64]) -> bool
    requires { r ≡ power_of side }
    ensures { result ≡ renewable side row column pyramid.now }
{
    let needed = sizes::needed(r);
    if r == 0 || pyramid.len() < needed || side <= row || side <= column {
        return false;
    }
    all_small(&pyramid[..needed])
}

// The renewal by itself (S 12.3), for any numbers and any pyramid: whether it was made.
pub fn renew_lent(side: u32, row: u32, column: u32, pyramid: &mut [i64]) -> bool
    ensures { (result, pyramid.new) ≡ renewal_by_quarters side row column pyramid.old }
{
    let r = sizes::power_of(side);
    if !is_renewable(side, r, row, column, pyramid) {
        return false;
    }
    let needed = sizes::needed(r);
    let x = row as usize;
    let y = column as usize;
    let p = Table::new().parts_around(sizes::pow2(r), x, y);
    renew(&mut pyramid[..needed], r, p, x, y);
    true
}
