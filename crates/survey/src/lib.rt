// Tally, the dots of a block (`tally`); and Levels, for each level the summed squares of its blocks' errors (`levels`).
#![tactic(auto)]

ghost use Rattle.std.specs.Prelude.{◌≡◌, ◌+◌, ◌≤◌, min, length, leb, cond};
ghost use Rattle.definition.specs.Lists.{tabulate};
ghost use Rattle.definition.specs.Answers.{value_says, done_says, levels_sums};
ghost use Rattle.definition.specs.Survey.{error_at, squared, level_sum, tally_refusal, tally_of, levels_refusal};
ghost use Rattle.definition.specs.Survey.{levels_of};
ghost use Rattle.checks.specs.Checks.{checked};
ghost use Rattle.integers.specs.Totals.{TotalZ};
ghost use Rattle.blocks.specs.Blocks.{BlockAsked};
ghost use Rattle.survey.specs.BlockErrors.{
  LevelsAsked,
  AddAsked,
  JoinAsked,
  Room,
  WalkAsked,
  Joined,
  Walked,
  added,
};
ghost use Rattle.survey.specs.Errors.{cell_error};

use definition::Refusal;

// The error of a cell: its grey, less 255 if it has a dot (S 8.2).
fn cell_error(grey: u8, serial: u32) -> i64
    ensures { TotalZ (cell_error grey serial) 255 result }
{
    if serial == 0 {
        grey as i64
    } else {
        grey as i64 - 255
    }
}

// Adds the square of e to the sum of level k.
fn add_square(sums: &mut [u64; 9], k: usize, e: i64)
    requires { AddAsked sums.old k e }
    ensures { sums.new ≡ added sums.old k (squared e) }
{
    sums[k] += (e * e) as u64;
}

// The error of a block of level k, from the errors of its four quarters. Its square is added to the sum of the level.
fn join(sums: &mut [u64; 9], k: usize, p: i64, q: i64, s: i64, t: i64) -> i64
    requires { JoinAsked sums.old k p q s t }
    ensures { Joined sums.old k p q s t result sums.new }
{
    let e = p + q + s + t;
    add_square(sums, k, e);
    e
}

// The greys and the serials of a map of power r.
#[derive(Clone, Copy)]
struct Map<'a> {
    greys: &'a [u8],
    serials: &'a [u32],
    r: usize,
}

impl Map<'_> {
    // The error of the cell (a, b), a block of level r. Its square is added to the sum of the level.
    fn walk_cell(&self, a: usize, b: usize, sums: &mut [u64; 9]) -> i64
        requires block_asked { let m = self.now in
            BlockAsked (min (length m.greys.now) (length m.serials.now)) m.r m.r a b }
        requires room { Room self.now.r self.now.r sums.old }
        ensures { let m = self.now in
            Walked m.r (error_at m.r m.greys.now m.serials.now) m.r a b sums.old result sums.new }
    {
        let at = a * sizes::pow2(self.r) + b;
        let e = cell_error(self.greys[at], self.serials[at]);
        add_square(sums, self.r, e);
        e
    }

    // The error of the block (a, b) of level k, whose quarters are cells. Its square, and that of each of its cells, is
    // added to the sum of its level.
    fn walk_cells(&self, k: usize, a: usize, b: usize, sums: &mut [u64; 9]) -> i64
        requires { let m = self.now in
            WalkAsked (min (length m.greys.now) (length m.serials.now)) m.r k m.r a b sums.old }
        ensures { let m = self.now in
            Walked m.r (error_at m.r m.greys.now m.serials.now) k a b sums.old result sums.new }
    {
        let row = 2 * a;
        let column = 2 * b;
        let p = self.walk_cell(row, column, sums);
        let q = self.walk_cell(row, column + 1, sums);
        let s = self.walk_cell(row + 1, column, sums);
        let t = self.walk_cell(row + 1, column + 1, sums);
        join(sums, k, p, q, s, t)
    }

    // The error of the block (a, b) of level k, which is no cell. Its square, and that of each block within it, is
    // added to the sum of its level: so each cell is read once for all levels. The walk ends at blocks of four cells,
    // and not at cells, since that takes a quarter of the calls.
    fn walk(&self, k: usize, a: usize, b: usize, sums: &mut [u64; 9]) -> i64
        requires { let m = self.now in
            WalkAsked (min (length m.greys.now) (length m.serials.now)) m.r k (k + 1) a b sums.old }
        ensures { let m = self.now in
            Walked m.r (error_at m.r m.greys.now m.serials.now) k a b sums.old result sums.new }
    {
        let below = k + 1;
        if below == self.r {
            return self.walk_cells(k, a, b, sums);
        }
        let row = 2 * a;
        let column = 2 * b;
        let p = self.walk(below, row, column, sums);
        let q = self.walk(below, row, column + 1, sums);
        let s = self.walk(below, row + 1, column, sums);
        let t = self.walk(below, row + 1, column + 1, sums);
        join(sums, k, p, q, s, t)
    }
}

// The nine sums of Levels: level 0 first, those past r 0.
pub fn level_sums(greys: &[u8], serials: &[u32], r: usize) -> [u64; 9]
    requires { LevelsAsked (length greys.now) (length serials.now) r }
    ensures { result
        ≡ tabulate 9 (λ k. cond (leb k r) (level_sum r greys.now serials.now k) 0) }
{
    let mut out = [0u64; 9];
    let map = Map { greys, serials, r };
    map.walk(0, 0, 0, &mut out);
    out
}

// Tally's refusals 1, 4, 6 (S 5.2), for the aligned square (row, column) of level k.
#[tactic(auto, using(std::proofs::lemmas::Bool::Decides::nat_tests), // how the tests decide
unfolding(checks::specs::Checks::checked, definition::specs::Answers::number_of, // the number that a check says
definition::specs::Refusals::lowest, definition::specs::Survey::tally_refusal))]
fn check_tally(r: usize, serials: usize, k: usize, row: usize, column: usize) -> Result<(), Refusal>
    requires { r ≤ 8 }
    ensures { checked result ≡ tally_refusal r serials k row column }
{
    if r == 0 {
        return Err(Refusal::SideUnknown);
    }
    if serials < sizes::cell_count(r) {
        return Err(Refusal::SheetShort);
    }
    if r < k {
        return Err(Refusal::BlockUnknown);
    }
    let n = sizes::pow2(k);
    if row >= n {
        return Err(Refusal::BlockUnknown);
    }
    if column >= n {
        return Err(Refusal::BlockUnknown);
    }
    Ok(())
}

// Tally (S 8.1): the dots of an aligned square.
pub fn tally(side: u32, serials: &[u32], level: u32, row: u32, column: u32) -> Result<u32, Refusal>
    ensures { value_says result ≡ tally_of side serials.now level row column }
{
    let r = sizes::power_of(side);
    let k = level as usize;
    let a = row as usize;
    let b = column as usize;
    check_tally(r, serials.len(), k, a, b)?;
    Ok(blocks::block_dots(serials, r, k, a, b))
}

// Levels' refusals 1, 2, 4 (S 5.2).
#[tactic(auto, using(std::proofs::lemmas::Bool::Decides::nat_tests), // how the tests decide
unfolding(checks::specs::Checks::checked, definition::specs::Answers::number_of, // the number that a check says
definition::specs::Refusals::lowest, definition::specs::Survey::levels_refusal))]
fn check_levels(r: usize, greys: usize, serials: usize) -> Result<(), Refusal>
    requires { r ≤ 8 }
    ensures { checked result ≡ levels_refusal r greys serials }
{
    if r == 0 {
        return Err(Refusal::SideUnknown);
    }
    let cells = sizes::cell_count(r);
    if greys < cells {
        return Err(Refusal::GreysShort);
    }
    if serials < cells {
        return Err(Refusal::SheetShort);
    }
    Ok(())
}

// Levels (S 8.2): the summed squares of the errors of each level.
pub fn levels(side: u32, greys: &[u8], serials: &[u32]) -> Result<[u64; 9], Refusal>
    ensures { record {
      sums = levels_sums result;
      said = done_says result;
    }
        ≡ levels_of side greys.now serials.now }
{
    let r = sizes::power_of(side);
    check_levels(r, greys.len(), serials.len())?;
    Ok(level_sums(greys, serials, r))
}
