// One dot: the walk to the neediest cell, the dot there, the sums renewed, its number noted (`place_dot`; `place_at`
// without the walk). The pyramid lies by quarters; what becomes of it is said of the pyramid written row after row.
#![tactic(auto)]

ghost use Rattle.std.specs.Prelude.{◌≡◌, ◌+◌, length, set};
ghost use Rattle.definition.specs.Pyramid.{needed};
ghost use Rattle.definition.specs.Quarters.{rows_from};
ghost use Rattle.definition.specs.Diffusion.{kernel_of};
ghost use Rattle.definition.specs.Model.{place_dot, step};
ghost use Rattle.place_dot.specs.DotDue.{NoteAsked, PlaceAtAsked, DotAsked};

use descent::Cell;
use places::Table;

// Notes the next dot, at the cell with the number `at` (S 2.3), in serial sheet and order list (S 2.7).
fn note(serials: &mut [u32], order: &mut [u32], at: usize, dots: u32)
    requires { NoteAsked (length serials.old) (length order.old) at dots }
    ensures { (serials.new ≡ set serials.old at (dots + 1))
        × (order.new ≡ set order.old dots at) }
{
    serials[at] = dots + 1;
    order[dots as usize] = at as u32;
}

// Makes the next dot on cloth of a knit at a cell that owes something (S 3.4), on a sound sheet of just the needed
// lengths: step 2 of report 265, section 3.2. The dot is placed and its error spread, the quadtree renewed, and the dot
// noted, which sets the report's X to 1 at this cell. The table has the places.
// The sheet's three parts stay parameters: with a struct of `&mut` slices each contract says more, and no proof closed.
pub fn place_at(
    pyramid: &mut [i64],
    serials: &mut [u32],
    order: &mut [u32],
    table: &Table,
    knit: u32,
    r: usize,
    cell: Cell,
    dots: u32,
)
    requires place_at_asked { PlaceAtAsked r
        (record { pyramid = rows_from r pyramid.now; serials = serials.old; order = order.old; dots = dots })
        cell.row cell.column }
    requires pyramid_len { length pyramid.old ≡ needed r }
    ensures { record {
      pyramid = rows_from r pyramid.exit.now;
      serials = serials.new;
      order = order.new;
      dots = dots + 1;
    }
        ≡ place_dot (kernel_of knit) r
        (record {
          pyramid = rows_from r pyramid.entry.now;
          serials = serials.old;
          order = order.old;
          dots = dots;
        })
        (cell.row, cell.column) }
{
    let Cell { row, column } = cell;
    let side = sizes::pow2(r);
    let p = table.parts_around(side, row, column);
    let cells = sizes::level_start(r);
    let at = p.row + p.column;
    diffusion::place(&mut pyramid[cells..], table, p, knit, r, at, row, column);
    renewal::renew(pyramid, r, p, row, column);
    note(serials, order, row * side + column, dots);
}

// A step of the model (S 3.9): makes the next dot on cloth of a knit, on a sound sheet of just the needed lengths where
// one is due. It is one iteration of the report: step 1 from the top, then step 2. After an odd number of dots its
// serial is even, and the walk takes the last of equal entries (S 3.3). The table has the places.
pub fn place_dot(
    pyramid: &mut [i64],
    serials: &mut [u32],
    order: &mut [u32],
    table: &Table,
    knit: u32,
    r: usize,
    dots: u32,
)
    requires dot_asked { DotAsked r
        (record { pyramid = rows_from r pyramid.now; serials = serials.old; order = order.old; dots = dots }) }
    requires pyramid_len { length pyramid.old ≡ needed r }
    ensures { record {
      pyramid = rows_from r pyramid.exit.now;
      serials = serials.new;
      order = order.new;
      dots = dots + 1;
    }
        ≡ step (kernel_of knit) r
        (record {
          pyramid = rows_from r pyramid.entry.now;
          serials = serials.old;
          order = order.old;
          dots = dots;
        }) }
{
    let last = dots % 2 == 1;
    let cell = descent::descend(pyramid, r, 0, 0, 0, 0, last);
    place_at(pyramid, serials, order, table, knit, r, cell, dots);
}
