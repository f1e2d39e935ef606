// A run of dots: one after the other, while one is due and the budget lasts (`run`). The pyramid lies by quarters; what
// becomes of it is said of the pyramid written row after row.
#![tactic(auto)]

ghost use Rattle.std.specs.Prelude.{◌≡◌, ◌+◌, length};
ghost use Rattle.definition.specs.Pyramid.{needed};
ghost use Rattle.definition.specs.Quarters.{rows_from};
ghost use Rattle.dot_run.specs.Running.{RunAsked, Ran};

use places::Table;
use sizes::HALF_DOT;

// Makes the dots that are due (S 3.1) on cloth of a knit, as far as the budget lasts, on a sound sheet of just the
// needed lengths, and returns how many: the report's iterations, until its root asks for less than half a dot. The
// table has the places.
pub fn run(
    pyramid: &mut [i64],
    serials: &mut [u32],
    order: &mut [u32],
    table: &Table,
    knit: u32,
    r: usize,
    dots: u32,
    budget: u32,
) -> u32
    requires run_asked { RunAsked r
        (record { pyramid = rows_from r pyramid.now; serials = serials.old; order = order.old; dots = dots }) }
    requires pyramid_len { length pyramid.old ≡ needed r }
    ensures { Ran knit r
        (record {
          pyramid = rows_from r pyramid.entry.now;
          serials = serials.old;
          order = order.old;
          dots = dots;
        })
        budget result
        (record {
          pyramid = rows_from r pyramid.exit.now;
          serials = serials.new;
          order = order.new;
          dots = dots + result;
        }) }
{
    for made in 0..budget {
        let top = pyramid[0];
        if top < HALF_DOT {
            return made;
        }
        place_dot::place_dot(pyramid, serials, order, table, knit, r, dots + made);
    }
    budget
}
