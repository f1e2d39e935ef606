// The calls for programs in C and Rust, from `rulmedei_load` to `rulmedei_renew`: numbers and slices only (S 16.1).
// Each answers and leaves what its contract says (S 15.1), comes to an end, reads and writes only what it is lent, and
// never overflows (S 15.16): the contracts here and below show it.
//
// Each returns a code: 0 where the call did its work, 100 where Advance says more, 102 to 106 for what Compare says, or
// else the number of the refusal (S 5.1). The renewal by itself returns 0 or 101; the lowering of greys by itself
// returns nothing. A slice is a pointer and a length. What a caller in C must ensure (S 16.2) stands at the top of
// include/rulmedei.h; the safe functions of the Rust crate (S 16.3) call these, and see to it.
#![tactic(auto)]

ghost use Rattle.std.specs.Prelude.{◌≡◌, set};
ghost use Rattle.std.proofs.lemmas.List.Edits.{sets};
ghost use Rattle.definition.specs.Answers.{value_says};
ghost use Rattle.definition.specs.Lowering.{lowered};
ghost use Rattle.definition.specs.MapText.{map_text_of};
ghost use Rattle.definition.specs.LowerText.{lower_text_of};
ghost use Rattle.definition.specs.QuotePage.{quote_page_of};
ghost use Rattle.definition.specs.SketchQuote.{sketch_quote_of};
ghost use Rattle.definition.specs.ByQuarters.{drill_list_by_quarters, renewal_by_quarters, relay_of};
ghost use Rattle.definition.specs.Sample.{sample_of};
ghost use Rattle.definition.specs.Shelf.{compare_of, shelf_of};
ghost use Rattle.rulmedei.specs.FromCalls.{code_with};
ghost use Rattle.rulmedei.specs.Codes.{code_of, value_of, load_code, advance_code, tally_code, levels_code};
ghost use Rattle.rulmedei.specs.Codes.{keep_code, restore_code};
ghost use Rattle.rulmedei.specs.Codes.{lower_text_code, sketch_code, two_heads_code};
ghost use Rattle.rulmedei.specs.Codes.{greys_code, text_code, compare_code, shelf_code, relay_code, renew_code};

use definition::{
    AdvanceStatus, Checkpoints, CompareAnswer, Progress, Refusal, SketchAnswer, TwoHeadsAnswer,
};

// The record of a call that has none to give.
const NO_RECORD: Progress = Progress {
    side: 0,
    dots: 0,
    knit: 0,
};

// The code of a call: `done` where it did its work, or the number of the refusal.
fn code<T: Drop>(answer: Result<T, Refusal>, done: u32) -> u32
    ensures { result ≡ code_with done answer }
{
    match answer {
        Ok(_) => done,
        Err(refusal) => checks::number_of(refusal),
    }
}

// Load for C (S 16.1, S 7.1, S 7.2). The record is written to `progress_side`, `progress_dots` and `progress_knit`.
#[unsafe(no_mangle)]
pub extern "C" fn rulmedei_load(
    side: u32,
    knit: u32,
    greys: &[u8],
    pyramid: &mut [i64],
    serials: &mut [u32],
    order: &mut [u32],
    progress_side: &mut u32,
    progress_dots: &mut u32,
    progress_knit: &mut u32,
) -> u32
    ensures { record {
      code = result;
      side = progress_side.new;
      dots = progress_dots.new;
      knit = progress_knit.new;
      pyramid = pyramid.new;
      serials = serials.new;
      order = order.new;
    }
        ≡ load_code side knit
        greys.now pyramid.old serials.old order.old }
{
    let loaded = load::load(side, knit, greys, pyramid, serials, order);
    let progress = loaded.unwrap_or(NO_RECORD);
    *progress_side = progress.side;
    *progress_dots = progress.dots;
    *progress_knit = progress.knit;
    code(loaded, 0)
}

// Advance for C (S 16.1, S 7.3, S 7.4), with the record (side, dots, knit). The holes afterwards are written to
// `after`, those made in this call to `made`.
#[unsafe(no_mangle)]
pub extern "C" fn rulmedei_advance(
    side: u32,
    dots: u32,
    knit: u32,
    budget: u32,
    pyramid: &mut [i64],
    serials: &mut [u32],
    order: &mut [u32],
    after: &mut u32,
    made: &mut u32,
) -> u32
    ensures { record {
      code = result;
      dots = after.new;
      made = made.new;
      pyramid = pyramid.new;
      serials = serials.new;
      order = order.new;
    }
        ≡ advance_code side dots knit budget
        pyramid.old serials.old order.old }
{
    let record = Progress { side, dots, knit };
    match advance::advance(record, budget, pyramid, serials, order) {
        Ok(answer) => {
            *after = answer.progress.dots;
            *made = answer.made;
            match answer.status {
                AdvanceStatus::Finished => 0,
                AdvanceStatus::More => 100,
            }
        }
        Err(why) => {
            *after = dots;
            *made = 0;
            checks::number_of(why)
        }
    }
}

// Keep for C (S 16.1, S 10.1), with the record (side, dots, knit). The value is changed in place, and stays where it
// refuses.
#[unsafe(no_mangle)]
pub extern "C" fn rulmedei_keep(
    side: u32,
    dots: u32,
    knit: u32,
    kept: &mut [u64; 8],
    name: u32,
) -> u32
    ensures { record { code = result; kept = kept.new } ≡ keep_code side dots knit kept.old name }
{
    let given = Progress { side, dots, knit };
    let value = Checkpoints { kept: *kept };
    let kept_or_not = checkpoints::keep(given, value, name);
    let with = kept_or_not.unwrap_or(value);
    let after = with.kept;
    *kept = after;
    code(kept_or_not, 0)
}

// Restore for C (S 16.1, S 10.2, S 10.3), with the record (side, dots, knit). The holes afterwards are written to
// `after`.
#[unsafe(no_mangle)]
pub extern "C" fn rulmedei_restore(
    side: u32,
    dots: u32,
    knit: u32,
    kept: &[u64; 8],
    name: u32,
    greys: &[u8],
    pyramid: &mut [i64],
    serials: &mut [u32],
    order: &mut [u32],
    after: &mut u32,
) -> u32
    ensures { record {
      code = result;
      dots = after.new;
      pyramid = pyramid.new;
      serials = serials.new;
      order = order.new;
    }
        ≡ restore_code side dots knit kept.now name
        greys.now pyramid.old serials.old order.old }
{
    let before = Progress { side, dots, knit };
    let restored = checkpoints::restore(
        before,
        Checkpoints { kept: *kept },
        name,
        greys,
        pyramid,
        serials,
        order,
    );
    let progress = restored.unwrap_or(before);
    *after = progress.dots;
    code(restored, 0)
}

// Tally for C (S 16.1, S 8.1). The holes of the square are written to `dots`, 0 where it refuses.
#[unsafe(no_mangle)]
pub extern "C" fn rulmedei_tally(
    side: u32,
    serials: &[u32],
    level: u32,
    row: u32,
    column: u32,
    dots: &mut u32,
) -> u32
    ensures { record {
      code = result;
      value = dots.new;
    }
        ≡ tally_code side serials.now level row column }
{
    let counted = survey::tally(side, serials, level, row, column);
    *dots = counted.unwrap_or(0);
    code(counted, 0)
}

// Stores nine sums in the first places, as far as there are places.
fn put_sums(nine: [u64; 9], sums: &mut [u64])
    ensures { sums.new ≡ sets sums.old 0 nine }
{
    let count = sums.len().min(9);
    sums[..count].copy_from_slice(&nine[..count]);
}

// Levels for C (S 16.1, S 8.2). The nine sums are written to the first places of `sums`, as far as there are places;
// nine zeros where it refuses.
#[unsafe(no_mangle)]
pub extern "C" fn rulmedei_levels(side: u32, greys: &[u8], serials: &[u32], sums: &mut [u64]) -> u32
    ensures { record {
      code = result;
      sums = sums.new;
    }
        ≡ levels_code side greys.now serials.now sums.old }
{
    let summed = survey::levels(side, greys, serials);
    put_sums(summed.unwrap_or([0; 9]), sums);
    code(summed, 0)
}

// Map Text for C (S 16.1, S 9.1). The side is written to `side`, 0 where it refuses.
#[unsafe(no_mangle)]
pub extern "C" fn rulmedei_map_text(text: &[u8], greys: &mut [u8], side: &mut u32) -> u32
    ensures { record {
      code = result;
      value = side.new;
      greys = greys.new;
    }
        ≡ greys_code (map_text_of text.now greys.old) }
{
    let read = map_text::map_text(text, greys);
    *side = read.unwrap_or(0);
    code(read, 0)
}

// The code of a call that writes a text. The text's length is written to `length`, 0 where it refuses.
fn text_code(answer: Result<usize, Refusal>, length: &mut usize) -> u32
    ensures { (result ≡ code_of (value_says answer)) × (length.new ≡ value_of (value_says answer)) }
{
    *length = answer.unwrap_or(0);
    code(answer, 0)
}

// Lower Text for C (S 16.1, S 9.2). The text's length is written to `length`, 0 where it refuses.
#[unsafe(no_mangle)]
pub extern "C" fn rulmedei_lower_text(
    text: &[u8],
    greys: &mut [u8],
    out: &mut [u8],
    length: &mut usize,
) -> u32
    ensures { record { code = result; length = length.new; greys = greys.new; output = out.new }
        ≡ lower_text_code (lower_text_of text.now greys.old out.old) }
{
    let answer = map_text::lower_text(text, greys, out);
    text_code(answer, length)
}

// Drill List for C (S 16.1, S 9.3), with the record (side, dots, knit). The list's length is written to `length`, 0
// where it refuses.
#[unsafe(no_mangle)]
pub extern "C" fn rulmedei_drill_list(
    side: u32,
    dots: u32,
    knit: u32,
    pyramid: &[i64],
    serials: &[u32],
    order: &[u32],
    out: &mut [u8],
    length: &mut usize,
) -> u32
    ensures { record { code = result; length = length.new; output = out.new }
        ≡ text_code
        (drill_list_by_quarters (record { side = side; dots = dots; knit = knit })
        pyramid.now serials.now order.now out.old) }
{
    let progress = Progress { side, dots, knit };
    let answer = drill_list::drill_list(progress, pyramid, serials, order, out);
    text_code(answer, length)
}

// Quote Page for C (S 16.1, S 8.4). The page's length is written to `length`, 0 where it refuses.
#[unsafe(no_mangle)]
pub extern "C" fn rulmedei_quote_page(
    side: u32,
    greys: &[u8],
    serials: &[u32],
    level: u32,
    out: &mut [u8],
    length: &mut usize,
) -> u32
    ensures { record {
      code = result;
      length = length.new;
      output = out.new;
    }
        ≡ text_code (quote_page_of side greys.now serials.now level out.old) }
{
    let answer = quote_page::quote_page(side, greys, serials, level, out);
    text_code(answer, length)
}

// The figures of a sketch that is refused.
const NO_FIGURES: SketchAnswer = SketchAnswer {
    side: 0,
    least: 0,
    greatest: 0,
};

// Sketch Quote for C (S 16.1, S 9.4). The side, the least and the greatest total are written to `side_read`, `least`
// and `greatest`, 0 where it refuses.
#[unsafe(no_mangle)]
pub extern "C" fn rulmedei_sketch_quote(
    text: &[u8],
    level: u32,
    lows: &mut [u8],
    highs: &mut [u8],
    caps: &mut [u32],
    side_read: &mut u32,
    least: &mut u32,
    greatest: &mut u32,
) -> u32
    ensures { record {
      code = result;
      side = side_read.new;
      least = least.new;
      greatest = greatest.new;
      lows = lows.new;
      highs = highs.new;
      caps = caps.new;
    }
        ≡ sketch_code
        (sketch_quote_of text.now level lows.old highs.old caps.old) }
{
    let quoted = sketch_quote::sketch_quote(text, level, lows, highs, caps);
    let figures = quoted.unwrap_or(NO_FIGURES);
    *side_read = figures.side;
    *least = figures.least;
    *greatest = figures.greatest;
    code(quoted, 0)
}

// The answer of a Two Heads that refuses.
const NO_RUN: TwoHeadsAnswer = TwoHeadsAnswer {
    progress: NO_RECORD,
    made: 0,
    debt: 0,
};

// Two Heads for C (S 16.1, S 13.5). The record is written to `progress_side`, `progress_dots` and `progress_knit`, the
// holes to `made` and the debt that is left to `debt`, all 0 where it refuses.
#[unsafe(no_mangle)]
pub extern "C" fn rulmedei_two_heads(
    side: u32,
    knit: u32,
    greys: &[u8],
    pyramid: &mut [i64],
    serials: &mut [u32],
    order: &mut [u32],
    progress_side: &mut u32,
    progress_dots: &mut u32,
    progress_knit: &mut u32,
    made: &mut u32,
    debt: &mut i64,
) -> u32
    ensures { record {
      code = result;
      side = progress_side.new;
      dots = progress_dots.new;
      knit = progress_knit.new;
      made = made.new;
      debt = debt.new;
      pyramid = pyramid.new;
      serials = serials.new;
      order = order.new;
    }
        ≡ two_heads_code side knit
        greys.now pyramid.old serials.old order.old }
{
    let ran = laser::two_heads(side, knit, greys, pyramid, serials, order);
    let run = ran.unwrap_or(NO_RUN);
    *progress_side = run.progress.side;
    *progress_dots = run.progress.dots;
    *progress_knit = run.progress.knit;
    *made = run.made;
    *debt = run.debt;
    code(ran, 0)
}

// The sample for C (S 16.1, S 12.1). The state reached is written to `state`, 0 where it refuses.
#[unsafe(no_mangle)]
pub extern "C" fn rulmedei_sample(seed: u32, side: u32, greys: &mut [u8], state: &mut u32) -> u32
    ensures { record {
      code = result;
      value = state.new;
      greys = greys.new;
    }
        ≡ greys_code (sample_of seed side greys.old) }
{
    let reached = sample_map::sample(seed, side, greys);
    *state = reached.unwrap_or(0);
    code(reached, 0)
}

// Compare for C (S 16.1, S 11.1). The row and column of the cell that it names are written to `row` and `column`, 0 and
// 0 where it names none.
#[unsafe(no_mangle)]
pub extern "C" fn rulmedei_compare(
    side: u32,
    left: &[u32],
    right: &[u32],
    row: &mut u32,
    column: &mut u32,
) -> u32
    ensures { record { code = result; row = row.new; column = column.new }
        ≡ compare_code (compare_of side left.now right.now) }
{
    *row = 0;
    *column = 0;
    match compare::compare(side, left, right) {
        Ok(CompareAnswer::Before) => 102,
        Ok(CompareAnswer::BeforeAt(a, b)) => {
            *row = a;
            *column = b;
            103
        }
        Ok(CompareAnswer::Same) => 104,
        Ok(CompareAnswer::AfterAt(a, b)) => {
            *row = a;
            *column = b;
            105
        }
        Ok(CompareAnswer::After) => 106,
        Err(why) => checks::number_of(why),
    }
}

// Shelf for C (S 16.1, S 11.2). The numbers of the plates are written to `list`.
#[unsafe(no_mangle)]
pub extern "C" fn rulmedei_shelf(side: u32, n: u32, plates: &[u32], list: &mut [u32]) -> u32
    ensures { record { code = result; list = list.new }
        ≡ shelf_code (shelf_of side n plates.now list.old) }
{
    let sorted = shelf::shelf(side, n, plates, list);
    code(sorted, 0)
}

// Relay for C (S 16.1, S 12.2), with the record (side, dots, knit). The pyramid is written by quarters into `second`.
#[unsafe(no_mangle)]
pub extern "C" fn rulmedei_relay(
    side: u32,
    dots: u32,
    knit: u32,
    pyramid: &[i64],
    serials: &[u32],
    order: &[u32],
    second: &mut [i64],
) -> u32
    ensures { record { code = result; second = second.new }
        ≡ relay_code
        (relay_of (record { side = side; dots = dots; knit = knit })
        pyramid.now serials.now order.now second.old) }
{
    let older = Progress { side, dots, knit };
    let relaid = relay::relay(older, pyramid, serials, order, second);
    code(relaid, 0)
}

// The lowering of greys by itself, for C (S 16.1, S 12.4): it refuses nothing.
#[unsafe(no_mangle)]
pub extern "C" fn rulmedei_lower(greys: &mut [u8])
    ensures { greys.new ≡ lowered greys.old }
{
    lower::lower(greys);
}

// The renewal by itself, for C (S 16.1, S 12.3), around the cell in this row and column: 101 where it isn't made.
#[unsafe(no_mangle)]
pub extern "C" fn rulmedei_renew(side: u32, row: u32, column: u32, pyramid: &mut [i64]) -> u32
    ensures { record { code = result; pyramid = pyramid.new }
        ≡ renew_code (renewal_by_quarters side row column pyramid.old) }
{
    if renewal::renew_lent(side, row, column, pyramid) {
        return 0;
    }
    101
}
