// Reads cases on standard input and writes what `load` answers to each, and then `advance`, `keep` and `restore` one
// after another, with changes between them.
//
// The input is lines of decimal numbers parted by commas. The first line is the count of cases. A case is: a line with
// the side, the knit, a seed and the places to spare; a line with the greys, if the seed is 0; a line with the count of
// actions; and a line of five numbers for each of them, a kind and a, b, c and d:
// 0  Advance with the budget a, lent b, c and d places of pyramid, serials and order
// 1  Keep with the name a
// 2  Restore with the name a and all greys, lent b, c and d places of pyramid, serials and order
// 3  place b of the value, or the last one, becomes a plus c times 2 to the power of 32
// 4  grey b becomes a
// 5  the record becomes (a, b, c)
// 6  at place b of the pyramid c is added and d is taken away
#![tactic(auto)]

use case_io::{Numbers, end_line, end_refused, field};
use definition::{Checkpoints, Progress, Refusal};
use program_input::read_full;
use std::io;
use std::io::Write;

// What is lent of the buffers: places of pyramid, serials and order.
#[derive(Clone, Copy)]
struct Lent {
    pyramid: u32,
    serials: u32,
    order: u32,
}

// An action, by its kind: the budget, the name, or the places and numbers that it changes.
#[derive(Clone, Copy)]
enum Action {
    Advance(u32, Lent),
    Keep(u32),
    Restore(u32, Lent),
    SetKept(usize, u64),
    SetGrey(usize, u8),
    SetRecord(Progress),
    Shift(usize, u32, u32),
}

fn read_action(numbers: &mut Numbers) -> Action {
    let kind = numbers.next();
    let a = numbers.next();
    let b = numbers.next();
    let c = numbers.next();
    let d = numbers.next();
    let lent = Lent {
        pyramid: b,
        serials: c,
        order: d,
    };
    match kind {
        0 => Action::Advance(a, lent),
        1 => Action::Keep(a),
        2 => Action::Restore(a, lent),
        3 => Action::SetKept(b as usize, u64::from(a) + u64::from(c) * 4294967296),
        4 => Action::SetGrey(b as usize, (a % 256) as u8),
        5 => Action::SetRecord(Progress {
            side: a,
            dots: b,
            knit: c,
        }),
        _ => Action::Shift(b as usize, c, d),
    }
}

// What goes from call to call beside the buffers.
#[derive(Clone, Copy)]
struct Held {
    progress: Progress,
    checkpoints: Checkpoints,
}

// Ends a line with what Keep or Restore says, and returns what is held then.
fn end_answer<W: Write>(
    out: &mut W,
    held: Held,
    answer: Result<Held, Refusal>,
) -> io::Result<Held> {
    match answer {
        Ok(after) => {
            end_line(out)?;
            Ok(after)
        }
        Err(why) => {
            end_refused(out, why)?;
            Ok(held)
        }
    }
}

fn keep_in(held: Held, name: u32) -> Result<Held, Refusal> {
    let progress = held.progress;
    let checkpoints = checkpoints::keep(progress, held.checkpoints, name)?;
    Ok(Held {
        progress,
        checkpoints,
    })
}

fn keep<W: Write>(out: &mut W, held: Held, name: u32) -> io::Result<Held> {
    out.write_all(b"keep")?;
    field(out, name)?;
    end_answer(out, held, keep_in(held, name))
}

// Lends Restore the first places of each buffer, as many as the lengths say.
fn restore_on(
    held: Held,
    name: u32,
    lent: Lent,
    greys: &[u8],
    pyramid: &mut [i64],
    serials: &mut [u32],
    order: &mut [u32],
) -> Result<Held, Refusal> {
    let p = case_io::limit(lent.pyramid, pyramid.len());
    let s = case_io::limit(lent.serials, serials.len());
    let o = case_io::limit(lent.order, order.len());
    let checkpoints = held.checkpoints;
    let progress = checkpoints::restore(
        held.progress,
        checkpoints,
        name,
        greys,
        &mut pyramid[..p],
        &mut serials[..s],
        &mut order[..o],
    )?;
    Ok(Held {
        progress,
        checkpoints,
    })
}

fn restore<W: Write>(
    out: &mut W,
    held: Held,
    name: u32,
    lent: Lent,
    greys: &[u8],
    pyramid: &mut [i64],
    serials: &mut [u32],
    order: &mut [u32],
) -> io::Result<Held> {
    let answer = restore_on(held, name, lent, greys, pyramid, serials, order);
    out.write_all(b"restore")?;
    field(out, name)?;
    case_io::print_record(out, answer.unwrap_or(held).progress)?;
    end_answer(out, held, answer)
}

fn advance<W: Write>(
    out: &mut W,
    held: Held,
    budget: u32,
    lent: Lent,
    pyramid: &mut [i64],
    serials: &mut [u32],
    order: &mut [u32],
) -> io::Result<Held> {
    let answer = case_io::advance_on(
        held.progress,
        budget,
        lent.pyramid,
        lent.serials,
        lent.order,
        pyramid,
        serials,
        order,
    );
    let progress = case_io::print_call(out, held.progress, budget, answer)?;
    Ok(Held {
        progress,
        checkpoints: held.checkpoints,
    })
}

// The value with another number in a place, or in the last one.
fn with_kept(held: Held, place: usize, number: u64) -> Held {
    let progress = held.progress;
    let value = held.checkpoints;
    let mut kept = value.kept;
    kept[place.min(7)] = number;
    Held {
        progress,
        checkpoints: Checkpoints { kept },
    }
}

fn set_grey(greys: &mut [u8], place: usize, grey: u8) {
    if place < greys.len() {
        greys[place] = grey;
    }
}

// Does what an action says.
fn act<W: Write>(
    out: &mut W,
    held: Held,
    action: Action,
    greys: &mut [u8],
    pyramid: &mut [i64],
    serials: &mut [u32],
    order: &mut [u32],
) -> io::Result<Held> {
    match action {
        Action::Advance(budget, lent) => {
            advance(out, held, budget, lent, pyramid, serials, order)
        }
        Action::Keep(name) => keep(out, held, name),
        Action::Restore(name, lent) => {
            restore(out, held, name, lent, greys, pyramid, serials, order)
        }
        Action::SetKept(place, number) => Ok(with_kept(held, place, number)),
        Action::SetGrey(place, grey) => {
            set_grey(greys, place, grey);
            Ok(held)
        }
        Action::SetRecord(progress) => {
            let checkpoints = held.checkpoints;
            Ok(Held {
                progress,
                checkpoints,
            })
        }
        Action::Shift(place, plus, minus) => {
            case_io::shift_entry(pyramid, place, plus, minus);
            Ok(held)
        }
    }
}

// Writes the eight places of the value.
fn write_kept<W: Write>(out: &mut W, value: Checkpoints) -> io::Result<()> {
    out.write_all(b"kept")?;
    for &number in &value.kept {
        field(out, number)?;
    }
    end_line(out)
}

// Reads the actions, does them one after another, and writes the value.
fn run_actions<W: Write>(
    out: &mut W,
    numbers: &mut Numbers,
    progress: Progress,
    greys: &mut [u8],
    pyramid: &mut [i64],
    serials: &mut [u32],
    order: &mut [u32],
) -> io::Result<()> {
    let kept = [0; 8];
    let mut held = Held {
        progress,
        checkpoints: Checkpoints { kept },
    };
    for _ in 0..numbers.next() {
        let action = read_action(numbers);
        held = act(out, held, action, greys, pyramid, serials, order)?;
    }
    write_kept(out, held.checkpoints)
}

// Reads what follows a case's first four numbers, on the whole parts, and writes its answers.
fn run<W: Write>(
    out: &mut W,
    numbers: &mut Numbers,
    side: u32,
    knit: u32,
    seed: u32,
    n: usize,
    greys: &mut [u8],
    pyramid: &mut [i64],
    serials: &mut [u32],
    order: &mut [u32],
) -> io::Result<()> {
    case_io::make_greys(numbers, seed, side, greys);
    let loaded = load::load(side, knit, greys, pyramid, serials, order);
    let progress = case_io::print_load(out, loaded)?;
    run_actions(out, numbers, progress, greys, pyramid, serials, order)?;
    case_io::write_places(out, n, pyramid, serials, order)
}

// Reads a case, and writes its answers.
fn run_case<W: Write>(out: &mut W, numbers: &mut Numbers) -> io::Result<()> {
    let side = numbers.next();
    let knit = numbers.next();
    let seed = numbers.next();
    let more = numbers.limit(100);
    let n = case_io::limit(side, 256);
    let cells = case_io::cells_of(n);
    let pyramid_whole = case_io::pyramid_of(n) + more;
    let sheet_whole = cells + more;
    let mut greys = [0u8; 65536];
    let mut pyramid = [-1i64; 87500];
    let mut serials = [9u32; 65700];
    let mut order = [9u32; 65700];
    run(
        out,
        numbers,
        side,
        knit,
        seed,
        n,
        &mut greys[..cells],
        &mut pyramid[..pyramid_whole],
        &mut serials[..sheet_whole],
        &mut order[..sheet_whole],
    )
}

// Runs every case of a text.
fn run_cases<W: Write>(out: &mut W, text: &[u8]) -> io::Result<()> {
    let mut numbers = Numbers::new(text);
    for number in 1..=numbers.next() {
        case_io::print_case(out, number)?;
        run_case(out, &mut numbers)?;
    }
    Ok(())
}

fn main(rt: HostRuntime) -> io::Result<()> {
    let mut input = [0u8; 65536];
    let n = read_full(&mut rt.stdin(), &mut input)?;
    run_cases(&mut rt.stdout(), &input[..n])
}
