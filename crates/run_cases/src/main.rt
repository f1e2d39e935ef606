// Reads cases on standard input and writes what `load` and then `advance`, call after call, answer to each.
//
// The input is lines of decimal numbers parted by commas. The first line is the count of cases. A case is: a line with
// the side, the knit, a seed and the places to spare; a line with the greys, if the seed is 0; a line with the count of
// calls; and a line for each of them: the budget, the three lengths lent (pyramid, serials, order), a place of the
// pyramid, and what is added there and what is taken away before the call.
#![tactic(auto)]

use case_io::Numbers;
use definition::Progress;
use program_input::read_full;
use std::io;
use std::io::Write;

// Reads a call, makes it, writes its answer, and returns the record after it.
fn run_call<W: Write>(
    out: &mut W,
    numbers: &mut Numbers,
    progress: Progress,
    pyramid: &mut [i64],
    serials: &mut [u32],
    order: &mut [u32],
) -> io::Result<Progress> {
    let budget = numbers.next();
    let p = numbers.next();
    let s = numbers.next();
    let o = numbers.next();
    let place = numbers.next() as usize;
    let plus = numbers.next();
    let minus = numbers.next();
    case_io::shift_entry(pyramid, place, plus, minus);
    let answer = case_io::advance_on(progress, budget, p, s, o, pyramid, serials, order);
    case_io::print_call(out, progress, budget, answer)
}

// Reads the calls, and makes them one after another.
fn run_calls<W: Write>(
    out: &mut W,
    numbers: &mut Numbers,
    first: Progress,
    pyramid: &mut [i64],
    serials: &mut [u32],
    order: &mut [u32],
) -> io::Result<()> {
    let mut progress = first;
    for _ in 0..numbers.next() {
        progress = run_call(out, numbers, progress, pyramid, serials, order)?;
    }
    Ok(())
}

// Reads what follows a case's first four numbers, on the whole parts, and writes its answers.
fn run<W: Write>(
    out: &mut W,
    numbers: &mut Numbers,
    side: u32,
    knit: u32,
    seed: u32,
    n: usize,
    greys: &mut [u8],
    pyramid: &mut [i64],
    serials: &mut [u32],
    order: &mut [u32],
) -> io::Result<()> {
    case_io::make_greys(numbers, seed, side, greys);
    let loaded = load::load(side, knit, greys, pyramid, serials, order);
    let first = case_io::print_load(out, loaded)?;
    run_calls(out, numbers, first, pyramid, serials, order)?;
    case_io::write_places(out, n, pyramid, serials, order)
}

// Reads a case, and writes its answers.
fn run_case<W: Write>(out: &mut W, numbers: &mut Numbers) -> io::Result<()> {
    let side = numbers.next();
    let knit = numbers.next();
    let seed = numbers.next();
    let more = numbers.limit(100);
    let n = case_io::limit(side, 256);
    let cells = case_io::cells_of(n);
    let pyramid_whole = case_io::pyramid_of(n) + more;
    let sheet_whole = cells + more;
    let mut greys = [0u8; 65536];
    let mut pyramid = [-1i64; 87500];
    let mut serials = [9u32; 65700];
    let mut order = [9u32; 65700];
    run(
        out,
        numbers,
        side,
        knit,
        seed,
        n,
        &mut greys[..cells],
        &mut pyramid[..pyramid_whole],
        &mut serials[..sheet_whole],
        &mut order[..sheet_whole],
    )
}

// Runs every case of a text.
fn run_cases<W: Write>(out: &mut W, text: &[u8]) -> io::Result<()> {
    let mut numbers = Numbers::new(text);
    for number in 1..=numbers.next() {
        case_io::print_case(out, number)?;
        run_case(out, &mut numbers)?;
    }
    Ok(())
}

fn main(rt: HostRuntime) -> io::Result<()> {
    let mut input = [0u8; 65536];
    let n = read_full(&mut rt.stdin(), &mut input)?;
    run_cases(&mut rt.stdout(), &input[..n])
}
