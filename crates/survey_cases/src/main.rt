// Reads cases on standard input and writes what `load`, `tally` and `levels` answer to each.
//
// The input is lines of decimal numbers parted by commas. The first line is the count of cases. A case is four lines:
// the side, the knit and the four lengths lent (greys, pyramid, serials, order); the greys; the count of marks and the
// cells to mark; the count of tallies, and a level, row and column for each.
#![tactic(auto)]

use case_io::{Numbers, end_line, end_refused, field, fields};
use definition::Refusal;
use program_input::read_full;
use std::io;
use std::io::Write;

fn print_tally<W: Write>(out: &mut W, answer: Result<u32, Refusal>) -> io::Result<()> {
    match answer {
        Ok(dots) => {
            field(out, dots)?;
            end_line(out)
        }
        Err(why) => end_refused(out, why),
    }
}

fn print_levels<W: Write>(out: &mut W, answer: Result<[u64; 9], Refusal>) -> io::Result<()> {
    out.write_all(b"levels")?;
    for &sum in &answer.unwrap_or([0; 9]) {
        field(out, sum)?;
    }
    match answer {
        Ok(_) => end_line(out),
        Err(why) => end_refused(out, why),
    }
}

// Reads the cells to mark, and stores 1, 2, .. at those that there are.
fn read_marks(numbers: &mut Numbers, serials: &mut [u32]) {
    for mark in 1..=numbers.next() {
        let cell = numbers.next() as usize;
        if cell < serials.len() {
            serials[cell] = mark;
        }
    }
}

// Reads a block, and writes its tally.
fn tally_block<W: Write>(
    out: &mut W,
    numbers: &mut Numbers,
    side: u32,
    serials: &[u32],
) -> io::Result<()> {
    let level = numbers.next();
    let row = numbers.next();
    let column = numbers.next();
    out.write_all(b"tally")?;
    field(out, level)?;
    field(out, row)?;
    field(out, column)?;
    print_tally(out, survey::tally(side, serials, level, row, column))
}

// Reads the blocks to tally, and writes their tallies.
fn tally_blocks<W: Write>(
    out: &mut W,
    numbers: &mut Numbers,
    side: u32,
    serials: &[u32],
) -> io::Result<()> {
    for _ in 0..numbers.next() {
        tally_block(out, numbers, side, serials)?;
    }
    Ok(())
}

// Loads the places lent, and writes the answer and all of these places.
fn load_places<W: Write>(
    out: &mut W,
    side: u32,
    knit: u32,
    greys: &[u8],
    pyramid: &mut [i64],
    serials: &mut [u32],
    order: &mut [u32],
) -> io::Result<()> {
    let answer = load::load(side, knit, greys, pyramid, serials, order);
    case_io::print_load(out, answer)?;
    out.write_all(b"pyramid")?;
    fields(out, pyramid)?;
    out.write_all(b"serials")?;
    fields(out, serials)?;
    out.write_all(b"order")?;
    fields(out, order)
}

// Reads what follows a case's lengths, on the places lent, and writes its answers.
fn run<W: Write>(
    out: &mut W,
    numbers: &mut Numbers,
    side: u32,
    knit: u32,
    greys: &mut [u8],
    pyramid: &mut [i64],
    serials: &mut [u32],
    order: &mut [u32],
) -> io::Result<()> {
    numbers.fill_bytes(greys);
    load_places(out, side, knit, greys, pyramid, serials, order)?;
    read_marks(numbers, serials);
    tally_blocks(out, numbers, side, serials)?;
    print_levels(out, survey::levels(side, greys, serials))
}

// Reads a case, and writes its answers.
fn run_case<W: Write>(out: &mut W, numbers: &mut Numbers) -> io::Result<()> {
    let side = numbers.next();
    let knit = numbers.next();
    let greys_lent = numbers.limit(1100);
    let pyramid_lent = numbers.limit(1400);
    let serials_lent = numbers.limit(1100);
    let order_lent = numbers.limit(1100);
    let mut greys = [0u8; 1100];
    let mut pyramid = [-1i64; 1400];
    let mut serials = [9u32; 1100];
    let mut order = [9u32; 1100];
    run(
        out,
        numbers,
        side,
        knit,
        &mut greys[..greys_lent],
        &mut pyramid[..pyramid_lent],
        &mut serials[..serials_lent],
        &mut order[..order_lent],
    )
}

// Runs every case of a text.
fn run_cases<W: Write>(out: &mut W, text: &[u8]) -> io::Result<()> {
    let mut numbers = Numbers::new(text);
    for number in 1..=numbers.next() {
        case_io::print_case(out, number)?;
        run_case(out, &mut numbers)?;
    }
    Ok(())
}

fn main(rt: HostRuntime) -> io::Result<()> {
    let mut input = [0u8; 65536];
    let n = read_full(&mut rt.stdin(), &mut input)?;
    run_cases(&mut rt.stdout(), &input[..n])
}
