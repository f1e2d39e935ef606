// Reads shelves on standard input; writes for each what `compare` answers to its two parts, and what `shelf` makes of
// it.
//
// The input is lines of decimal numbers parted by commas. The first line is the count of cases. A case is two lines:
// the side, the count of plates, the lengths lent of shelf and list, and the place that parts the shelf in two for
// Compare; and the numbers of the shelf, where any are lent.
#![tactic(auto)]

use case_io::{Numbers, end_line, end_refused, field, fields};
use definition::{CompareAnswer, Refusal};
use program_input::read_full;
use std::io;
use std::io::Write;

// Ends a line with a cell.
fn end_cell<W: Write>(out: &mut W, row: u32, column: u32) -> io::Result<()> {
    field(out, row)?;
    field(out, column)?;
    end_line(out)
}

fn print_compare<W: Write>(out: &mut W, answer: Result<CompareAnswer, Refusal>) -> io::Result<()> {
    out.write_all(b"compare")?;
    match answer {
        Ok(stands) => print_stands(out, stands),
        Err(why) => end_refused(out, why),
    }
}

fn print_stands<W: Write>(out: &mut W, stands: CompareAnswer) -> io::Result<()> {
    match stands {
        CompareAnswer::Before => out.write_all(b",before\n"),
        CompareAnswer::BeforeAt(row, column) => {
            out.write_all(b",before")?;
            end_cell(out, row, column)
        }
        CompareAnswer::Same => out.write_all(b",same\n"),
        CompareAnswer::AfterAt(row, column) => {
            out.write_all(b",after")?;
            end_cell(out, row, column)
        }
        CompareAnswer::After => out.write_all(b",after\n"),
    }
}

fn print_shelf<W: Write>(out: &mut W, answer: Result<(), Refusal>) -> io::Result<()> {
    out.write_all(b"shelf")?;
    match answer {
        Ok(()) => end_line(out),
        Err(why) => end_refused(out, why),
    }
}

// Compares the two parts of a shelf, puts the shelf in order, and writes the answers and the list.
fn sort<W: Write>(
    out: &mut W,
    side: u32,
    n: u32,
    plates: &[u32],
    middle: u32,
    list: &mut [u32],
) -> io::Result<()> {
    let parted = case_io::limit(middle, plates.len());
    print_compare(
        out,
        compare::compare(side, &plates[..parted], &plates[parted..]),
    )?;
    print_shelf(out, shelf::shelf(side, n, plates, list))?;
    out.write_all(b"list")?;
    fields(out, list)
}

// Reads a shelf of the places lent, and has it sorted.
fn run<W: Write>(
    out: &mut W,
    numbers: &mut Numbers,
    side: u32,
    n: u32,
    middle: u32,
    plates: &mut [u32],
    list: &mut [u32],
) -> io::Result<()> {
    for plate in plates.iter_mut() {
        *plate = numbers.next();
    }
    sort(out, side, n, plates, middle, list)
}

// Reads a case, and writes its answers.
fn run_case<W: Write>(out: &mut W, numbers: &mut Numbers) -> io::Result<()> {
    let side = numbers.next();
    let n = numbers.next();
    let plates_lent = numbers.limit(5000);
    let list_lent = numbers.limit(300);
    let middle = numbers.next();
    let mut plates = [0u32; 5000];
    let mut list = [9u32; 300];
    run(
        out,
        numbers,
        side,
        n,
        middle,
        &mut plates[..plates_lent],
        &mut list[..list_lent],
    )
}

// Runs every case of a text.
fn run_cases<W: Write>(out: &mut W, text: &[u8]) -> io::Result<()> {
    let mut numbers = Numbers::new(text);
    for number in 1..=numbers.next() {
        case_io::print_case(out, number)?;
        run_case(out, &mut numbers)?;
    }
    Ok(())
}

fn main(rt: HostRuntime) -> io::Result<()> {
    let mut input = [0u8; 65536];
    let n = read_full(&mut rt.stdin(), &mut input)?;
    run_cases(&mut rt.stdout(), &input[..n])
}
