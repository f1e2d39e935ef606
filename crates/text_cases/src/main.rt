// Reads cases on standard input and writes what `map_text` answers to each text, what `drill_list` answers where a map
// was read, and what `lower_text` answers to the same text.
//
// The first line is the count of cases. A case is a line of six decimal numbers parted by commas: the text's length,
// the places lent of the greys buffer and of the output, a damage, the knit that Load is given and the one that Drill
// List is given in its record; and then the text itself, of just that length. Damage 0 is none. Before Drill List 1
// adds 1 to the pyramid's top; 2 says one hole more than were made, and 3 says side 3; 4, 5 and 6 lend one place less
// of the pyramid, the serial sheet and the order list.
#![tactic(auto)]

ghost use Rattle.std.specs.Prelude.{◌≤◌, length};

use case_io::{Numbers, end_line, field};
use definition::{Progress, Refusal};
use program_input::read_full;
use std::io;
use std::io::Write;

// What is done before Drill List, by the number of the damage.
#[derive(Clone, Copy, PartialEq, Eq)]
enum Damage {
    Nothing,
    Top,
    Hole,
    Side,
    Pyramid,
    Serials,
    Order,
}

impl From<u32> for Damage {
    fn from(number: u32) -> Damage {
        match number {
            1 => Damage::Top,
            2 => Damage::Hole,
            3 => Damage::Side,
            4 => Damage::Pyramid,
            5 => Damage::Serials,
            6 => Damage::Order,
            _ => Damage::Nothing,
        }
    }
}

// What a case asks for: the damage, the knit of the load, and the knit that the record says afterwards.
#[derive(Clone, Copy)]
struct Asked {
    damage: Damage,
    knit: u32,
    said: u32,
}

// The number of places from a place on that hold what they held before the call.
fn count_untouched(out: &[u8], from: usize) -> usize
    requires { from ≤ length out.now }
{
    out[from..].iter().filter(|b| **b == b'.').count()
}

fn print_spare<W: Write>(to: &mut W, out: &[u8], from: usize) -> io::Result<()>
    requires { from ≤ length out.now }
{
    to.write_all(b"spare")?;
    field(to, count_untouched(out, from) as u64)?;
    end_line(to)
}

// Writes a text of this length, and what is left past it.
fn print_text<W: Write>(to: &mut W, out: &[u8], length: usize) -> io::Result<()> {
    let end = length.min(out.len());
    to.write_all(&out[..end])?;
    print_spare(to, out, end)
}

// Writes the list's length, and the list.
fn print_list<W: Write>(to: &mut W, out: &[u8], length: usize) -> io::Result<()> {
    to.write_all(b"list")?;
    field(to, length as u64)?;
    end_line(to)?;
    print_text(to, out, length)
}

fn print_answer<W: Write>(
    to: &mut W,
    answer: Result<usize, Refusal>,
    out: &[u8],
) -> io::Result<()> {
    match answer {
        Ok(length) => print_list(to, out, length),
        Err(why) => {
            case_io::print_refused(to, why)?;
            print_spare(to, out, 0)
        }
    }
}

// The record that Drill List is given.
fn damaged_record(damage: Damage, said: u32, record: Progress) -> Progress {
    let dots = if damage == Damage::Hole {
        record.dots.saturating_add(1)
    } else {
        record.dots
    };
    let side = if damage == Damage::Side {
        3
    } else {
        record.side
    };
    Progress {
        side,
        dots,
        knit: said,
    }
}

// The places that Drill List is lent of a buffer: one less where the damage is this buffer's.
fn lent(whole: usize, damage: Damage, of: Damage) -> usize
    ensures { result ≤ whole }
{
    if damage == of {
        whole.saturating_sub(1)
    } else {
        whole
    }
}

// Calls Drill List with the record and the lengths that the damage says, and the knit said.
fn list_damaged(
    damage: Damage,
    said: u32,
    record: Progress,
    pyramid: &[i64],
    serials: &[u32],
    order: &[u32],
    out: &mut [u8],
) -> Result<usize, Refusal> {
    let pyramid_lent = lent(pyramid.len(), damage, Damage::Pyramid);
    let serials_lent = lent(serials.len(), damage, Damage::Serials);
    let order_lent = lent(order.len(), damage, Damage::Order);
    drill_list::drill_list(
        damaged_record(damage, said, record),
        &pyramid[..pyramid_lent],
        &serials[..serials_lent],
        &order[..order_lent],
        out,
    )
}

// Loads a map and runs it to its end.
fn run_map(
    side: u32,
    knit: u32,
    greys: &[u8],
    pyramid: &mut [i64],
    serials: &mut [u32],
    order: &mut [u32],
) -> Progress {
    let record = match load::load(side, knit, greys, pyramid, serials, order) {
        Ok(progress) => progress,
        Err(_) => Progress {
            side: 0,
            dots: 0,
            knit: 0,
        },
    };
    match advance::advance(record, 4294967295, pyramid, serials, order) {
        Ok(answer) => answer.progress,
        Err(_) => record,
    }
}

// Runs a map on the places lent, and writes what Drill List answers.
fn list_places<W: Write>(
    to: &mut W,
    asked: Asked,
    side: u32,
    greys: &[u8],
    pyramid: &mut [i64],
    serials: &mut [u32],
    order: &mut [u32],
    out: &mut [u8],
) -> io::Result<()> {
    let damage = asked.damage;
    let record = run_map(side, asked.knit, greys, pyramid, serials, order);
    if damage == Damage::Top {
        case_io::shift_entry(pyramid, 0, 1, 0);
    }
    let answer = list_damaged(damage, asked.said, record, pyramid, serials, order, out);
    print_answer(to, answer, out)
}

// The same on buffers of the needed lengths, for a side up to 16.
fn list_map<W: Write>(
    to: &mut W,
    asked: Asked,
    side: u32,
    greys: &[u8],
    out: &mut [u8],
) -> io::Result<()> {
    let r = sizes::power_of(side);
    let needed = sizes::needed(r).min(341);
    let cells = sizes::cell_count(r).min(256);
    let mut pyramid = [-1i64; 341];
    let mut serials = [9u32; 256];
    let mut order = [9u32; 256];
    list_places(
        to,
        asked,
        side,
        greys,
        &mut pyramid[..needed],
        &mut serials[..cells],
        &mut order[..cells],
        out,
    )
}

fn print_greys<W: Write>(to: &mut W, greys: &[u8]) -> io::Result<()> {
    to.write_all(b"greys")?;
    case_io::fields(to, greys)
}

fn print_side<W: Write>(to: &mut W, side: u32) -> io::Result<()> {
    to.write_all(b"side")?;
    field(to, side)?;
    end_line(to)
}

// Gives Map Text a text, and writes its answer, the greys buffer, and Drill List's answer where a map was read.
fn run_text<W: Write>(
    to: &mut W,
    text: &[u8],
    asked: Asked,
    greys: &mut [u8],
    out: &mut [u8],
) -> io::Result<()> {
    match map_text::map_text(text, greys) {
        Ok(side) => {
            print_side(to, side)?;
            print_greys(to, greys)?;
            list_map(to, asked, side, greys, out)
        }
        Err(why) => {
            case_io::print_refused(to, why)?;
            print_greys(to, greys)
        }
    }
}

// The same with so many places lent of both buffers.
fn run_lent<W: Write>(to: &mut W, text: &[u8], asked: Asked, g: u32, o: u32) -> io::Result<()> {
    let greys_lent = case_io::limit(g, 300);
    let output_lent = case_io::limit(o, 4000);
    let mut greys = [9u8; 300];
    let mut out = [46u8; 4000];
    run_text(
        to,
        text,
        asked,
        &mut greys[..greys_lent],
        &mut out[..output_lent],
    )
}

// Writes the text's length, the greys, and the text.
fn print_lowered<W: Write>(to: &mut W, greys: &[u8], out: &[u8], length: usize) -> io::Result<()> {
    to.write_all(b"lowered")?;
    field(to, length as u64)?;
    end_line(to)?;
    print_greys(to, greys)?;
    print_text(to, out, length)
}

// Gives Lower Text a text, and writes its answer and both buffers.
fn lower_text<W: Write>(
    to: &mut W,
    text: &[u8],
    greys: &mut [u8],
    out: &mut [u8],
) -> io::Result<()> {
    match map_text::lower_text(text, greys, out) {
        Ok(length) => print_lowered(to, greys, out, length),
        Err(why) => {
            case_io::print_refused(to, why)?;
            print_greys(to, greys)?;
            print_spare(to, out, 0)
        }
    }
}

// The same with so many places lent of both buffers.
fn lower_lent<W: Write>(to: &mut W, text: &[u8], g: u32, o: u32) -> io::Result<()> {
    let greys_lent = case_io::limit(g, 300);
    let output_lent = case_io::limit(o, 4000);
    let mut greys = [9u8; 300];
    let mut out = [46u8; 4000];
    lower_text(to, text, &mut greys[..greys_lent], &mut out[..output_lent])
}

// Reads a case, and writes its answers.
fn run_case<W: Write>(to: &mut W, numbers: &mut Numbers) -> io::Result<()> {
    let length = numbers.next();
    let g = numbers.next();
    let o = numbers.next();
    let damage = Damage::from(numbers.next());
    let knit = numbers.next();
    let said = numbers.next();
    let text = numbers.take(length as usize);
    let asked = Asked { damage, knit, said };
    run_lent(to, text, asked, g, o)?;
    lower_lent(to, text, g, o)
}

// Runs every case of a text.
fn run_cases<W: Write>(to: &mut W, text: &[u8]) -> io::Result<()> {
    let mut numbers = Numbers::new(text);
    for number in 1..=numbers.next() {
        case_io::print_case(to, number)?;
        run_case(to, &mut numbers)?;
    }
    Ok(())
}

fn main(rt: HostRuntime) -> io::Result<()> {
    let mut input = [0u8; 65536];
    let n = read_full(&mut rt.stdin(), &mut input)?;
    run_cases(&mut rt.stdout(), &input[..n])
}
