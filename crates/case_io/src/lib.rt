// What the test programs share: a text of numbers parted by commas and line ends, read from the front (`Numbers`);
// numbers, lists, answers and refusals written to an output (`field`, `print_load`, `print_call`); and the buffers of a
// case, their greys (`make_greys`), and Advance on them (`advance_on`).
#![tactic(auto)]

ghost use Rattle.std.specs.Prelude.{◌≤◌, length};

use definition::{AdvanceAnswer, AdvanceStatus, Progress, Refusal};
use std::io;
use std::io::Write;

// A text of numbers, and the place that it is read up to.
#[derive(Drop)]
pub struct Numbers<'a> {
    text: &'a [u8],
    at: usize,
}

impl<'a> Numbers<'a> {
    pub fn new(text: &'a [u8]) -> Numbers<'a> {
        Numbers { text, at: 0 }
    }

    // The next number, if it ends in this byte.
    fn until(&mut self, end: u8) -> Option<u32> {
        let number = decimals::read_number(self.text, self.at, u32::MAX, end)?;
        self.at = number.next;
        Some(number.value)
    }

    // The next number, whether a comma ends it or its line; or 0 and the text's end, where there is none.
    pub fn next(&mut self) -> u32 {
        if let Some(value) = self.until(b',') {
            return value;
        }
        if let Some(value) = self.until(b'\n') {
            return value;
        }
        self.at = self.text.len();
        0
    }

    // The next number as a length, but no more than there are places.
    pub fn limit(&mut self, most: usize) -> usize
        ensures { result ≤ most }
    {
        limit(self.next(), most)
    }

    // Reads a number for each place, modulo 256.
    pub fn fill_bytes(&mut self, bytes: &mut [u8]) {
        for byte in bytes.iter_mut() {
            *byte = (self.next() % 256) as u8;
        }
    }

    // So many bytes as they stand, or as many as are left.
    pub fn take(&mut self, length: usize) -> &'a [u8] {
        let start = self.at.min(self.text.len());
        let end = start + length.min(self.text.len() - start);
        self.at = end;
        &self.text[start..end]
    }
}

// A length that was read, but no more than there are places.
pub fn limit(length: u32, most: usize) -> usize
    ensures { result ≤ most }
{
    (length as usize).min(most)
}

// Stores a number's digits, and returns how many they are.
fn put_digits(digits: &mut [u8], n: u64) -> usize
    requires { 20 ≤ length digits.old }
    ensures { result ≤ length digits.new }
{
    decimals::put_number(digits, 0, n)
}

// Writes a number.
pub fn print_number<W: Write>(out: &mut W, n: u64) -> io::Result<()> {
    let mut digits = [0u8; 20];
    let length = put_digits(&mut digits, n);
    out.write_all(&digits[..length])
}

pub fn end_line<W: Write>(out: &mut W) -> io::Result<()> {
    out.write_all(b"\n")
}

// Writes a comma and a number.
fn print_field<W: Write>(out: &mut W, n: u64) -> io::Result<()> {
    out.write_all(b",")?;
    print_number(out, n)
}

// A number that is printed in a field of an output.
pub trait Printed: Copy {
    // Writes a comma and it.
    fn print<W: Write>(self, out: &mut W) -> io::Result<()>;

    // It modulo 2 to the power of 32.
    fn word(self) -> u64;
}

impl Printed for u64 {
    fn print<W: Write>(self, out: &mut W) -> io::Result<()> {
        print_field(out, self)
    }

    fn word(self) -> u64 {
        self % 4294967296
    }
}

impl Printed for u32 {
    fn print<W: Write>(self, out: &mut W) -> io::Result<()> {
        print_field(out, u64::from(self))
    }

    fn word(self) -> u64 {
        u64::from(self)
    }
}

impl Printed for u8 {
    fn print<W: Write>(self, out: &mut W) -> io::Result<()> {
        print_field(out, u64::from(self))
    }

    fn word(self) -> u64 {
        u64::from(self)
    }
}

impl Printed for i64 {
    fn print<W: Write>(self, out: &mut W) -> io::Result<()> {
        if self < 0 {
            out.write_all(b",-")?;
            return print_number(out, self.unsigned_abs());
        }
        print_field(out, self.unsigned_abs())
    }

    fn word(self) -> u64 {
        self.rem_euclid(4294967296) as u64
    }
}

// Writes a field: a comma and a number.
pub fn field<W: Write, T: Printed>(out: &mut W, n: T) -> io::Result<()> {
    n.print(out)
}

// Writes a field for each value, and ends the line.
pub fn fields<W: Write, T: Printed>(out: &mut W, values: &[T]) -> io::Result<()> {
    for &value in values {
        field(out, value)?;
    }
    end_line(out)
}

// Writes a refusal, and ends the line.
pub fn print_refused<W: Write>(out: &mut W, why: Refusal) -> io::Result<()> {
    out.write_all(b"refused")?;
    field(out, checks::number_of(why))?;
    end_line(out)
}

// Ends a line with a refusal.
pub fn end_refused<W: Write>(out: &mut W, why: Refusal) -> io::Result<()> {
    out.write_all(b",")?;
    print_refused(out, why)
}

// Writes the line before a case's answers.
pub fn print_case<W: Write>(out: &mut W, number: u32) -> io::Result<()> {
    out.write_all(b"case")?;
    field(out, number)?;
    end_line(out)
}

// Writes a field for each number of a record: the side, the dots, the knit.
pub fn print_record<W: Write>(out: &mut W, progress: Progress) -> io::Result<()> {
    field(out, progress.side)?;
    field(out, progress.dots)?;
    field(out, progress.knit)
}

// The record of a Load that refuses.
const NO_RECORD: Progress = Progress {
    side: 0,
    dots: 0,
    knit: 0,
};

// Writes what Load answers, and returns the record after it.
pub fn print_load<W: Write>(
    out: &mut W,
    loaded: Result<Progress, Refusal>,
) -> io::Result<Progress> {
    let progress = loaded.unwrap_or(NO_RECORD);
    out.write_all(b"load")?;
    print_record(out, progress)?;
    match loaded {
        Ok(_) => end_line(out)?,
        Err(why) => end_refused(out, why)?,
    }
    Ok(progress)
}

// Adds one number to an entry and subtracts another, if there is such an entry and it isn't too large.
pub fn shift_entry(pyramid: &mut [i64], place: usize, plus: u32, minus: u32) {
    if pyramid.len() <= place {
        return;
    }
    let entry = pyramid[place];
    if entry < -1000000000000 {
        return;
    }
    if 1000000000000 < entry {
        return;
    }
    pyramid[place] = entry + plus as i64 - minus as i64;
}

// The number of cells of a side.
pub fn cells_of(n: usize) -> usize
    requires { n ≤ 256 }
    ensures { result ≤ 65536 }
{
    n * n
}

// The length of a side's pyramid, or 1 where there is no such side.
pub fn pyramid_of(n: usize) -> usize
    ensures { result ≤ 87381 }
{
    match n {
        2 => 5,
        4 => 21,
        8 => 85,
        16 => 341,
        32 => 1365,
        64 => 5461,
        128 => 21845,
        256 => 87381,
        _ => 1,
    }
}

// Reads the greys of seed 0, or fills in the sample of another, lowered.
pub fn make_greys(numbers: &mut Numbers, seed: u32, side: u32, greys: &mut [u8]) {
    if seed == 0 {
        numbers.fill_bytes(greys);
    } else {
        let _ = sample_map::sample(seed, side, greys);
        lower::lower(greys);
    }
}

// Lends Advance the first places of each buffer, as many as the lengths say.
pub fn advance_on(
    progress: Progress,
    budget: u32,
    p: u32,
    s: u32,
    o: u32,
    pyramid: &mut [i64],
    serials: &mut [u32],
    order: &mut [u32],
) -> Result<AdvanceAnswer, Refusal> {
    let pyramid_lent = limit(p, pyramid.len());
    let serials_lent = limit(s, serials.len());
    let order_lent = limit(o, order.len());
    advance::advance(
        progress,
        budget,
        &mut pyramid[..pyramid_lent],
        &mut serials[..serials_lent],
        &mut order[..order_lent],
    )
}

// The checksum of values.
fn checksum<T: Printed>(values: &[T]) -> u64 {
    let mut sum = 1;
    for &value in values {
        sum = (sum % 4294967296 * 16777619 + value.word() % 4294967296) % 4294967296;
    }
    sum
}

// Writes the values of a side up to 8, and the checksum of a larger one.
fn write_values<W: Write, T: Printed>(out: &mut W, n: usize, values: &[T]) -> io::Result<()> {
    if n <= 8 {
        return fields(out, values);
    }
    field(out, checksum(values))?;
    end_line(out)
}

// Writes the three buffers.
pub fn write_places<W: Write>(
    out: &mut W,
    n: usize,
    pyramid: &[i64],
    serials: &[u32],
    order: &[u32],
) -> io::Result<()> {
    out.write_all(b"pyramid")?;
    write_values(out, n, pyramid)?;
    out.write_all(b"serials")?;
    write_values(out, n, serials)?;
    out.write_all(b"order")?;
    write_values(out, n, order)
}

// Writes what goes with an Advance that is not refused.
fn print_status<W: Write>(out: &mut W, status: AdvanceStatus) -> io::Result<()> {
    match status {
        AdvanceStatus::Finished => out.write_all(b",finished\n"),
        AdvanceStatus::More => out.write_all(b",more\n"),
    }
}

// Writes what Advance, given a record, answers to a budget, and returns the record after it.
pub fn print_call<W: Write>(
    out: &mut W,
    given: Progress,
    budget: u32,
    answer: Result<AdvanceAnswer, Refusal>,
) -> io::Result<Progress> {
    out.write_all(b"call")?;
    field(out, budget)?;
    match answer {
        Ok(answer) => {
            print_record(out, answer.progress)?;
            field(out, answer.made)?;
            print_status(out, answer.status)?;
            Ok(answer.progress)
        }
        Err(why) => {
            print_record(out, given)?;
            field(out, 0u32)?;
            end_refused(out, why)?;
            Ok(given)
        }
    }
}
