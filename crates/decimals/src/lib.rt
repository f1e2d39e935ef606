// Numbers in texts: the one reader (`read_number`) and the one writer of decimal digits (`put_number`, `put_field`,
// `put_column`).
#![tactic(auto)]

ghost use Rattle.std.specs.Prelude.{◌≡◌, [], ◌∷◌, ◌+◌, ◌-◌, ◌^◌, ◌<◌, ◌≤◌, length, drop, replicate};
ghost use Rattle.definition.specs.Text.{decimal, space, right_aligned, digits_then, field_of};
ghost use Rattle.grammar.specs.Fields.{is_next_digit};
ghost use Rattle.decimals.specs.Reading.{field_in};
ghost use Rattle.decimals.specs.Writing.{Wrote, field_text, column_text};

// A number that a text holds at a place, and the place behind the byte that ends it.
#[derive(Clone, Copy)]
pub struct Number {
    pub value: u32,
    pub next: usize,
}

// Whether a byte is one digit more behind digits with the value v: none behind a 0, and none that makes the number
// larger than `most`.
#[tactic(auto, unfolding(grammar::specs::Fields::is_next_digit, definition::specs::Text::is_digit))]
fn is_next_digit(most: u32, v: u32, b: u8) -> bool
    ensures { result ≡ is_next_digit most v b }
{
    b.is_ascii_digit() && v != 0 && 10 * u64::from(v) + u64::from(b - b'0') <= u64::from(most)
}

// The number whose first digits have the value `first`; the others stand from a place on.
fn read_digits(text: &[u8], from: usize, first: u32, most: u32, end: u8) -> Option<Number>
    ensures { field_in text.now result ≡ digits_then most end first (drop from text.now) }
{
    let mut value = first;
    for at in from..text.len() {
        let b = text[at];
        if b == end {
            return Some(Number {
                value,
                next: at + 1,
            });
        }
        if !is_next_digit(most, value, b) {
            return None;
        }
        value = 10 * value + u32::from(b - b'0');
    }
    None
}

// The number that begins at a place of the text and ends in the byte `end` (S 6.1), or none.
pub fn read_number(text: &[u8], from: usize, most: u32, end: u8) -> Option<Number>
    ensures { field_in text.now result ≡ field_of most end (drop from text.now) }
{
    let b = *text.get(from)?;
    if !b.is_ascii_digit() {
        return None;
    }
    read_digits(text, from + 1, u32::from(b - b'0'), most, end)
}

// Stores a byte, if the buffer has the place, and returns the next place.
#[tactic(auto, using(crate::specs::Writing::byte_inside, crate::specs::Writing::byte_outside))]
pub fn put_byte(out: &mut [u8], at: usize, b: u8) -> usize
    requires { at < 2 ^ 63 }
    ensures { Wrote out.old at (b ∷ []) result out.new }
{
    if at < out.len() {
        out[at] = b;
    }
    at + 1
}

// Stores so many spaces.
fn put_spaces(out: &mut [u8], from: usize, count: usize) -> usize
    requires { from + count ≤ 2 ^ 62 }
    ensures { Wrote out.old from (replicate count space) result out.new }
{
    for at in from..from + count {
        put_byte(out, at, b' ');
    }
    from + count
}

// Stores a number's digits behind as many spaces as fill the width, as far as the buffer has places, and returns the
// place behind them. A number with more digits than the width is stored whole.
fn put_right(out: &mut [u8], at: usize, width: usize, n: u64) -> usize
    requires { at + width ≤ 2 ^ 62 }
    ensures { Wrote out.old at (right_aligned width n) result out.new }
{
    let before = width.saturating_sub(1);
    if n < 10 {
        let digit = put_spaces(out, at, before);
        return put_byte(out, digit, b'0' + n as u8);
    }
    let last = put_right(out, at, before, n / 10);
    put_byte(out, last, b'0' + (n % 10) as u8)
}

// The digits alone (S 6.1).
pub fn put_number(out: &mut [u8], at: usize, n: u64) -> usize
    requires { at ≤ 2 ^ 62 }
    ensures { Wrote out.old at (decimal n) result out.new }
{
    put_right(out, at, 0, n)
}

// A number right aligned, with the byte that ends it (S 6.5).
pub fn put_column(out: &mut [u8], at: usize, width: usize, n: u64, end: u8) -> usize
    requires { at + width ≤ 2 ^ 62 }
    ensures { Wrote out.old at (column_text width n end) result out.new × (result ≤ at + width + 21) }
{
    let last = put_right(out, at, width, n);
    put_byte(out, last, end)
}

// A number with the byte that ends it (S 6.1).
pub fn put_field(out: &mut [u8], at: usize, n: u64, end: u8) -> usize
    requires { at ≤ 2 ^ 62 }
    ensures { Wrote out.old at (field_text n end) result out.new }
{
    put_column(out, at, 0, n, end)
}

// How many digits a number below 100,000 has.
fn short_length(n: u64) -> usize
    requires { n < 100000 }
    ensures { result ≡ length (decimal n) }
{
    if n < 10 {
        return 1;
    }
    if n < 100 {
        return 2;
    }
    if n < 1000 {
        return 3;
    }
    if n < 10000 {
        return 4;
    }
    5
}

// How long a number is with the byte that ends it, without writing it. Five digits are taken off at a time, so that
// comparisons alone tell it of a number that has no more.
pub fn field_length(n: u64) -> usize
    ensures { (result ≡ length (decimal n) + 1) × (result ≤ 21) }
{
    let mut rest = n;
    let mut bytes: usize = 1;
    while 100000 <= rest {
        rest = rest / 100000;
        bytes += 5;
    }
    bytes + short_length(rest)
}
