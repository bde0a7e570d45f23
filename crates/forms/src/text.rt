// The text of a call sheet: places of bytes, whole numbers, bit patterns, and the digits of answers.
ghost use Rattle.std.specs.Prelude.{◌≡◌, true, false, get_or, ◌+◌, ◌-◌, ◌*◌, ◌<◌, ◌≤◌, Some, None, [], ◌∷◌, length, take, drop, if◌then◌else◌, from_bits};
ghost use Rattle.std.specs.Float.{binary64};
ghost use Rattle.forms.specs.Letters.{digit_zero};
ghost use Rattle.forms.specs.Text as spec;
ghost use Rattle.laws.specs.Options.{as_code};
ghost use Rattle.forms.specs.TextRead.{field_of};
ghost use Rattle.forms.specs.Reading.{block, digit_of, digit_run, run};
ghost use Rattle.forms.specs.Written.{Wrote};

use lit::NONE;

pub const TAB: u8 = 9;

pub const NEWLINE: u8 = 10;

// The whole number that a field is, and the place behind the field.
#[derive(Clone, Copy)]
pub struct Field {
    pub value: u64,
    pub end: usize,
}

// The place of the first such byte, or the length.
pub fn find(bytes: &[u8], b: u8) -> usize
    ensures { result ≡ spec.find b bytes.now }
{
    for (i, x) in bytes.iter().enumerate() {
        if *x == b {
            return i;
        }
    }
    bytes.len()
}

// So many bytes are counted at a time: a count below 256 is kept in a byte, which is faster.
const BLOCK: usize = 240;

// How often a byte stands in at most so many bytes.
fn occurs_in_block(bytes: &[u8], b: u8) -> u8
    requires { length bytes.now ≤ block }
    ensures { result ≡ spec.occurs b bytes.now }
{
    let mut count = 0;
    for x in bytes {
        if *x == b {
            count += 1;
        }
    }
    count
}

// How often a byte stands in the bytes.
pub fn occurs(bytes: &[u8], b: u8) -> usize
    ensures { result ≡ spec.occurs b bytes.now }
{
    let mut count = 0;
    for part in bytes.chunks(BLOCK) {
        count += occurs_in_block(part, b) as usize;
    }
    count
}

// The value of a decimal digit.
fn digit(b: u8) -> Option<u8>
    ensures { result ≡ digit_of b }
{
    if b < b'0' || b > b'9' {
        return None;
    }
    Some(b - b'0')
}

// Whether a zero leads these digits.
fn zero_leads(digits: &[u8]) -> bool
    requires { 0 < length digits.now }
    ensures leads { result ≡ true → get_or digits.now 0 0 ≡ digit_zero }
    ensures other { result ≡ false → get_or digits.now 0 0 ≡ digit_zero → ⊥ }
{
    digits[0] == b'0'
}

// Whether a number up to the greatest has no room for this digit behind it.
fn is_full(value: u64, d: u8, top: u64) -> bool
    ensures full { result ≡ true → top < value * 10 + d }
    ensures room { result ≡ false → d < 10 → value * 10 + d ≤ top }
{
    let tenth = top / 10;
    value >= tenth && (value > tenth || d as u64 > top % 10)
}

// The whole number, up to the greatest that may stand there, of the digits from a place on, and the place behind them.
pub fn digits_at(bytes: &[u8], at: usize, top: u64) -> Option<Field>
    requires { at ≤ length bytes.now }
    ensures { result ≡ field_of (at + digit_run (drop at bytes.now)) (spec.number_up_to top (run (drop at bytes.now))) }
{
    if at == bytes.len() {
        return None;
    }
    let first = digit(bytes[at])?;
    if first as u64 > top {
        return None;
    }
    let mut value = first as u64;
    let mut end = at + 1;
    // a while: it ends at the first byte that is no digit, and where no number goes on
    while end < bytes.len() {
        let Some(d) = digit(bytes[end]) else {
            break;
        };
        if zero_leads(&bytes[at..end]) || is_full(value, d, top) {
            return None;
        }
        value = value * 10 + d as u64;
        end += 1;
    }
    Some(Field { value, end })
}

// A whole number in decimal: no leading zero, at most 4294967295.
pub fn number(field: &[u8]) -> Option<u32>
    ensures { result ≡ as_code (spec.number field.now) }
{
    let Field { value, end } = digits_at(field, 0, NONE as u64)?;
    if end < field.len() {
        return None;
    }
    Some(value as u32)
}

// The whole number of the field from a place up to the next tab or the end, and the place behind it.
pub fn number_at(bytes: &[u8], at: usize, top: u64) -> Option<Field>
    requires { at ≤ length bytes.now }
    ensures { result ≡ field_of (at + spec.find spec.tab (drop at bytes.now)) (spec.number_up_to top (take (spec.find spec.tab (drop at bytes.now)) (drop at bytes.now))) }
{
    let field = digits_at(bytes, at, top)?;
    if field.end < bytes.len() && bytes[field.end] != TAB {
        return None;
    }
    Some(field)
}

// The value of a lower-case hexadecimal digit, or 16 where the byte is none: a number, so that sixteen bytes are looked at without a branch.
fn hex_digit(b: u8) -> u8
    ensures { result ≡ (if spec.is_hex b then spec.hex_digit b else 16) }
{
    let low = std::num::wrapping_sub_u8(b, b'0');
    let high = std::num::wrapping_sub_u8(b, b'a');
    let mut d = 16;
    if high < 6 {
        d = high + 10;
    }
    if low < 10 {
        d = low;
    }
    d
}

// A pattern of 64 bits as 16 lower-case hexadecimal digits.
pub fn pattern(field: &[u8]) -> Option<u64>
    ensures { result ≡ as_code (spec.pattern field.now) }
{
    if field.len() != 16 {
        return None;
    }
    let mut v: u64 = 0;
    let mut worst: u8 = 0;
    for b in field {
        let d = hex_digit(*b);
        worst = worst.max(d);
        v = v * 16 + (d % 16) as u64;
    }
    if worst >= 16 {
        return None;
    }
    Some(v)
}

// The bit of the sign, and the pattern of infinity: one above it, the sign aside, is a NaN's.
const SIGN_BIT: u64 = 0x8000_0000_0000_0000;

const INFINITY: u64 = 0x7ff0_0000_0000_0000;

// The double of a pattern; every pattern of a NaN gives a NaN.
pub fn double(bits: u64) -> f64
    ensures { result ≡ from_bits binary64 bits }
{
    if bits % SIGN_BIT > INFINITY {
        return 0.0 / 0.0;
    }
    f64::from_bits(bits)
}

// How many decimal digits a number has: four at a time, then the last ones.
pub fn digit_count(v: u64) -> usize
    ensures { result ≡ length (spec.digits_by 20 v) }
{
    let mut k = 0;
    let mut left = v;
    // a while: it goes by the value that is left
    while left >= 10000 {
        k += 4;
        left /= 10000;
    }
    if left < 10 {
        return k + 1;
    }
    if left < 100 {
        return k + 2;
    }
    if left < 1000 {
        return k + 3;
    }
    k + 4
}

// Writes the decimal digits of a number from a place on, the last one first, and gives the place behind them.
fn put_long(out: &mut [u8], at: usize, v: u64) -> usize
    requires { at + length (spec.digits_by 20 v) ≤ length out.old }
    ensures { Wrote at (spec.digits_by 20 v) out.old out.new result }
{
    let end = at + digit_count(v);
    let mut left = v;
    let mut i = end;
    while left >= 10 {
        i -= 1;
        out[i] = b'0' + (left % 10) as u8;
        left /= 10;
    }
    out[at] = b'0' + left as u8;
    end
}

// Writes a decimal digit at a place, and gives the place behind it.
fn put_digit(out: &mut [u8], at: usize, d: u64) -> usize
    requires { (d < 10) × (at < length out.old) }
    ensures { Wrote at ((digit_zero + d) ∷ []) out.old out.new result }
{
    out[at] = b'0' + d as u8;
    at + 1
}

// Writes the decimal digits of a number from a place on, and gives the place behind them: most numbers are short.
pub fn put_number(out: &mut [u8], at: usize, v: u64) -> usize
    requires { at + length (spec.digits_by 20 v) ≤ length out.old }
    ensures { Wrote at (spec.digits_by 20 v) out.old out.new result }
{
    if v < 10 {
        return put_digit(out, at, v);
    }
    if v < 100 {
        let ones = put_digit(out, at, v / 10);
        return put_digit(out, ones, v % 10);
    }
    if v < 1000 {
        let tens = put_digit(out, at, v / 10 / 10);
        let ones = put_digit(out, tens, v / 10 % 10);
        return put_digit(out, ones, v % 10);
    }
    put_long(out, at, v)
}
