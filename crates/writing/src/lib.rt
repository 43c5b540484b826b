// Text in a lent buffer, by templates in which each `%` stands for a number. Each function writes from a place on and gives the place after
// what it wrote. A struct that held the lent buffer and the place would need a clause in each contract that it still holds the same buffer.
#![tactic(auto)]

ghost use Rattle.std.specs.Prelude.{◌≡◌, ◌∷◌, [], ◌+◌, ◌*◌, ◌%◌, ◌≤◌, ◌<◌, length, get_or, drop};
ghost use Rattle.lists.specs.Decimals.{digit, decimal};
ghost use Rattle.writing.specs.Templates.{piece, used_after, filled, after_lines, line_of, Wrote, Templated};

use lists::words;
use lists::words::Mark;

// The most numbers that a template of this repository takes, for a caller that keeps them in an array; a slice may have any number of them.
pub const MOST: usize = 8;

// The last decimal digit of n.
fn last_digit(n: u32) -> u8
    ensures { result ≡ digit (n % 10) }
{
    b'0' + (n % 10) as u8
}

fn put_byte(buffer: &mut [u8], at: usize, byte: u8) -> usize
    requires { at + 1 ≤ length buffer.old }
    ensures { Wrote 1 buffer.old buffer.new at result (byte ∷ []) }
{
    buffer[at] = byte;
    at + 1
}

// A number in decimal.
fn put_digits(buffer: &mut [u8], at: usize, n: u32) -> usize
    requires { at + length (decimal n) ≤ length buffer.old }
    ensures { Wrote 10 buffer.old buffer.new at result (decimal n) }
{
    if n < 10 {
        return put_byte(buffer, at, last_digit(n));
    }
    let next = put_digits(buffer, at, n / 10);
    put_byte(buffer, next, last_digit(n))
}

// The same where there is room for any number.
fn put_number(buffer: &mut [u8], at: usize, n: u32) -> usize
    requires { at + 10 ≤ length buffer.old }
    ensures { Wrote 10 buffer.old buffer.new at result (decimal n) }
{
    put_digits(buffer, at, n)
}

// Number i; 0 past them.
fn number_at(numbers: &[u32], i: usize) -> u32
    ensures { result ≡ get_or numbers.now i 0 }
{
    numbers.get(i).copied().unwrap_or(0)
}

// A byte of a template: the number for a `%`, and else the byte.
fn put_piece(buffer: &mut [u8], at: usize, byte: u8, number: u32) -> usize
    requires { at + 10 ≤ length buffer.old }
    ensures { Wrote 10 buffer.old buffer.new at result (piece byte number) }
{
    if byte == b'%' {
        return put_number(buffer, at, number);
    }
    put_byte(buffer, at, byte)
}

fn used_after(byte: u8, used: usize) -> usize
    requires { used < 18446744073709551615 }
    ensures { result ≡ used_after byte used }
{
    if byte == b'%' {
        return used + 1;
    }
    used
}

// A text in which each `%` of the template stands for the next of the numbers.
fn put_filled(buffer: &mut [u8], at: usize, template: &[u8], numbers: &[u32]) -> usize
    requires { at + 10 * length template.now ≤ length buffer.old }
    ensures { Wrote (10 * length template.now) buffer.old buffer.new at result (filled template.now numbers.now) }
{
    let mut next = at;
    let mut used = 0;
    for &byte in template {
        next = put_piece(buffer, next, byte, number_at(numbers, used));
        used = used_after(byte, used);
    }
    next
}

// The same with room or without. No entry; where there are not ten bytes for each byte of the template it writes nothing and gives the place
// that it was given.
pub fn put_template(buffer: &mut [u8], at: usize, template: &[u8], numbers: &[u32]) -> usize
    ensures { Templated template.now numbers.now buffer.old buffer.new at result }
{
    if buffer.len() < at {
        return at;
    }
    if (buffer.len() - at) / 10 < template.len() {
        return at;
    }
    put_filled(buffer, at, template, numbers)
}

// Where line k of a text starts, counted from 0; its length past the last line.
fn line_start(text: &[u8], k: usize) -> usize
    ensures { (result ≤ length text.now) × (drop result text.now ≡ after_lines k text.now) }
{
    let mut at = 0;
    for i in 0..k {
        let end = words::find(Mark::LineEnd, text, at);
        if text.len() <= end {
            return text.len();
        }
        at = end + 1;
    }
    at
}

// Line k of a text, counted from 0, as a template. No entry; it writes nothing where put_template would not.
pub fn put_line(buffer: &mut [u8], at: usize, text: &[u8], k: usize, numbers: &[u32]) -> usize
    ensures { Templated (line_of text.now k) numbers.now buffer.old buffer.new at result }
{
    let start = line_start(text, k);
    let end = words::find(Mark::LineEnd, text, start);
    put_template(buffer, at, &text[start..end], numbers)
}
