// Runs stored cases through every entry: input frames on standard input, output frames on standard output. The frames are those of
// reference/README.md; a frame of an entry that is not known is read and not answered.
#![tactic(auto)]

use std::io;
use std::io::Read;

mod calls;
mod reply;
mod tables;

// A buffer that holds every block.
const ROOM: usize = 65536;

// An input frame's length, its entry and how many numbers it has.
const HEAD: usize = 4;

// The most bytes that numbers have, and how many numbers are used.
const NUMBERS: usize = 510;

const USED: usize = 4;

// Fills a buffer. What is missing where the input ends stays as it is.
fn fill(input: &mut impl Read, buffer: &mut [u8]) {
    let _ = input.read_exact(buffer);
}

// Reads a block, where there is one more.
fn read_block<'a>(
    input: &mut impl Read,
    is_there: bool,
    buffer: &'a mut [u8; ROOM],
) -> &'a mut [u8] {
    let mut size = [0u8; 2];
    if is_there {
        fill(input, &mut size);
    }
    let block = &mut buffer[..usize::from(u16::from_be_bytes(size))];
    fill(input, block);
    block
}

// The numbers of a frame that has `count` of them; 0 where it has fewer.
fn read_numbers(input: &mut impl Read, count: u8) -> [u16; USED] {
    let mut bytes = [0u8; NUMBERS];
    fill(input, &mut bytes[..2 * usize::from(count)]);
    [
        u16::from_be_bytes([bytes[0], bytes[1]]),
        u16::from_be_bytes([bytes[2], bytes[3]]),
        u16::from_be_bytes([bytes[4], bytes[5]]),
        u16::from_be_bytes([bytes[6], bytes[7]]),
    ]
}

// Calls the entry. The first two numbers are the range wherever there is one, and the next two the priorities.
fn call(rt: &impl Print, entry: u8, numbers: [u16; USED], a: &[u8], b: &mut [u8], c: &mut [u8]) {
    let [low, high, lowest, highest] = numbers.map(|number| (number % 256) as u8);
    match entry {
        1 => calls::read_jobs(rt, a),
        2 => calls::write_jobs(rt, a, numbers[0], b),
        3 => calls::read_configuration(rt, a, low, high, b),
        4 => calls::write_configuration(rt, a, low, high, b, numbers[2], c),
        5 => calls::bounds(rt, a, low, high, b, c),
        6 => calls::mark(rt, a, low, high, b, c),
        7 => calls::plan(rt, a, low, high, b, c),
        8 => calls::same_bytes(rt, a, b),
        9 => calls::edit(rt, a, numbers[0], numbers[1], numbers[2], numbers[3]),
        10 => calls::key(rt, a, low, high),
        11 => calls::to_kernel(rt, a, low, high, lowest, highest, b, c),
        12 => calls::from_kernel(rt, a, low, high, lowest, highest, b, c),
        13 => calls::breakdown(rt, a, low, high, b, c),
        14 => calls::gate_plan(rt, a, low, high, b, c),
        15 => calls::gate_mark(rt, a, low, high, b, c),
        _ => {}
    }
}

// Reads a frame and answers it. An error is the end of the input.
fn answer_next(
    rt: &impl Print,
    input: &mut impl Read,
    a: &mut [u8; ROOM],
    b: &mut [u8; ROOM],
    c: &mut [u8; ROOM],
) -> io::Result<()> {
    let mut head = [0u8; HEAD];
    input.read_exact(&mut head)?;
    let numbers = read_numbers(input, head[3]);
    let mut blocks = [0u8; 1];
    fill(input, &mut blocks);
    let a = read_block(input, 0 < blocks[0], a);
    let b = read_block(input, 1 < blocks[0], b);
    let c = read_block(input, 2 < blocks[0], c);
    call(rt, head[2], numbers, a, b, c);
    Ok(())
}

fn main(rt: HostRuntime) {
    let mut input = rt.reader();
    let mut a = [0u8; ROOM];
    let mut b = [0u8; ROOM];
    let mut c = [0u8; ROOM];
    for _ in 0..u64::MAX {
        if answer_next(&rt, &mut input, &mut a, &mut b, &mut c).is_err() {
            return;
        }
    }
}
