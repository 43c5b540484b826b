// Keys of several job blocks, one after the other: each block on standard input stands after its lowest quantum, its highest quantum
// and its length in bytes.
#![tactic(auto)]

use std::io;
use std::io::Read;

// Prints the key of a block.
fn print_key(rt: &impl Print, low: u8, high: u8, block: &[u8]) {
    let mut output = [0u8; text::key::SIZE];
    let length = text::key::key(block, low, high, &mut output);
    // A key that cannot be written has nobody to be told to.
    let _ = rt.write_all(&output[..length]);
}

// Reads as much of the input as a buffer holds: of a block that the input cuts short, what there is counts.
fn read_block<'a>(input: &mut impl Read, buffer: &'a mut [u8]) -> &'a [u8] {
    let size = buffer.len();
    let mut rest = &mut buffer[..];
    // A read that is not the last one gives a byte or more.
    for _ in 0..size {
        match input.read(rest) {
            Ok(0) | Err(_) => break,
            Ok(count) => rest = &mut rest[count..],
        }
        if rest.is_empty() {
            break;
        }
    }
    let left = rest.len();
    &buffer[..size.saturating_sub(left)]
}

// Prints the key of the block that comes next, with its three numbers before it. An error is the end of the input.
fn print_next(rt: &impl Print, input: &mut impl Read) -> io::Result<()> {
    let mut header = [0u8; 3];
    input.read_exact(&mut header)?;
    let [low, high, size] = header;
    let mut buffer = [0u8; 255];
    let block = read_block(input, &mut buffer[..usize::from(size)]);
    print_key(rt, low, high, block);
    Ok(())
}

fn main(rt: HostRuntime) {
    let mut input = rt.reader();
    for _ in 0..u64::MAX {
        if print_next(&rt, &mut input).is_err() {
            return;
        }
    }
}
