// The key program: a job block from standard input, and its key on standard output. What it decides is in `text::program`.
#![tactic(auto)]

use std::io;
use std::io::Read;

fn main(rt: HostRuntime) {
    let mut input = text::program::input();
    let mut rest = &mut input[..];
    let most = rest.len() as u64;
    // Of an input that cannot be read to its end, what came before the error is the block.
    let _ = io::copy(&mut rt.reader().take(most), &mut rest);
    let left = rest.len();
    let block = &input[..input.len().saturating_sub(left)];
    let mut output = [0u8; text::key::SIZE];
    let length = text::program::key(block, &mut output);
    // A key that cannot be written has nobody to be told to.
    let _ = rt.write_all(&output[..length]);
}
