// The arguments as bytes, which need not be text.
ghost use Rattle.std.specs.Prelude.{◌≤◌, length};

use std::rt::Env;

// The most bytes of an argument that are read, and the size of a buffer for one.
pub const SIZE: usize = 4096;

// Argument i, which is put into a buffer; nothing where it is missing or longer than the buffer.
pub fn read<'a>(rt: &impl Env, i: usize, buffer: &'a mut [u8]) -> &'a [u8]
    ensures { length result.now ≤ length buffer.old }
{
    match rt.arg(i, buffer) {
        Ok(length) => &buffer[..length],
        Err(_) => b"",
    }
}

// Whether argument i is the name of standard input.
pub fn is_input(rt: &impl Env, i: usize) -> bool {
    let mut buffer = [0u8; SIZE];
    read(rt, i, &mut buffer) == b"-".as_slice()
}
