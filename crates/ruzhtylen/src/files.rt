// Files that are arguments, read whole. What goes wrong is said.
use crate::say::Failure;
use crate::{arguments, say};
use std::fmt::InlineText;
use std::io::Read;
use std::rt::{Env, Files};
use std::{fs, io};

// A byte more than the most that is read of a file, so that a longer one shows.
pub const SIZE: usize = 65537;

// The size of a path in the folder that the command lends: a folder of at most `arguments::SIZE` bytes, a slash and a number.
const PATH_SIZE: usize = 4117;

// Reads a file to its end, or until the room is full; `shown` is the file's name as it is shown.
fn read_all<'a>(
    file: impl Read + Drop,
    shown: &[u8],
    room: &'a mut [u8; SIZE],
) -> Result<&'a [u8], Failure> {
    let mut rest = &mut room[..];
    match io::copy(&mut file.take(SIZE as u64), &mut rest) {
        Ok(count) => Ok(&room[..room.len().min(count as usize)]),
        Err(error) => Err(say::fail(shown, error)),
    }
}

// Without the command nobody lends a file whose name is not text.
fn refuse_name(shown: &[u8]) -> Failure {
    say::message(shown);
    say::message(
        b": a name that is not UTF-8 is not opened; hand the file in as standard input, -\n",
    );
    Failure::NotAnswered
}

fn read_text_named<'a>(
    rt: &impl Files,
    name: &str,
    shown: &[u8],
    room: &'a mut [u8; SIZE],
) -> Result<&'a [u8], Failure> {
    match fs::open(rt, name) {
        Ok(file) => read_all(file, shown, room),
        Err(error) => Err(say::fail(shown, error)),
    }
}

// The path of argument i in the folder that the command lends; none where there is no such folder.
fn lent_path(rt: &impl Env, i: usize) -> Option<InlineText<PATH_SIZE>> {
    let mut buffer = [0u8; arguments::SIZE];
    let length = rt.var("RUZHTYLEN_NAMES", &mut buffer).ok()?;
    let folder = str::from_utf8(&buffer[..length]).ok()?;
    if folder.is_empty() {
        return None;
    }
    Some(InlineText::of(format_args!("{folder}/{i}")))
}

// A path of std is text. The command lends files of other names under their numbers as arguments.
fn read_named<'a>(
    rt: &(impl Env + Files),
    i: usize,
    name: &[u8],
    shown: &[u8],
    room: &'a mut [u8; SIZE],
) -> Result<&'a [u8], Failure> {
    if let Ok(name) = str::from_utf8(name) {
        return read_text_named(rt, name, shown, room);
    }
    match lent_path(rt, i) {
        Some(path) => read_text_named(rt, path.as_str(), shown, room),
        None => Err(refuse_name(shown)),
    }
}

fn read_argument<'a>(
    rt: &(impl Env + Files + Input),
    i: usize,
    room: &'a mut [u8; SIZE],
) -> Result<&'a [u8], Failure> {
    if arguments::is_input(rt, i) {
        return read_all(rt.reader(), b"standard input", room);
    }
    let mut name = [0u8; arguments::SIZE];
    let mut shown = [0u8; arguments::SIZE];
    read_named(
        rt,
        i,
        arguments::read(rt, i, &mut name),
        say::shown(rt, i, &mut shown),
        room,
    )
}

// Reads the file that is argument i.
pub fn read<'a>(
    rt: &(impl Env + Files + Input),
    i: usize,
    room: &'a mut [u8; SIZE],
) -> Result<&'a [u8], Failure> {
    let content = read_argument(rt, i, room)?;
    if content.len() == SIZE {
        say::about(rt, i, b"longer than 65536 bytes, the most that is read\n");
        return Err(Failure::NotAnswered);
    }
    Ok(content)
}
