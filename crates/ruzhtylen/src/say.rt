// What is written: answers on standard output, messages on standard error, and the status on a descriptor of its own. A write that fails
// turns the status into 2, and one to standard error that fails has nobody to be told to.
use crate::arguments;
use std::fmt::InlineText;
use std::io::Error;
use std::rt::Env;

// What is answered.
#[derive(Clone, Copy, PartialEq, Eq, PartialOrd, Ord)]
pub enum Answer {
    Yes,
    No,
}

impl From<bool> for Answer {
    fn from(yes: bool) -> Answer {
        if yes { Answer::Yes } else { Answer::No }
    }
}

// That nothing is answered. Why has been said.
#[derive(Clone, Copy, PartialEq, Eq, PartialOrd, Ord)]
pub enum Failure {
    NotAnswered,
    // Standard output cannot be written, after which nothing more is asked.
    NotWritten,
}

// How a call ends. The worse of two is the greater.
pub type Outcome = Result<Answer, Failure>;

// The descriptors of the messages and of the status. A name in a message need not be text, which is all that std's Eprint takes. The status
// has a descriptor of its own, so that a program that was ended tells none; std writes to no other than the three standard ones.
const STDERR_FILENO: i32 = 2;

const STATUS_FILENO: i32 = 3;

// Writes to standard output.
fn print(rt: &impl Print, text: &[u8]) -> Result<(), Failure> {
    match rt.write_all(text) {
        Ok(()) => Ok(()),
        Err(error) => {
            fail(b"standard output", error);
            Err(Failure::NotWritten)
        }
    }
}

// Writes an answer to standard output.
pub fn print_answer(rt: &impl Print, answer: Answer, text: &[u8]) -> Outcome {
    print(rt, text)?;
    Ok(answer)
}

pub fn message(text: &[u8]) {
    io::write_all(STDERR_FILENO, text);
}

// The words of an error, without the number that stands after them where the system gave it.
fn words_of(text: &str) -> &str {
    match text.split_once(" (os error ") {
        Some((words, _)) => words,
        None => text,
    }
}

// A message of what failed, and why.
pub fn fail(what: &[u8], error: Error) -> Failure {
    let text = InlineText::<128>::of(error);
    message(what);
    message(b": ");
    message(words_of(text.as_str()).as_bytes());
    message(b"\n");
    Failure::NotAnswered
}

// Argument i as it is shown, which is put into a buffer of `arguments::SIZE` bytes.
pub fn shown<'a>(rt: &impl Env, i: usize, buffer: &'a mut [u8]) -> &'a [u8] {
    match rt.arg(i, buffer) {
        Ok(length) => {
            command::show(buffer);
            &buffer[..length]
        }
        Err(_) => b"of more than 4096 bytes",
    }
}

// The same of a file's name; `-` is standard input.
fn shown_name<'a>(rt: &impl Env, i: usize, buffer: &'a mut [u8]) -> &'a [u8] {
    if arguments::is_input(rt, i) {
        return b"standard input";
    }
    shown(rt, i, buffer)
}

// Argument i, within a message, as it is shown.
fn argument(rt: &impl Env, i: usize) {
    let mut buffer = [0u8; arguments::SIZE];
    message(shown(rt, i, &mut buffer));
}

// A message that ends in argument i and in what to do: what comes before the argument is one write.
pub fn unknown(rt: &impl Env, i: usize, what: &[u8], what_to_do: &[u8]) -> Failure {
    message(what);
    argument(rt, i);
    message(what_to_do);
    Failure::NotAnswered
}

// A message about the file that is argument i.
pub fn about(rt: &impl Env, i: usize, text: &[u8]) {
    let mut buffer = [0u8; arguments::SIZE];
    message(shown_name(rt, i, &mut buffer));
    message(b": ");
    message(text);
}

// A line of standard output about the file that is argument i.
pub fn print_about(rt: &(impl Env + Print), i: usize, text: &[u8]) -> Result<(), Failure> {
    let mut buffer = [0u8; arguments::SIZE];
    print(rt, shown_name(rt, i, &mut buffer))?;
    print(rt, b": ")?;
    print(rt, text)
}

// Writes the status. Where nobody listens it is lost, and the command takes a missing status for 2.
pub fn status(outcome: Outcome) {
    let digit = match outcome {
        Ok(Answer::Yes) => b"0",
        Ok(Answer::No) => b"1",
        Err(_) => b"2",
    };
    io::write_all(STATUS_FILENO, digit);
}
