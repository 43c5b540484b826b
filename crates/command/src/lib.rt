// What the words of a command mean: the word for what is asked, the options, a range, and how a name is shown.
#![tactic(auto)]

ghost use Rattle.std.specs.Prelude.{◌≡◌, map};
ghost use Rattle.command.specs.Words.{other_word, word_of, is_option, other_argument, argument_of, shown_byte};

use same_bytes::same_bytes;

pub mod span;

// What is asked.
#[derive(Clone, Copy, Debug, PartialEq, Eq)]
pub enum Word {
    Key,
    Mark,
    Bounds,
    Explain,
    Loader,
    Block,
    Text,
    Install,
    Help,
    Unknown,
}

// What an argument after the word is: an option, the end of the options, or a name.
#[derive(Clone, Copy, Debug, PartialEq, Eq)]
pub enum Argument {
    Quanta,
    Priorities,
    Blocks,
    Configuration,
    Back,
    Bytes,
    End,
    UnknownOption,
    Name,
}

// The words that ask for no answer about a list.
#[tactic(auto, unfolding(crate::specs::Words::other_word))]
fn other_word(argument: &[u8]) -> Word
    ensures { result ≡ other_word argument.now }
{
    if same_bytes(argument, b"block") {
        return Word::Block;
    }
    if same_bytes(argument, b"text") {
        return Word::Text;
    }
    if same_bytes(argument, b"install") {
        return Word::Install;
    }
    if same_bytes(argument, b"help") {
        return Word::Help;
    }
    if same_bytes(argument, b"--help") {
        return Word::Help;
    }
    if same_bytes(argument, b"-h") {
        return Word::Help;
    }
    Word::Unknown
}

// The word for what is asked. No entry. A match on byte strings would tell the proof their lengths alone.
#[tactic(auto, unfolding(crate::specs::Words::word_of))]
pub fn word_of(argument: &[u8]) -> Word
    ensures { result ≡ word_of argument.now }
{
    if same_bytes(argument, b"key") {
        return Word::Key;
    }
    if same_bytes(argument, b"mark") {
        return Word::Mark;
    }
    if same_bytes(argument, b"bounds") {
        return Word::Bounds;
    }
    if same_bytes(argument, b"explain") {
        return Word::Explain;
    }
    if same_bytes(argument, b"loader") {
        return Word::Loader;
    }
    other_word(argument)
}

// Whether an argument begins with two hyphens, as options do.
#[tactic(auto, unfolding(crate::specs::Words::is_option))]
fn is_option(argument: &[u8]) -> bool
    ensures { result ≡ is_option argument.now }
{
    argument.starts_with(b"--")
}

// What an argument is that is no option that there is.
#[tactic(auto, unfolding(crate::specs::Words::other_argument))]
fn other_argument(argument: &[u8]) -> Argument
    ensures { result ≡ other_argument argument.now }
{
    if same_bytes(argument, b"--") {
        return Argument::End;
    }
    if is_option(argument) {
        return Argument::UnknownOption;
    }
    Argument::Name
}

// What an argument after the word is. No entry.
#[tactic(auto, unfolding(crate::specs::Words::argument_of))]
pub fn argument_of(argument: &[u8]) -> Argument
    ensures { result ≡ argument_of argument.now }
{
    if same_bytes(argument, b"--quanta") {
        return Argument::Quanta;
    }
    if same_bytes(argument, b"--priorities") {
        return Argument::Priorities;
    }
    if same_bytes(argument, b"--block") {
        return Argument::Blocks;
    }
    if same_bytes(argument, b"--configuration") {
        return Argument::Configuration;
    }
    if same_bytes(argument, b"--back") {
        return Argument::Back;
    }
    if same_bytes(argument, b"--bytes") {
        return Argument::Bytes;
    }
    other_argument(argument)
}

// A byte of a name as it is shown: a control byte is a question mark, so that a name stays on its line.
fn shown(byte: u8) -> u8
    ensures { result ≡ shown_byte byte }
{
    if byte.is_ascii_control() { b'?' } else { byte }
}

// Puts a name in its place as it is shown. No entry.
pub fn show(name: &mut [u8])
    ensures { name.new ≡ map shown_byte name.old }
{
    for byte in name.iter_mut() {
        *byte = shown(*byte);
    }
}
