// The program behind the command: it reads the files that the arguments name, asks, and writes. Answers go to standard output, messages to
// standard error, and the status, a digit, to descriptor 3.
#![tactic(auto)]

mod arguments;
mod asked;
mod files;
mod hand_ins;
mod list;
mod loading;
mod refused;
mod say;
mod source;
mod texts;
mod words;

use asked::Asked;
use command::Word;
use say::{Answer, Failure, Outcome};
use std::rt::{Env, Files};

fn wrong(text: &[u8]) -> Failure {
    say::message(b"ruzhtylen: ");
    say::message(text);
    Failure::NotAnswered
}

// Says what is wrong where a word that takes a list is given other options or another number of names than it takes.
fn check_names(asked: &Asked, fits: bool, usage: &[u8]) -> Result<(), Failure> {
    if asked.configuration {
        return Err(wrong(b"--configuration is an option of block and text\n"));
    }
    if !fits {
        return Err(wrong(usage));
    }
    Ok(())
}

fn key(rt: &(impl Env + Files + Input + Print), asked: &Asked) -> Outcome {
    let usage = b"key takes one LIST; 'ruzhtylen help key' says more\n";
    check_names(asked, asked.names == 1, usage)?;
    words::key(rt, asked)
}

fn mark(rt: &(impl Env + Files + Input + Print), asked: &Asked) -> Outcome {
    let usage = b"mark takes a LIST and a HAND-IN or more; 'ruzhtylen help mark' says more\n";
    check_names(asked, 2 <= asked.names, usage)?;
    hand_ins::mark(rt, asked)
}

fn bounds(rt: &(impl Env + Files + Input + Print), asked: &Asked) -> Outcome {
    let usage = b"bounds takes a LIST and a CONFIGURATION; 'ruzhtylen help bounds' says more\n";
    check_names(asked, asked.names == 2, usage)?;
    words::bounds(rt, asked)
}

fn explain(rt: &(impl Env + Files + Input + Print), asked: &Asked) -> Outcome {
    let usage = b"explain takes a LIST and a CONFIGURATION; 'ruzhtylen help explain' says more\n";
    check_names(asked, asked.names == 2, usage)?;
    words::explain(rt, asked)
}

fn loader(rt: &(impl Env + Files + Input + Print), asked: &Asked) -> Outcome {
    let usage =
        b"loader takes a LIST and a CONFIGURATION, or with --back a LIST and RECORDS; 'ruzhtylen help loader' says more\n";
    check_names(asked, asked.names == 2, usage)?;
    match asked.priorities {
        Some(priorities) => loading::loader(rt, asked, priorities),
        None => Err(wrong(
            b"loader needs --priorities LOWEST-HIGHEST, those that the kernel has, as 1-99\n",
        )),
    }
}

// Says what is wrong where a word that changes a file's form is given other options or another number of names than it takes.
fn check_form(asked: &Asked) -> Result<(), Failure> {
    if asked.quanta.is_some() {
        return Err(wrong(b"--quanta is an option of key, mark, bounds, explain and loader\n"));
    }
    if asked.blocks {
        return Err(wrong(b"--block is an option of key, mark, bounds, explain and loader\n"));
    }
    if asked.names != 1 {
        return Err(wrong(b"block and text take one FILE; 'ruzhtylen help' says more\n"));
    }
    Ok(())
}

fn block(rt: &(impl Env + Files + Input + Print), asked: &Asked) -> Outcome {
    check_form(asked)?;
    words::block(rt, asked)
}

fn text(rt: &(impl Env + Files + Input + Print), asked: &Asked) -> Outcome {
    check_form(asked)?;
    texts::text(rt, asked)
}

// The word that is argument i; an unknown one where there is none.
fn word_at(rt: &impl Env, i: usize) -> Word {
    let mut buffer = [0u8; arguments::SIZE];
    command::word_of(arguments::read(rt, i, &mut buffer))
}

// Says that argument i is no word.
fn unknown_word(rt: &impl Env, i: usize) -> Failure {
    say::unknown(
        rt,
        i,
        b"ruzhtylen: unknown word ",
        b"; 'ruzhtylen help' lists the words\n",
    )
}

fn say_help(rt: &(impl Env + Print)) -> Outcome {
    let count = asked::count(rt);
    if 3 < count {
        return Err(wrong(b"help takes one WORD or none\n"));
    }
    let word = word_at(rt, 2);
    if count == 3 && matches!(word, Word::Unknown) {
        return Err(unknown_word(rt, 2));
    }
    match help::help(rt, word) {
        Ok(()) => Ok(Answer::Yes),
        Err(error) => Err(say::fail(b"standard output", error)),
    }
}

// Without a word all words are told.
fn no_word(rt: &impl Env) -> Failure {
    if 1 < asked::count(rt) {
        return unknown_word(rt, 1);
    }
    say::message(help::all_words());
    Failure::NotAnswered
}

// Answers a word that takes files.
fn answer(rt: &(impl Env + Files + Input + Print), word: Word) -> Outcome {
    let asked = Asked::read(rt)?;
    let is_loading = asked.priorities.is_some() || asked.back || asked.bytes;
    if is_loading && !matches!(word, Word::Loader) {
        return Err(wrong(b"--priorities, --back and --bytes are options of loader\n"));
    }
    match word {
        Word::Key => key(rt, &asked),
        Word::Mark => mark(rt, &asked),
        Word::Bounds => bounds(rt, &asked),
        Word::Explain => explain(rt, &asked),
        Word::Loader => loader(rt, &asked),
        Word::Block => block(rt, &asked),
        Word::Text => text(rt, &asked),
        _ => Err(no_word(rt)),
    }
}

fn main(rt: HostRuntime) {
    let word = word_at(&rt, 1);
    let outcome = match word {
        // What is installed is built in a clone, by the command there.
        Word::Install => Err(wrong(
            b"install is a word of the command in a clone: ./ruzhtylen install PREFIX\n",
        )),
        Word::Help => say_help(&rt),
        Word::Unknown => Err(no_word(&rt)),
        _ => answer(&rt, word),
    };
    say::status(outcome);
}
