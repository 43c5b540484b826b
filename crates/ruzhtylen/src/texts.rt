// Blocks as texts.
ghost use Rattle.std.specs.Prelude.{◌<◌};

use crate::asked::Asked;
use crate::list::List;
use crate::say;
use crate::say::{Answer, Failure, Outcome};
use crate::source::Source;
use command::span::Quanta;
use configuration::setting::Setting;
use lists::fields::Form;
use records::job::Job;
use records::record;
use records::refusal::Refusal;
use std::rt::{Env, Files};

// Whether a block of so many bytes holds whole records of this size, at least one and at most 8.
fn is_whole(size: u32, width: u32) -> bool
    requires { 0 < width }
{
    0 < size && size % width == 0 && size / width <= 8
}

fn list_text(rt: &(impl Env + Print), source: Source) -> Outcome {
    if !is_whole(source.size, 8) {
        let list = List {
            source,
            quanta: Quanta { low: 1, high: 4 },
            optioned: false,
        };
        return Err(list.refuse(rt, Refusal::JobCount));
    }
    let block = source.block.as_slice();
    let jobs = record::read(block);
    let mut output = [0u8; tables::LIST_SIZE];
    let length = tables::put_list(jobs, block.len() / Job::SIZE, &mut output);
    say::print_answer(rt, Answer::Yes, &output[..length])
}

// Prints the settings of a block, a line each.
pub fn print_settings(rt: &impl Print, block: &[u8]) -> Outcome {
    let settings = record::read(block);
    let mut output = [0u8; tables::CONFIGURATION_SIZE];
    let n = block.len() / Setting::SIZE;
    let length = tables::put_configuration(settings, n, &mut output);
    say::print_answer(rt, Answer::Yes, &output[..length])
}

fn configuration_text(rt: &(impl Env + Print), source: &Source) -> Outcome {
    if !is_whole(source.size, 4) {
        say::about(
            rt,
            source.index,
            b"not 4 bytes for each of 1 to 8 records\n",
        );
        return Err(Failure::NotAnswered);
    }
    print_settings(rt, source.block.as_slice())
}

pub fn text(rt: &(impl Env + Files + Input + Print), asked: &Asked) -> Outcome {
    let source = Source::load(rt, asked.first, Form::Job, true)?;
    if asked.configuration {
        return configuration_text(rt, &source);
    }
    list_text(rt, source)
}
