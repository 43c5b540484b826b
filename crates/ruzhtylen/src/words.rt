// What each word does with its files.
use crate::asked::Asked;
use crate::list::{Accepted, List};
use crate::say;
use crate::say::{Answer, Failure, Outcome};
use crate::source::Source;
use lists::fields::Form;
use records::refusal::Refusal;
use std::rt::{Env, Files};

// The key of a list.
pub fn key(rt: &(impl Env + Files + Input + Print), asked: &Asked) -> Outcome {
    let list = List::load(rt, asked)?;
    let mut output = [0u8; text::key::SIZE];
    let keyed = text::key::answer_key(list.block(), list.quanta.low, list.quanta.high, &mut output);
    match keyed.answer {
        Ok(yes) => say::print_answer(rt, yes.into(), &output[..keyed.length]),
        Err(refusal) => Err(list.refuse(rt, refusal)),
    }
}

// A list and a range that are accepted, and the configuration that is asked about.
#[derive(Clone, Copy)]
struct Case {
    list: Accepted,
    hand_in: Source,
}

impl Case {
    fn load(rt: &(impl Env + Files + Input), asked: &Asked) -> Result<Case, Failure> {
        let list = Accepted::load(rt, asked)?;
        let hand_in = Source::load(rt, asked.second, Form::Setting, asked.blocks)?;
        Ok(Case { list, hand_in })
    }

    // Says why the configuration is refused.
    fn refuse(&self, rt: &impl Env, refusal: Refusal) -> Failure {
        self.list.refuse_hand_in(rt, &self.hand_in, refusal)
    }
}

// The bounds of a configuration.
pub fn bounds(rt: &(impl Env + Files + Input + Print), asked: &Asked) -> Outcome {
    let case = Case::load(rt, asked)?;
    let list = &case.list.list;
    let mut output = [0u8; text::key::SIZE];
    let told = marking::bounds(
        list.block(),
        list.quanta.low,
        list.quanta.high,
        case.hand_in.block.as_slice(),
        &mut output,
    );
    match told {
        Ok(told) => say::print_answer(rt, told.yes.into(), &output[..told.length]),
        Err(refusal) => Err(case.refuse(rt, refusal)),
    }
}

// Where the ticks of these bounds go.
pub fn explain(rt: &(impl Env + Files + Input + Print), asked: &Asked) -> Outcome {
    let case = Case::load(rt, asked)?;
    let list = &case.list.list;
    let mut output = [0u8; explaining::SIZE];
    let told = explaining::explain(
        list.block(),
        list.quanta.low,
        list.quanta.high,
        case.hand_in.block.as_slice(),
        &mut output,
    );
    match told {
        Ok(told) => say::print_answer(rt, told.yes.into(), &output[..told.length]),
        Err(refusal) => Err(case.refuse(rt, refusal)),
    }
}

// The block of a text.
pub fn block(rt: &(impl Env + Files + Input + Print), asked: &Asked) -> Outcome {
    let form = if asked.configuration {
        Form::Setting
    } else {
        Form::Job
    };
    let source = Source::load(rt, asked.first, form, false)?;
    if source.quanta.is_some() {
        say::about(
            rt,
            source.index,
            b"note: a block does not hold the range of the line quanta\n",
        );
    }
    let block = source.block.as_slice();
    if block.is_empty() {
        say::about(rt, source.index, b"no line has a record\n");
        return Err(Failure::NotAnswered);
    }
    say::print_answer(rt, Answer::Yes, block)
}
