// Marking: one hand-in in full, or several with a line each.
use crate::asked::Asked;
use crate::list::Accepted;
use crate::say::{Answer, Failure, Outcome};
use crate::source::Source;
use crate::{asked, say};
use lists::fields::Form;
use records::refusal::Refusal;
use std::rt::{Env, Files};

// What hand-ins are marked for. One that is alone is marked in full.
#[derive(Clone, Copy)]
struct Marking {
    list: Accepted,
    alone: bool,
    is_block: bool,
}

impl Marking {
    // Prints what is due: of one hand-in all of the text, of several the name and the last line.
    fn print(
        &self,
        rt: &(impl Env + Print),
        due: Answer,
        hand_in: &Source,
        text: &[u8],
        last: &[u8],
    ) -> Outcome {
        if self.alone {
            return say::print_answer(rt, due, text);
        }
        say::print_about(rt, hand_in.index, last)?;
        Ok(due)
    }

    // Says why a hand-in is refused, and where several are marked prints that it is.
    fn refuse(&self, rt: &(impl Env + Print), hand_in: &Source, refusal: Refusal) -> Failure {
        let failure = self.list.refuse_hand_in(rt, hand_in, refusal);
        if self.alone {
            return failure;
        }
        let mut output = [0u8; text::key::SIZE];
        let length = text::key::refused(refusal.number(), &mut output);
        not_answered_about(rt, hand_in.index, &output[..length])
    }

    fn mark_source(&self, rt: &(impl Env + Print), hand_in: &Source) -> Outcome {
        let list = &self.list.list;
        let mut output = [0u8; marking::SIZE];
        let told = marking::marks(
            list.block(),
            list.quanta.low,
            list.quanta.high,
            hand_in.block.as_slice(),
            &mut output,
        );
        match told {
            Ok(told) => {
                let text = &output[..told.length];
                self.print(rt, told.yes.into(), hand_in, text, &text[told.last..])
            }
            Err(refusal) => Err(self.refuse(rt, hand_in, refusal)),
        }
    }

    // Marks the hand-in that is argument i.
    fn mark(&self, rt: &(impl Env + Files + Input + Print), i: usize) -> Outcome {
        match Source::load(rt, i, Form::Setting, self.is_block) {
            Ok(hand_in) => self.mark_source(rt, &hand_in),
            Err(failure) if self.alone => Err(failure),
            Err(_) => Err(not_answered_about(rt, i, b"not read\n")),
        }
    }
}

// Prints that the hand-in that is argument i is not answered.
fn not_answered_about(rt: &(impl Env + Print), i: usize, text: &[u8]) -> Failure {
    match say::print_about(rt, i, text) {
        Ok(()) => Failure::NotAnswered,
        Err(failure) => failure,
    }
}

// Marks the hand-ins, which are the names after the first.
pub fn mark(rt: &(impl Env + Files + Input + Print), asked: &Asked) -> Outcome {
    let marking = Marking {
        list: Accepted::load(rt, asked)?,
        alone: asked.names == 2,
        is_block: asked.blocks,
    };
    let mut seen = Asked::NOTHING;
    let mut worst = Ok(Answer::Yes);
    for i in 2..asked::count(rt) {
        if seen.take_later_name(rt, i)? {
            worst = worst.max(marking.mark(rt, i));
        }
        if worst == Err(Failure::NotWritten) {
            return worst;
        }
    }
    worst
}
