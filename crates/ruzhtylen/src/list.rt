// The list and the range of a call.
use crate::asked::{Asked, Priorities};
use crate::refused::say_refusal;
use crate::say::Failure;
use crate::source::Source;
use command::span::Quanta;
use lists::fields::Form;
use records::call::Call;
use records::job::Job;
use records::record;
use records::refusal::Refusal;
use std::rt::{Env, Files};

// A list and a range that are not judged; `optioned` says that the range is an option's.
#[derive(Clone, Copy)]
pub struct List {
    pub source: Source,
    pub quanta: Quanta,
    pub optioned: bool,
}

impl List {
    // The first name's list, and the range of the call.
    pub fn load(rt: &(impl Env + Files + Input), asked: &Asked) -> Result<List, Failure> {
        let source = Source::load(rt, asked.first, Form::Job, asked.blocks)?;
        let quanta = command::span::choose(asked.quanta, source.quanta);
        Ok(List {
            source,
            quanta,
            optioned: asked.quanta.is_some(),
        })
    }

    pub fn block(&self) -> &[u8] {
        self.source.block.as_slice()
    }

    // Says why the list or the range is refused.
    pub fn refuse(&self, rt: &impl Env, refusal: Refusal) -> Failure {
        let block = self.block();
        let reason = reasons::list::list_reason(
            refusal.number(),
            self.source.size,
            record::read(block),
            block.len() / Job::SIZE,
            self.quanta.low,
            self.quanta.high,
        );
        say_refusal(rt, &self.source, self.optioned, refusal, reason)
    }
}

// A list and a range that are accepted, and what a call on them reads.
#[derive(Clone, Copy)]
pub struct Accepted {
    pub list: List,
    pub call: Call,
}

impl Accepted {
    // The same of a list and a range that may be refused.
    pub fn load(rt: &(impl Env + Files + Input), asked: &Asked) -> Result<Accepted, Failure> {
        let list = List::load(rt, asked)?;
        match records::call::read_call(list.block(), list.quanta.low, list.quanta.high) {
            Ok(call) => Ok(Accepted { list, call }),
            Err(refusal) => Err(list.refuse(rt, refusal)),
        }
    }

    // Says why a configuration is refused for this list and this range.
    pub fn refuse_hand_in(&self, rt: &impl Env, hand_in: &Source, refusal: Refusal) -> Failure {
        let reason = reasons::hand_in::hand_in_reason(
            refusal.number(),
            hand_in.size,
            self.call,
            record::read(hand_in.block.as_slice()),
        );
        say_refusal(rt, hand_in, false, refusal, reason)
    }

    // Says why kernel records are refused for this list, this range and priorities that are accepted.
    pub fn refuse_kernels(
        &self,
        rt: &impl Env,
        loaded: &Source,
        priorities: Priorities,
        refusal: Refusal,
    ) -> Failure {
        let reason = reasons::kernels::kernel_reason(
            refusal.number(),
            loaded.size,
            self.call,
            record::read(loaded.block.as_slice()),
            priorities.highest,
        );
        say_refusal(rt, loaded, false, refusal, reason)
    }

    // Says why the priorities are refused for this list and this range.
    pub fn refuse_priorities(
        &self,
        rt: &impl Env,
        priorities: Priorities,
        refusal: Refusal,
    ) -> Failure {
        let reason = reasons::kernels::priorities_reason(
            refusal.number(),
            self.call.jobs.count,
            priorities.lowest,
            priorities.highest,
        );
        say_refusal(rt, &self.list.source, true, refusal, reason)
    }
}
