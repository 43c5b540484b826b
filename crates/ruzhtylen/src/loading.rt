// The tables of a box loader: a configuration as kernel records, and back.
use crate::asked::{Asked, Priorities};
use crate::list::Accepted;
use crate::say::{Answer, Outcome};
use crate::source::Source;
use crate::{say, texts};
use kernel::record::KernelRecord;
use lists::fields::Form;
use records::job::Job;
use records::record;
use std::rt::{Env, Files};

// The bytes of the records of as many jobs as there can be.
const SIZE: usize = KernelRecord::SIZE * Job::MOST;

// Prints the kernel records in a block: its bytes, or a line per record, as the option has it, which both callers hand on.
fn print_kernels(rt: &impl Print, as_bytes: bool, block: &[u8]) -> Outcome {
    if as_bytes {
        return say::print_answer(rt, Answer::Yes, block);
    }
    let kernels = record::read(block);
    let mut output = [0u8; tables::KERNEL_SIZE];
    let n = block.len() / KernelRecord::SIZE;
    let length = tables::put_kernel_table(kernels, n, &mut output);
    say::print_answer(rt, Answer::Yes, &output[..length])
}

// The records of an output that a conversion has written, one for each job of the list.
fn written<'a>(list: &Accepted, output: &'a [u8; SIZE]) -> &'a [u8] {
    let size = KernelRecord::SIZE * Job::at_most(list.call.jobs.count);
    &output[..output.len().min(size)]
}

fn there(
    rt: &(impl Env + Files + Input + Print),
    asked: &Asked,
    accepted: &Accepted,
    priorities: Priorities,
) -> Outcome {
    let hand_in = Source::load(rt, asked.second, Form::Setting, asked.blocks)?;
    let list = &accepted.list;
    let mut output = [0u8; SIZE];
    let answer = kernel::to_kernel(
        list.block(),
        list.quanta.low,
        list.quanta.high,
        priorities.lowest,
        priorities.highest,
        hand_in.block.as_slice(),
        &mut output,
    );
    if let Err(refusal) = answer {
        return Err(accepted.refuse_hand_in(rt, &hand_in, refusal));
    }
    print_kernels(rt, asked.bytes, written(accepted, &output))
}

fn back(
    rt: &(impl Env + Files + Input + Print),
    asked: &Asked,
    accepted: &Accepted,
    priorities: Priorities,
) -> Outcome {
    let is_block = asked.blocks || asked.bytes;
    let loaded = Source::load(rt, asked.second, Form::Kernel, is_block)?;
    let list = &accepted.list;
    let mut output = [0u8; SIZE];
    let answer = kernel::from_kernel(
        list.block(),
        list.quanta.low,
        list.quanta.high,
        priorities.lowest,
        priorities.highest,
        loaded.block.as_slice(),
        &mut output,
    );
    if let Err(refusal) = answer {
        return Err(accepted.refuse_kernels(rt, &loaded, priorities, refusal));
    }
    texts::print_settings(rt, written(accepted, &output))
}

pub fn loader(
    rt: &(impl Env + Files + Input + Print),
    asked: &Asked,
    priorities: Priorities,
) -> Outcome {
    let accepted = Accepted::load(rt, asked)?;
    let list = &accepted.list;
    let call = kernel::call::read_call(
        list.block(),
        list.quanta.low,
        list.quanta.high,
        priorities.lowest,
        priorities.highest,
    );
    if let Err(refusal) = call {
        return Err(accepted.refuse_priorities(rt, priorities, refusal));
    }
    if asked.back {
        return back(rt, asked, &accepted, priorities);
    }
    there(rt, asked, &accepted, priorities)
}
