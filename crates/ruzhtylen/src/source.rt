// A list, a configuration or kernel records as they were handed in: their block, and how the records are named. A block is taken as it is; a
// text is read, and its block is not judged.
ghost use Rattle.std.specs.Prelude.{◌≤◌};

use crate::say::Failure;
use crate::{files, say};
use command::span::Quanta;
use lists::fields::Form;
use lists::rows::{FaultyLine, SaidRange};
use messages::refusal::Naming;
use records::job::Job;
use std::rt::{Env, Files};

// The first bytes of a block: at most one more than the longest block has, so that a longer one shows.
#[derive(Clone, Copy)]
pub struct Block {
    bytes: [u8; Block::SIZE],
    kept: usize,
    ghost fits: { kept ≤ 65 },
}

impl Block {
    pub const SIZE: usize = 65;

    fn of(block: &[u8]) -> Block {
        let mut bytes = [0u8; Block::SIZE];
        let kept = block.len().min(Block::SIZE);
        bytes[..kept].copy_from_slice(&block[..kept]);
        Block { bytes, kept }
    }

    pub fn as_slice(&self) -> &[u8] {
        &self.bytes[..self.kept]
    }
}

// What is in the file that is argument `index`: the block, the size of the whole, how its records are named, and the range that a list says.
#[derive(Clone, Copy)]
pub struct Source {
    pub index: usize,
    pub block: Block,
    pub size: u32,
    pub naming: Naming,
    pub lines: [u32; Job::MOST],
    pub quanta: Option<Quanta>,
}

// A line's number, which a text that is read has fewer of than a number of 32 bits counts.
fn line_number(line: usize) -> u32 {
    (line % 4294967296) as u32
}

// A range that a text says, which is read only where its numbers fit a byte.
fn quanta_of(range: SaidRange) -> Quanta {
    Quanta {
        low: (range.low % 256) as u8,
        high: (range.high % 256) as u8,
    }
}

fn fault(rt: &impl Env, index: usize, faulty: FaultyLine) -> Failure {
    let mut output = [0u8; messages::fault::SIZE];
    let line = line_number(faulty.line);
    let length = messages::fault::put_fault(line, faulty.fault, &mut output);
    say::about(rt, index, &output[..length]);
    Failure::NotAnswered
}

impl Source {
    fn of_block(index: usize, block: &[u8]) -> Source {
        Source {
            index,
            block: Block::of(block),
            size: block.len().min(files::SIZE) as u32,
            naming: Naming::Record,
            lines: [0u32; Job::MOST],
            quanta: None,
        }
    }

    fn of_text(rt: &impl Env, index: usize, form: Form, content: &[u8]) -> Result<Source, Failure> {
        match lists::blocks::read_block(form, content) {
            Ok(read) => Ok(Source {
                index,
                block: Block::of(&read.bytes[..read.size]),
                size: read.size as u32,
                naming: Naming::Line,
                lines: read.at.map(line_number),
                quanta: read.range.map(quanta_of),
            }),
            Err(faulty) => Err(fault(rt, index, faulty)),
        }
    }

    // The list, the configuration or the kernel records in the file that is argument `index`; `is_block` is the option as it was given, which
    // its callers hand on.
    pub fn load(
        rt: &(impl Env + Files + Input),
        index: usize,
        form: Form,
        is_block: bool,
    ) -> Result<Source, Failure> {
        let mut room = [0u8; files::SIZE];
        let content = files::read(rt, index, &mut room)?;
        if is_block {
            return Ok(Source::of_block(index, content));
        }
        Source::of_text(rt, index, form, content)
    }
}
