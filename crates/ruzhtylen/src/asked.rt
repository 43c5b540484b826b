// What the arguments after the word ask for.
use crate::say::Failure;
use crate::{arguments, say};
use command::Argument;
use command::span::Quanta;
use kernel::priority::KernelPriority;
use std::env::FillError;
use std::rt::Env;

// The lowest and the highest priority that a kernel has.
#[derive(Clone, Copy)]
pub struct Priorities {
    pub lowest: KernelPriority,
    pub highest: KernelPriority,
}

// An option that has a range after it.
#[derive(Clone, Copy)]
enum Ranged {
    Quanta,
    Priorities,
}

// The options and the names. The first and the second name are the arguments of these numbers; `inputs` counts the names that are standard
// input; `awaiting` is the option whose range is the next argument, and `ended` says that no more options follow.
#[derive(Clone, Copy)]
pub struct Asked {
    pub quanta: Option<Quanta>,
    pub priorities: Option<Priorities>,
    pub blocks: bool,
    pub configuration: bool,
    pub back: bool,
    pub bytes: bool,
    pub names: u32,
    pub first: usize,
    pub second: usize,
    inputs: u32,
    awaiting: Option<Ranged>,
    ended: bool,
}

// The most arguments that are looked at, which no system hands over.
const MOST: usize = 1000000000;

// How many arguments there are. Only whether there is one is asked, so that a byte of it is enough.
pub fn count(rt: &impl Env) -> usize {
    let mut start = [0u8; 1];
    for i in 0..MOST {
        if let Err(FillError::NotPresent) = rt.arg(i, &mut start) {
            return i;
        }
    }
    MOST
}

fn fault(text: &[u8]) -> Failure {
    say::message(b"ruzhtylen: ");
    say::message(text);
    Failure::NotAnswered
}

impl Ranged {
    fn wrong(self) -> Failure {
        match self {
            Ranged::Quanta => fault(
                b"--quanta takes the lowest and the highest quantum, up to 64, with a hyphen between, as 1-4\n",
            ),
            Ranged::Priorities => fault(
                b"--priorities takes the kernel's lowest and highest priority, up to 255, with a hyphen between, as 1-99\n",
            ),
        }
    }

    // What follows is texts, a function for each.
    fn twice(self) -> Failure {
        match self {
            Ranged::Quanta => fault(b"--quanta is given twice\n"),
            Ranged::Priorities => fault(b"--priorities is given twice\n"),
        }
    }

    fn missing(self) -> Failure {
        match self {
            Ranged::Quanta => fault(b"--quanta needs a range after it, as 1-4\n"),
            Ranged::Priorities => fault(b"--priorities needs a range after it, as 1-99\n"),
        }
    }
}

impl Asked {
    pub const NOTHING: Asked = Asked {
        quanta: None,
        priorities: None,
        blocks: false,
        configuration: false,
        back: false,
        bytes: false,
        names: 0,
        first: 0,
        second: 0,
        inputs: 0,
        awaiting: None,
        ended: false,
    };

    fn has(&self, option: Ranged) -> bool {
        match option {
            Ranged::Quanta => self.quanta.is_some(),
            Ranged::Priorities => self.priorities.is_some(),
        }
    }

    fn take_ranged(&mut self, option: Ranged) -> Result<(), Failure> {
        if self.has(option) {
            return Err(option.twice());
        }
        self.awaiting = Some(option);
        Ok(())
    }

    fn take_range(&mut self, option: Ranged, word: &[u8]) -> Result<(), Failure> {
        let Some(span) = command::span::read_span(word) else {
            return Err(option.wrong());
        };
        self.awaiting = None;
        match option {
            Ranged::Quanta => self.quanta = Some(span),
            Ranged::Priorities => {
                self.priorities = Some(Priorities {
                    lowest: KernelPriority(span.low),
                    highest: KernelPriority(span.high),
                });
            }
        }
        Ok(())
    }

    fn take_name(&mut self, i: usize, word: &[u8]) -> Result<(), Failure> {
        match self.names {
            0 => self.first = i,
            1 => self.second = i,
            _ => {}
        }
        self.names = self.names.saturating_add(1);
        if word.is_empty() {
            return Err(fault(b"a file's name is empty\n"));
        }
        if word == b"-".as_slice() {
            self.inputs = self.inputs.saturating_add(1);
        }
        Ok(())
    }

    fn take_word(&mut self, rt: &impl Env, i: usize, word: &[u8]) -> Result<(), Failure> {
        if let Some(option) = self.awaiting {
            return self.take_range(option, word);
        }
        if self.ended {
            return self.take_name(i, word);
        }
        match command::argument_of(word) {
            Argument::Quanta => return self.take_ranged(Ranged::Quanta),
            Argument::Priorities => return self.take_ranged(Ranged::Priorities),
            Argument::Blocks => self.blocks = true,
            Argument::Configuration => self.configuration = true,
            Argument::Back => self.back = true,
            Argument::Bytes => self.bytes = true,
            Argument::End => self.ended = true,
            Argument::UnknownOption => return Err(say::unknown(
                rt,
                i,
                b"ruzhtylen: unknown option ",
                b"; after -- a name may begin with --\n",
            )),
            Argument::Name => return self.take_name(i, word),
        }
        Ok(())
    }

    // Takes argument i to what is asked. What is wrong with it has been said.
    pub fn take(&mut self, rt: &impl Env, i: usize) -> Result<(), Failure> {
        let mut buffer = [0u8; arguments::SIZE];
        match rt.arg(i, &mut buffer) {
            Ok(length) => self.take_word(rt, i, &buffer[..length]),
            Err(_) => Err(fault(b"an argument is longer than 4096 bytes\n")),
        }
    }

    // The same, and whether the argument is a name after the first.
    pub fn take_later_name(&mut self, rt: &impl Env, i: usize) -> Result<bool, Failure> {
        let before = self.names;
        self.take(rt, i)?;
        Ok(0 < before && before < self.names)
    }

    // What all arguments after the word ask for.
    pub fn read(rt: &impl Env) -> Result<Asked, Failure> {
        let mut asked = Asked::NOTHING;
        for i in 2..count(rt) {
            asked.take(rt, i)?;
        }
        if let Some(option) = asked.awaiting {
            return Err(option.missing());
        }
        if 1 < asked.inputs {
            return Err(fault(b"standard input can be read only once\n"));
        }
        Ok(asked)
    }
}
