// What help says of each word.
#![tactic(auto)]

use command::Word;
use std::io::Result;

// What all words do.
pub fn all_words() -> &'static [u8] {
    b"ruzhtylen WORD [OPTIONS] FILE..

  key LIST                    a configuration that passes, or which jobs cannot be placed
  mark LIST HAND-IN..         whether configurations that were handed in pass
  bounds LIST CONFIGURATION   the bounds of a configuration, full or not
  explain LIST CONFIGURATION  where the ticks of each bound go
  loader LIST CONFIGURATION   a configuration as the kernel records of a box loader, and back
  block FILE                  the block of a text
  text FILE                   the text of a block
  install PREFIX              puts command, library, header and manual page under PREFIX
  help [WORD]                 this, or more about a word

  --quanta LOW-HIGH           the quanta that are permitted; else those of the list, else 1-4
  --block                     the files are blocks and not texts (all words with a LIST)
  --configuration             the file is a configuration and not a list (block, text)
  --priorities LOWEST-HIGHEST the priorities that the kernel has (loader)
  --back                      kernel records are read, and their configuration written (loader)
  --bytes                     the kernel records are bytes and not a text (loader)

A FILE that is - is standard input. Status 0: yes; 1: no; 2: no answer, and why is said.
"
}

const KEY: &[u8] = b"ruzhtylen key [--quanta LOW-HIGH] [--block] LIST

Prints a line per job, id level policy quantum bound, and how many are placed.
Level 1 runs first; policy 1 is sched_fifo, 2 is sched_rr; a job left over has zeros.
Levels are filled from the lowest up, by smaller sets of jobs first, among those of one
size by the larger sum of periods, then by the smaller number of the set, in which the
jobs count 1, 2, 4 and so on. So longer periods go lower where that passes.
Where all are placed the configuration passes, and the status is 0. Where jobs are left,
no configuration of the list in that range passes, which is proved, and the status is 1.
";

// What a list is.
const LIST: &[u8] = b"
A list has a line per job, id cost period deadline [delay], and may say its range in a
line quanta LOW HIGH. From # on a line is a comment.
";

const MARK: &[u8] = b"ruzhtylen mark [--quanta LOW-HIGH] [--block] LIST HAND-IN..

One HAND-IN: a line per job with its bound and its deadline, then passes, or fails and
the jobs that have no bound up to their deadline. Several: a line per file.
The status is 0 where all pass, 1 where one fails, 2 where one is refused or not read.
";

const BOUNDS: &[u8] = b"ruzhtylen bounds [--quanta LOW-HIGH] [--block] LIST CONFIGURATION

Prints a line per job, id level policy quantum bound; a job that is not placed, or has no
bound up to its deadline, has bound 0. The status is 0 where no bound is 0, else 1.
";

const EXPLAIN: &[u8] = b"ruzhtylen explain [--quanta LOW-HIGH] [--block] LIST CONFIGURATION

Prints two lines per job: the sum that makes its bound, with its deadline; and the same as
a bar of 50 columns up to the deadline, with the bound and the instance that decide.

  # own     the job's own work up to that instance
  = layer   what the other jobs of its level add
  - above   the work of the jobs above it, those not placed among them
  ~ late    the job's delay
  . spare   what is left up to the deadline

The sum takes off the release of that instance: the job's releases in a row without a gap
are instances 0, 1 and so on. Bound 1 counts the others of the level by their quanta, bound
2 by their work; the lesser decides, where one is 0 the other, where equal bound 1.

The parts of a bar stand in the order of the sum, not of time, and each bar has a scale of
its own. Ends are rounded down: a short part may not show, and a bar reaches | only where
the bound is the deadline.

A job that is not placed, or has no bound up to its deadline, has one line that says so.
The status is 0 where no bound is 0, else 1.
";

// What a configuration is.
const CONFIGURATION: &[u8] = b"
A configuration has a line per job, id level policy quantum, in the order of the list;
the policy is none, fifo or rr, or 0, 1 or 2. A number after them and a line that begins
with placed are passed over, so that a key can be handed in.
";

const LOADER: &[u8] =
    b"ruzhtylen loader --priorities LOWEST-HIGHEST [--quanta LOW-HIGH] [--block] [--bytes]
                 LIST CONFIGURATION
ruzhtylen loader --back --priorities LOWEST-HIGHEST [--quanta LOW-HIGH] [--block] [--bytes]
                 LIST RECORDS

Writes a full configuration as the kernel records that a box loader reads: a line per job,
id policy priority quantum, or with --bytes a byte for each of the four. Levels and kernel
priorities run in opposite senses: level 1 gets the highest priority, level 2 the one below
it, and so on. Bounds are not asked for: mark the configuration first.

With --back it reads kernel records, and writes their configuration; in a text of them the
policy is fifo or rr, by name. With the same list, quanta and priorities what was converted
comes back as it was. With --block the files are blocks.

  ruzhtylen loader --priorities 1-99 --bytes list.txt key.txt >box.table
  ruzhtylen loader --priorities 1-99 --bytes --back list.txt box.table
";

const BLOCK: &[u8] = b"ruzhtylen block [--configuration] FILE

Writes the block of a text: 8 bytes per job (id, delay, cost, period, deadline; the last
three have two bytes each, the high byte first), or 4 per record of a configuration (id,
level, policy, quantum). Nothing is judged.
";

const TEXT: &[u8] = b"ruzhtylen text [--configuration] FILE

Writes the text of a block, as block reads it. Nothing but its size is judged.
";

const INSTALL: &[u8] = b"ruzhtylen install PREFIX

In a clone: builds the program and the library, and puts bin/ruzhtylen with its program in
libexec/ruzhtylen, lib/libruzhtylen.a, include/ruzhtylen.h and the manual page under PREFIX.
They need no kit to be used.
";

// Says what a word does; what all words do where it is none. It gives whether all was written, and else why not: the later of the reasons.
pub fn help(rt: &impl Print, word: Word) -> Result<()> {
    let (text, more): (&[u8], &[u8]) = match word {
        Word::Key => (KEY, LIST),
        Word::Mark => (MARK, CONFIGURATION),
        Word::Bounds => (BOUNDS, CONFIGURATION),
        Word::Explain => (EXPLAIN, CONFIGURATION),
        Word::Loader => (LOADER, b""),
        Word::Block => (BLOCK, b""),
        Word::Text => (TEXT, b""),
        Word::Install => (INSTALL, b""),
        Word::Help | Word::Unknown => (all_words(), b""),
    };
    let first = rt.write_all(text);
    if more.is_empty() {
        return first;
    }
    rt.write_all(more).and(first)
}
