// Job lists, configurations and kernel records as text: a line per job or per record, as `lists` reads it back.
#![tactic(auto)]

ghost use Rattle.std.specs.Prelude.{◌≡◌, ℕ, List, [], ◌+◌, ◌*◌, ◌≤◌, length, take};
ghost use Rattle.std.proofs.Math.Option.{none};
ghost use Rattle.std.proofs.lemmas.List.Edits.{sets};
ghost use Rattle.records.specs.Records.{flat};
ghost use Rattle.lists.specs.Lists.{line_text, delay_words, job_text, policy_word, setting_text, kernel_text, list_text, configuration_text, kernels_text};
ghost use Rattle.writing.specs.Templates.{Wrote};

use configuration::setting::Setting;
use kernel::record::KernelRecord;
use records::job::Job;

// The size of a buffer that holds the text of any list.
pub const LIST_SIZE: usize = 800;

// The size of a buffer that holds the text of any configuration.
pub const CONFIGURATION_SIZE: usize = 880;

// The size of a buffer that holds the text of any kernel records.
pub const KERNEL_SIZE: usize = 880;

// The end of a job's line: its delay, which is left out where it is 0.
fn put_delay(output: &mut [u8], at: usize, delay: u8) -> usize
    requires { at + 30 ≤ length output.old }
    ensures { Wrote 30 output.old output.new at result (line_text [] (delay_words delay)) }
{
    if delay == 0 {
        return writing::put_template(output, at, b"\n", &[]);
    }
    writing::put_template(output, at, b" %\n", &[delay as u32])
}

// A record that is written as a line.
trait Line: Copy {
    // The record's line, and the most bytes that a line has.
    ghost text: { Self → List ℕ };

    ghost room: { ℕ };

    fn put_line(self, output: &mut [u8], at: usize) -> usize
        requires { at + room ≤ length output.old }
        ensures { Wrote room output.old output.new at result (text self) };
}

impl Line for Job {
    ghost text = { job_text };

    ghost room = { 100 };

    fn put_line(self, output: &mut [u8], at: usize) -> usize {
        let id = self.id as u32;
        let cost = self.cost as u32;
        let period = self.period as u32;
        let deadline = self.deadline as u32;
        let after_deadline = writing::put_template(
            output,
            at,
            b"% % % %",
            &[id, cost, period, deadline],
        );
        put_delay(output, after_deadline, self.delay)
    }
}

// A policy's name; the number of one that has none.
fn put_policy(output: &mut [u8], at: usize, policy: u8) -> usize
    requires { at + 40 ≤ length output.old }
    ensures { Wrote 40 output.old output.new at result (policy_word policy) }
{
    if policy == Setting::NOT_PLACED {
        return writing::put_template(output, at, b"none", &[]);
    }
    if policy == Setting::FIFO {
        return writing::put_template(output, at, b"fifo", &[]);
    }
    if policy == Setting::ROUND_ROBIN {
        return writing::put_template(output, at, b"rr", &[]);
    }
    writing::put_template(output, at, b"%", &[policy as u32])
}

impl Line for Setting {
    ghost text = { setting_text };

    ghost room = { 110 };

    fn put_line(self, output: &mut [u8], at: usize) -> usize {
        let level = self.level as u32;
        let quantum = self.quantum as u32;
        let after_level = writing::put_template(output, at, b"% % ", &[self.id as u32, level]);
        let after_policy = put_policy(output, after_level, self.policy);
        writing::put_template(output, after_policy, b" %\n", &[quantum])
    }
}

impl Line for KernelRecord {
    ghost text = { kernel_text };

    ghost room = { 110 };

    fn put_line(self, output: &mut [u8], at: usize) -> usize {
        let priority = self.priority;
        let quantum = self.quantum as u32;
        let after_id = writing::put_template(output, at, b"% ", &[self.id as u32]);
        let after_policy = put_policy(output, after_id, self.policy);
        writing::put_template(
            output,
            after_policy,
            b" % %\n",
            &[priority.0 as u32, quantum],
        )
    }
}

// The lines of records, from the start of the output on.
fn put_lines<L: Line>(records: &[L], output: &mut [u8]) -> usize
    requires { L.room * length records.now ≤ length output.old }
    ensures { Wrote (L.room * length records.now) output.old output.new 0 result (flat L.text records.now) }
{
    let mut at = 0;
    for record in records {
        at = record.put_line(output, at);
    }
    at
}

// The text of the first n jobs, without a range, at the start of the output; it gives the text's length. No entry; it judges nothing,
// and for n past 8 it takes all 8 jobs.
pub fn put_list(jobs: [Job; Job::MOST], n: usize, output: &mut [u8; LIST_SIZE]) -> usize
    ensures { (result ≤ length output.new) × (result ≡ length (list_text none (take n jobs))) × (output.new ≡ sets output.old 0 (list_text none (take n jobs))) }
{
    put_lines(&jobs[..Job::at_most(n)], output)
}

// The text of the first n settings, at the start of the output; it gives the text's length. No entry; it judges nothing, and for n past
// 8 it takes all 8 settings.
pub fn put_configuration(
    settings: [Setting; Job::MOST],
    n: usize,
    output: &mut [u8; CONFIGURATION_SIZE],
) -> usize
    ensures { (result ≤ length output.new) × (result ≡ length (configuration_text (take n settings))) × (output.new ≡ sets output.old 0 (configuration_text (take n settings))) }
{
    put_lines(&settings[..Job::at_most(n)], output)
}

// The text of the first n kernel records, at the start of the output; it gives the text's length. No entry; it judges nothing, and for n
// past 8 it takes all 8 records.
pub fn put_kernel_table(
    kernels: [KernelRecord; Job::MOST],
    n: usize,
    output: &mut [u8; KERNEL_SIZE],
) -> usize
    ensures { (result ≤ length output.new) × (result ≡ length (kernels_text (take n kernels))) × (output.new ≡ sets output.old 0 (kernels_text (take n kernels))) }
{
    put_lines(&kernels[..Job::at_most(n)], output)
}
