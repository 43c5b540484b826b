// What is said of a faulty line of a text.
ghost use Rattle.std.specs.Prelude.{◌≡◌, ◌+◌, ◌≤◌, length};
ghost use Rattle.std.proofs.lemmas.List.Edits.{sets};
ghost use Rattle.records.specs.Records.{table};
ghost use Rattle.writing.specs.Templates.{Wrote};
ghost use Rattle.messages.specs.Faults.{fault_line, fault_numbers, message, fault_text};

use lists::fault::Fault;

// The size of a buffer that holds what is said of any line.
pub const SIZE: usize = 690;

// The line of what is said of a fault in the text of all, counted from 0.
fn fault_line(fault: Fault) -> usize
    ensures { result ≡ fault_line fault }
{
    match fault {
        Fault::NotANumber(_) => 0,
        Fault::TooLarge(_, _) => 1,
        Fault::NotAPolicy => 2,
        Fault::NotAPolicyName => 3,
        Fault::LoneReturn => 4,
        Fault::JobWords => 5,
        Fault::SettingWords => 6,
        Fault::KernelWords => 7,
        Fault::RangeWords => 8,
        Fault::TooMany => 9,
        Fault::SecondRange => 10,
    }
}

// The numbers that are said of a fault, and zeros after them.
fn fault_numbers(fault: Fault) -> [u32; 2]
    ensures { result ≡ table 2 0 (fault_numbers fault) }
{
    match fault {
        Fault::NotANumber(place) => [u32::from(place), 0],
        Fault::TooLarge(place, limit) => [u32::from(place), u32::from(limit)],
        _ => [0; 2],
    }
}

// No Display: a template says each text byte by byte, and a Formatter would have to say them once more.
fn put_message(output: &mut [u8], at: usize, fault: Fault) -> usize
    requires { at + 600 ≤ length output.old }
    ensures { Wrote 600 output.old output.new at result (message fault) }
{
    writing::put_line(
        output,
        at,
        b"word % is not a number
word % is above %
the policy is none of none, fifo, rr, 0, 1 and 2
word 2, the policy, is neither fifo nor rr
a carriage return within the line; a line feed ends a line
not four numbers, or five: id cost period deadline delay
not four words, or five: id level policy quantum bound
not four words: id policy priority quantum
not two numbers after the word quanta
more than 8 jobs
a second line with quanta
",
        fault_line(fault),
        &fault_numbers(fault),
    )
}

// The text about a faulty line, at the start of the output; it gives the text's length. No entry.
pub fn put_fault(line: u32, fault: Fault, output: &mut [u8; SIZE]) -> usize
    ensures { (result ≤ length output.new) × (result ≡ length (fault_text line fault)) × (output.new ≡ sets output.old 0 (fault_text line fault)) }
{
    let after_line = writing::put_template(output, 0, b"line %: ", &[line]);
    let after_message = put_message(output, after_line, fault);
    writing::put_template(output, after_message, b"\n", &[])
}
