// Refusals, said of what is refused.
use crate::say;
use crate::say::Failure;
use crate::source::Source;
use reasons::reason::Reason;
use records::refusal::Refusal;
use std::rt::Env;

// Says the refusal of a source. Priorities are always an option's, and where `optioned` a range of quanta is too: such a one is no file's.
pub fn say_refusal(
    rt: &impl Env,
    source: &Source,
    optioned: bool,
    refusal: Refusal,
    reason: Reason,
) -> Failure {
    let mut output = [0u8; messages::refusal::SIZE];
    let length = messages::refusal::put_refusal(
        refusal.number(),
        source.naming,
        source.lines,
        reason,
        &mut output,
    );
    let text = &output[..length];
    match refusal {
        Refusal::QuantumRange if optioned => {
            say::message(b"--quanta: ");
            say::message(text);
        }
        Refusal::PriorityRange => {
            say::message(b"--priorities: ");
            say::message(text);
        }
        _ => say::about(rt, source.index, text),
    }
    Failure::NotAnswered
}
