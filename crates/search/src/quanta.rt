// The quanta of a layer.
ghost use Rattle.std.specs.Prelude.{◌≡◌};
ghost use Rattle.sets.specs.Sets.{has};
ghost use Rattle.records.specs.Limits.{most_jobs};
ghost use Rattle.response.specs.Demand.{other_quanta};

use records::job::Job;

// The sum of the quanta of the layer's other jobs. No entry; it judges nothing.
pub fn other_quanta(quanta: [u8; Job::MOST], layer: u8, job: usize) -> u16
    ensures { result ≡ other_quanta most_jobs quanta (has layer) job }
{
    let others = sets::remove(layer, job);
    let mut sum: u16 = 0;
    for (i, quantum) in quanta.iter().enumerate() {
        if sets::contains(others, i) {
            sum += *quantum as u16;
        }
    }
    sum
}
