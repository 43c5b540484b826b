// Reads and writes configuration blocks.
ghost use Rattle.std.specs.Prelude.{◌≡◌};
ghost use Rattle.records.specs.Refusals.{counted};
ghost use Rattle.records.specs.Jobs.{listed};
ghost use Rattle.configuration.specs.Blocks.{configuration_outcome, read_settings, read_full, read_configuration, write_configuration};

use crate::judge;
use crate::judge::SettingRule;
use crate::setting::Setting;
use records::call::Call;
use records::job::Job;
use records::record;
use records::refusal::Refusal;

// The settings of a block: how many they are, and a table that is blank past them, memory being fixed.
#[derive(Clone, Copy)]
pub struct SettingTable {
    pub count: usize,
    pub table: [Setting; Job::MOST],
}

// Reads a configuration block for a call's jobs and range. No entry; it judges the block alone (7 to 10), whatever the jobs and the range
// are, and for more than 8 jobs it takes the table's 8.
pub fn read_settings(call: Call, configuration: &[u8]) -> Result<SettingTable, Refusal>
    ensures { configuration_outcome result ≡ read_settings (listed call.jobs) call.range.low call.range.high configuration.now }
{
    let count = Job::at_most(call.jobs.count);
    if configuration.len() != Setting::SIZE * count {
        return Err(Refusal::ConfigurationSize);
    }
    let table = record::read(configuration);
    judge::judge_settings(call, table)?;
    Ok(SettingTable { count, table })
}

// The same for a configuration that is to be full. No entry; it judges the block alone (7 to 11).
pub fn read_full(call: Call, configuration: &[u8]) -> Result<SettingTable, Refusal>
    ensures { configuration_outcome result ≡ read_full (listed call.jobs) call.range.low call.range.high configuration.now }
{
    let settings = read_settings(call, configuration)?;
    if !judge::all_ok(SettingRule::Placed, call, settings.table) {
        return Err(Refusal::NotPlaced);
    }
    Ok(settings)
}

// Reads a configuration block for a job block and a range.
pub fn read_configuration(
    jobs: &[u8],
    low: u8,
    high: u8,
    configuration: &[u8],
) -> Result<SettingTable, Refusal>
    ensures { configuration_outcome result ≡ read_configuration jobs.now low high configuration.now }
{
    let call = records::call::read_call(jobs, low, high)?;
    read_settings(call, configuration)
}

// Writes the first `count` settings of a table as a configuration block for a job block and a range.
pub fn write_configuration(
    jobs: &[u8],
    low: u8,
    high: u8,
    settings: [Setting; Job::MOST],
    count: usize,
    output: &mut [u8],
) -> Result<usize, Refusal>
    ensures { (counted result, output.new) ≡ write_configuration jobs.now low high count settings output.old }
{
    let call = records::call::read_call(jobs, low, high)?;
    if count != call.jobs.count {
        return Err(Refusal::ConfigurationSize);
    }
    judge::judge_settings(call, settings)?;
    record::write(&settings[..count], &mut *output)
}
