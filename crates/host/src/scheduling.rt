// From a circuit file to its block numbers.
ghost use Rattle.std.specs.Prelude.{◌≡◌, ℕ};
ghost use Rattle.links.specs.declared.LoadingRule.TheVariants.{FarAll};
ghost use Rattle.schedule.specs.Schedule.{schedule_by, schedule, Condition, Scheduled, ScheduledBy};
ghost use Rattle.host.specs.Answers.{accepts, walked};

use crate::HostAnswer;

#[unsafe(no_mangle)]
pub extern "C" fn sawhekonu_schedule(file: &[u8], buffer: &mut [u16]) -> HostAnswer
    ensures buffer_after { record { answer = result; buffer = buffer.new } ≡ walked (schedule file.now buffer.old) }
    ensures promise { (k : ℕ) → result ≡ accepts k → Condition file.now → Scheduled file.now k buffer.new }
{
    HostAnswer::from(schedule::schedule(file, buffer))
}

#[unsafe(no_mangle)]
pub extern "C" fn sawhekonu_schedule_both_ends(file: &[u8], buffer: &mut [u16]) -> HostAnswer
    ensures buffer_after { record { answer = result; buffer = buffer.new } ≡ walked (schedule_by FarAll file.now buffer.old) }
    ensures promise { (k : ℕ) → result ≡ accepts k → ScheduledBy FarAll file.now k buffer.new }
{
    HostAnswer::from(schedule::schedule_both_ends(file, buffer))
}
