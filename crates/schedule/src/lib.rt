// From a circuit file to its block numbers in one call, whose contract says the block guarantee. The rules and the promise are in specs/.
#![tactic(auto)]

ghost use Rattle.std.specs.Prelude.{◌≡◌, ℕ, Ok, Err};
ghost use Rattle.file.specs.declared.Refusal.{Refusal};
ghost use Rattle.links.specs.declared.LoadingRule.TheVariants.{NearAll, FarAll};
ghost use Rattle.schedule.specs.Schedule.{schedule_by, Condition, Meets, Scheduled, ScheduledBy, NotScheduled, NotScheduledBy};
ghost use Rattle.schedule.specs.Schedule.{schedule as schedule_of};

use file::Refusal;
use links::LoadingRule;

// The block number of each of the file's records, loaded in either way, to the lent buffer; the answer is how many blocks
// there are. Where the file meets what the way asks, every pulse is in exactly one block, clashing ones are in circuit order,
// and no other schedule is lower anywhere or shorter.
pub fn schedule_by(rule: LoadingRule, file: &[u8], buffer: &mut [u16]) -> Result<usize, Refusal>
    ensures buffer_after { record { answer = result; buffer = buffer.new } ≡ schedule_by rule file.now buffer.old }
    ensures promise { (k : ℕ) → result ≡ Ok k → Meets rule file.now → ScheduledBy rule file.now k buffer.new }
    ensures not_scheduled { (c : Refusal) → result ≡ Err c → NotScheduledBy rule file.now buffer.old c buffer.new }
{
    let loaded = insertion::load_by(rule, file);
    loaded.answer?;
    walk::whole_walk(loaded.graph, buffer)
}

// Document 01's call, whose clause names no rule: the promise is of files with at most one all-qubit pulse where there
// are pulses at both ends.
pub fn schedule(file: &[u8], buffer: &mut [u16]) -> Result<usize, Refusal>
    ensures buffer_after { record { answer = result; buffer = buffer.new } ≡ schedule_of file.now buffer.old }
    ensures promise { (k : ℕ) → result ≡ Ok k → Condition file.now → Scheduled file.now k buffer.new }
    ensures not_scheduled { (c : Refusal) → result ≡ Err c → NotScheduled file.now buffer.old c buffer.new }
{
    schedule_by(LoadingRule::NearAll, file, buffer)
}

// In K6's way: the promise is of every file.
pub fn schedule_both_ends(file: &[u8], buffer: &mut [u16]) -> Result<usize, Refusal>
    ensures buffer_after { record { answer = result; buffer = buffer.new } ≡ schedule_by FarAll file.now buffer.old }
    ensures promise { (k : ℕ) → result ≡ Ok k → ScheduledBy FarAll file.now k buffer.new }
    ensures not_scheduled { (c : Refusal) → result ≡ Err c → NotScheduledBy FarAll file.now buffer.old c buffer.new }
{
    schedule_by(LoadingRule::FarAll, file, buffer)
}
