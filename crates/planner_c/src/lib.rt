// The planner's call for C, as include/planner.h declares it.
#![tactic(auto)]

ghost use Rattle.planner_c.specs.Numbers.{Tells};

// Works a sheet as `carry::carry` does, and answers refusal * 2^32 + count: the number of the refusal that ended the work, 0
// where all lines are answered, and how many bytes of the list are written.
#[unsafe(no_mangle)]
pub extern "C" fn carry(sheet: &[u8], answers: &mut [u8]) -> u64
    ensures { Tells sheet.now answers.old result answers.new }
{
    let carried = carry::carry(sheet, answers);
    u64::from(carried.number()) * (1 << 32) + carried.count as u64
}
