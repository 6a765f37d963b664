// The archive's functions for programs in C (include/upborliya.h), under the names that they have there: each is the
// function of crates/upborliya, and has its contract.
#![tactic(auto)]

ghost use Rattle.repair.specs.Outcomes.{to_repair};
ghost use Rattle.upborliya.specs.Outcomes.{JudgesPacked, ReadsPacked, RepairsPacked};

// Judges a submission. SLI is off for 0, and on for any other number.
#[unsafe(no_mangle)]
pub extern "C" fn upborliya_judge(
    level: u32,
    sli: u32,
    words: &[u8],
    map: &[u8],
    permit: &[u8],
) -> u64
    ensures { JudgesPacked level sli words.now map.now permit.now result }
{
    upborliya::upborliya_judge(level, sli, words, map, permit)
}

// Reads a word, with the word after it. SLI is off for 0, and on for any other number.
#[unsafe(no_mangle)]
pub extern "C" fn upborliya_read(level: u32, mode: u32, sli: u32, word: u32, next: u32) -> u64
    ensures { ReadsPacked level mode sli word next result }
{
    upborliya::upborliya_read(level, mode, sli, word, next)
}

// Writes the exact map over the author's, and lists what changed. SLI is off for 0, and on for any other
// number.
#[unsafe(no_mangle)]
pub extern "C" fn upborliya_repair(
    level: u32,
    sli: u32,
    words: &[u8],
    map: &mut [u8],
    permit: &[u8],
    list: &mut [u64],
    work: &mut [u64],
) -> u64
    ensures { RepairsPacked level sli (to_repair words.now map.old permit.now list.old work.old) result map.new list.new work.new }
{
    upborliya::upborliya_repair(level, sli, words, map, permit, list, work)
}
