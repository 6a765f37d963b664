// The repair of a map, with its answer in one number.
ghost use Rattle.std.specs.Prelude.{◌≡◌};
ghost use Rattle.repair.specs.Outcomes.{to_repair};
ghost use Rattle.upborliya.specs.Packed.{packed_repair};
ghost use Rattle.upborliya.specs.Outcomes.{RepairsPacked};

use repair::repair;
use word::Refusal;

// Writes the exact map over the author's, and lists what changed. SLI is off for 0, and on for any other
// number.
pub fn upborliya_repair(
    level: u32,
    sli: u32,
    words: &[u8],
    map: &mut [u8],
    permit: &[u8],
    list: &mut [u64],
    work: &mut [u64],
) -> u64
    ensures { RepairsPacked level sli (to_repair words.now map.old permit.now list.old work.old) result map.new list.new work.new }
{
    pack_repaired(repair(level, sli != 0, words, map, permit, list, work))
}

// As the gatekeeper's: the refusal from bit 8 on, the count from bit 24 on.
#[tactic(auto, unfolding(crate::specs::Packed::packed_repair))]
fn pack_repaired(repaired: Result<usize, Refusal>) -> u64
    ensures { result ≡ packed_repair repaired }
{
    match repaired {
        Ok(count) => (count % 0x1_0000) as u64 * 0x100_0000,
        Err(refusal) => refusal.number as u64 * 0x100,
    }
}
