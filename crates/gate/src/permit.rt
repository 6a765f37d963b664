// The list of permitted methods.
ghost use Rattle.std.specs.Prelude.{◌≡◌, length};
ghost use Rattle.rules.specs.Permit.{permits, count_of};

// How many bytes the list has: a bit for each of 2,048 methods of eight subchannels.
pub(crate) const LIST_BYTES: usize = 2048;

// Whether the list permits a method, given by its number. Past its end it permits nothing.
#[tactic(auto, unfolding(rules::specs::Permit::permits))]
pub(crate) fn permitted(permit: &[u8], subchannel: u32, method: u32) -> bool
    ensures { result ≡ permits permit.now subchannel method }
{
    let at = 256 * subchannel as usize + (method / 8) as usize;
    if permit.len() <= at {
        return false;
    }
    (permit[at] >> (method % 8)) & 1 == 1
}

// How many bits of the list are set.
#[tactic(auto, using(rules::proofs::Scans::set_bits_more), unfolding(rules::specs::Permit::count_of))]
pub(crate) fn set_bits(permit: &[u8]) -> u32
    requires { length permit.now ≡ 2048 }
    ensures { result ≡ count_of permit.now }
{
    let mut count = 0;
    for byte in permit {
        count += byte.count_ones();
    }
    count
}
