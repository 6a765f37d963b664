// Words lent as bytes.
ghost use Rattle.word.specs.Outcomes.{LentAt};

// The word at a place, its lowest byte first; 0 past the last whole word.
#[tactic(auto, using(crate::proofs::Bytes::word_is, crate::proofs::Bytes::word_past))]
pub fn word_at(bytes: &[u8], place: usize) -> u32
    ensures { LentAt bytes.now place result }
{
    if bytes.len() / 4 <= place {
        return 0;
    }
    let at = 4 * place;
    u32::from_le_bytes([bytes[at], bytes[at + 1], bytes[at + 2], bytes[at + 3]])
}
