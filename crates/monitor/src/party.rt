// A party's number, as every function past the first questions takes it.
ghost use Rattle.std.specs.Prelude.{◌≡◌, ◌<◌, MatchResult};

use rules::Refusal;

// One of the sixteen parties. It is handed on beside the record: a struct of both would hold the lent words, of which `words::count` tells.
#[derive(Clone, Copy)]
pub(crate) struct PartyNumber {
    pub(crate) index: usize,
    ghost known: { index < 16 },
}

impl TryFrom<u32> for PartyNumber {
    type Error = Refusal;

    ghost use Rattle.rules.specs.declared.refusal.Refusal.TheVariants.{UnknownParty};

    ghost try_from_gives = { λ n r. MatchResult r (λ p. p.index ≡ n) (λ e. (e ≡ UnknownParty) × (15 < n)) };

    fn try_from(number: u32) -> Result<PartyNumber, Refusal> {
        if number > 15 {
            return Err(Refusal::UnknownParty);
        }
        Ok(PartyNumber {
            index: number as usize,
        })
    }
}

impl From<PartyNumber> for u32 {
    ghost from_gives = { λ p n. n ≡ p.index };

    // As the record has it. By `as`, here and above: Rust has no `From` between 32 bits and usize, and `try_from` cannot fail.
    fn from(p: PartyNumber) -> u32 {
        p.index as u32
    }
}
