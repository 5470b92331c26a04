// Answers as one number: a value as it is, a refusal's number added to one that no value reaches.
ghost use Rattle.std.specs.Prelude.{◌≡◌};
ghost use Rattle.stored.specs.Calls.{front_shown};
ghost use Rattle.exports.specs.Model.Answers.{small_number};

use state::refusal::Refusal;

// What a refusal's number is added to where small numbers are answers.
const REFUSED: u8 = 200;

// The same where a mark or a length is asked for.
const WIDE_REFUSED: u16 = 20000;

#[tactic(auto, using(crate::proofs::Tried::number_most), unfolding(crate::specs::Model::Answers::small_number))]
pub(crate) fn small(answer: Result<u8, Refusal>) -> u8
    ensures { result ≡ small_number answer }
{
    match answer {
        Ok(n) => n,
        Err(refusal) => REFUSED + refusal.number(),
    }
}

#[tactic(auto, using(crate::proofs::Tried::number_most), unfolding(stored::specs::Calls::front_shown))]
pub(crate) fn wide(answer: Result<u16, Refusal>) -> u16
    ensures { result ≡ front_shown answer }
{
    match answer {
        Ok(n) => n,
        Err(refusal) => WIDE_REFUSED + refusal.number() as u16,
    }
}
