// The course window's entry: the caller keeps one session record for the whole sitting and lends it to each call.
#![tactic(auto, unfolding(state::specs::Refusal::outcome, session::specs::Contract::answer_of, session::specs::Contract::move_answer_of, crate::specs::Made::made_shown))]

ghost use Rattle.std.specs.Prelude.{◌≡◌};
ghost use Rattle.reference.specs.Step.{move_of};
ghost use Rattle.state.specs.Refusal.{outcome};
ghost use Rattle.session.specs.Contract.{moved, journal_after, went};
ghost use Rattle.window.specs.Made.{made_of, made_shown};

use state::Session;
use state::refusal::Refusal;
use touch::Touch;

// Moves processor p, as session::make_move does, in the record that is lent: the words that it touched.
pub fn make_move(
    session: &mut Session,
    journal: &mut [u8],
    p: u8,
    a: u8,
    o: u8,
) -> Result<Touch, Refusal>
    ensures answer { made_shown result ≡ made_of (moved session.old journal.old (move_of p a o)) }
    ensures session { session.new ≡ (moved session.old journal.old (move_of p a o)).session }
    ensures written { journal.new ≡ journal_after session.old journal.old (move_of p a o) }
{
    let moved = session::make_move(*session, journal, p, a, o)?;
    *session = moved.session;
    Ok(moved.touch)
}

// Goes to step k, as session::goto does, in the record that is lent.
pub fn goto(session: &mut Session, journal: &[u8], k: usize) -> Result<(), Refusal>
    ensures number { outcome result ≡ (went session.old journal.now k).refusal }
    ensures session { session.new ≡ (went session.old journal.now k).session }
{
    *session = session::goto(*session, journal, k)?;
    Ok(())
}
