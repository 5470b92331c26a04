// A class: turn after turn on a session, with each turn's answer and picture written into lent buffers.
ghost use Rattle.std.specs.Prelude.{◌≡◌, ◌||◌, ◌*◌, ltb};
ghost use Rattle.reference.specs.Refusal.{too_short, refuse};
ghost use Rattle.reference.specs.Session.{picture_size};
ghost use Rattle.state.specs.Refusal.{outcome};
ghost use Rattle.session.specs.Contract.{config_of, or_later, lent_refusal};
ghost use Rattle.turns.specs.Model.Turn.{Ready, Given};

use crate::made::make_turn;
use picture::writer::put;
use session::lent;
use state::layout::picture_bytes;
use state::refusal::{Refusal, outcome};
use state::{Session, State};

// Why buffers of these lengths do not serve for n turns, or the record does not: 10 (journal), 15, 10 (answers, pictures).
pub(crate) fn unfit(
    session: Session,
    journal: usize,
    n: usize,
    answers: usize,
    pictures: usize,
) -> Result<(), Refusal>
    ensures { outcome result ≡ or_later (lent_refusal session journal) (refuse (ltb answers n || ltb pictures (n * picture_size (config_of session))) too_short 0) }
{
    lent(session, journal)?;
    let state = session.state;
    let size = picture_bytes(state.p, state.t, state.m);
    if (answers < n) | (pictures / size < n) {
        return Err(Refusal::TooShort);
    }
    Ok(())
}

// The turns one after the other, where nothing refuses the class. Pictures are as long as the record's sizes say.
// kept: answers and pictures are written by index, since after chunks_exact_mut or iter_mut a proof does not know what stands in them.
pub(crate) fn take_turns(
    session: Session,
    calls: [u16; 33],
    journal: &mut [u8],
    scripts: &[u8],
    turns: &[u8],
    answers: &mut [u8],
    pictures: &mut [u8],
) -> State
    requires { Ready session calls journal.old scripts.now turns.now answers.old pictures.old }
    ensures { Given session journal.old scripts.now turns.now answers.old pictures.old result journal.new answers.new pictures.new }
{
    let mut state = session.state;
    let mut calls = calls;
    let size = picture_bytes(state.p, state.t, state.m);
    for (i, p) in turns.iter().enumerate() {
        let done = make_turn(&mut state, &mut calls, journal, scripts, *p);
        answers[i] = outcome(done);
        let _fits = put(&mut pictures[i * size..], state);
    }
    state
}
