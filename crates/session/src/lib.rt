// Sessions: start, move, going to a step, what the last move touched, the journal's front and its test.
#![tactic(auto)]

pub mod journal;
mod replay;

ghost use Rattle.std.specs.Prelude.{◌≡◌, ◌&&◌, leb, length};
ghost use Rattle.reference.specs.Lists.{if_zero, in_range};
ghost use Rattle.reference.specs.Step.{move_of};
ghost use Rattle.state.specs.Record.{zero_session};
ghost use Rattle.state.specs.Refusal.{outcome};
ghost use Rattle.session.specs.Contract.{table, answer_of, started, lent_refusal, test_refusal, tested_of, tested, move_answer_of, moved, journal_after, went, last_touched, front_of, front};
ghost use Rattle.session.specs.Model.Replay.{counted_in, continued};

use crate::journal::keep_move;
use crate::replay::replayed;
use rules::session_ok;
use state::access::at;
use state::range::in_range;
use state::refusal::Refusal;
use state::{Session, State};
use touch::Touch;

// What an accepted move or turn makes: the session's record, and the words that it touched.
#[derive(Clone, Copy)]
pub struct Moved {
    pub session: Session,
    pub touch: Touch,
}

fn config_ok(p: u8, t: u8, m: u8, b: u8, stealing: u8) -> bool
    ensures { result ≡ in_range 1 8 p && in_range 1 32 t && in_range 1 8 m && in_range 1 t b && leb stealing 1 }
{
    in_range(1, 8, p) & in_range(1, 32, t) & in_range(1, 8, m) & in_range(1, t, b) & (stealing <= 1)
}

// Begins a session: P processors, T threads, M mutexes, B threads created at first; stealing 0 for a single ready queue, 1 for one for each processor.
#[tactic(auto, using(crate::proofs::Answers::started_refused))]
pub fn start(p: u8, t: u8, m: u8, b: u8, stealing: u8) -> Result<Session, Refusal>
    ensures { answer_of zero_session result ≡ started (table p t m b stealing) }
{
    if !config_ok(p, t, m, b, stealing) {
        return Err(Refusal::BadConfig);
    }
    Ok(Session {
        state: State::start(p, t, m, b, stealing),
        initial: b,
        kept: 0,
    })
}

// The first causes of each call that is lent a journal of n bytes: it is too short, or the record breaks a rule.
#[tactic(auto, using(crate::proofs::Answers::lent_short, crate::proofs::Answers::lent_ok, crate::proofs::Answers::lent_bad), unfolding(state::specs::Refusal::outcome, state::specs::Refusal::number))]
pub fn lent(session: Session, n: usize) -> Result<(), Refusal>
    ensures { outcome result ≡ lent_refusal session n }
{
    if n < 12000 {
        return Err(Refusal::TooShort);
    }
    if !session_ok(session) {
        return Err(Refusal::BadRecord);
    }
    Ok(())
}

// The journal's test: whether its standing moves, made from the start table read off the record, give the record, and the kept ones behind them are accepted. Each
// thread's calls among the standing moves, as far as they are made, are added to its count; a list of one has no thread's count.
#[tactic(auto, using(crate::proofs::Testing::test_mismatch, crate::proofs::Testing::test_agrees, crate::proofs::Testing::counted_all), unfolding(state::specs::Refusal::outcome, state::specs::Refusal::number))]
fn test(session: Session, journal: &[u8], calls: &mut [u16]) -> Result<(), Refusal>
    ensures number { outcome result ≡ test_refusal session journal.now }
    ensures calls { calls.new ≡ if_zero (lent_refusal session (length journal.now)) (counted_in session journal.now calls.old) calls.old }
{
    lent(session, journal.len())?;
    replayed(session, journal, session.state.applied as usize, calls).ok_or(Refusal::BadJournal)?;
    Ok(())
}

// The record after moves that lead to a state: where one was made, what was kept behind the standing moves is dropped.
pub fn continued(session: Session, state: State) -> Session
    ensures { result ≡ continued session state }
{
    let n = state.applied;
    let kept = if n == session.state.applied {
        session.kept
    } else {
        n
    };
    Session {
        state,
        kept,
        ..session
    }
}

// Moves processor p: action a with operand o, once the journal is tested. Accepted, the move's three bytes are the journal's next, and no move is kept behind it;
// refused, the journal stays.
pub fn make_move(
    session: Session,
    journal: &mut [u8],
    p: u8,
    a: u8,
    o: u8,
) -> Result<Moved, Refusal>
    ensures answer { move_answer_of session result ≡ moved session journal.old (move_of p a o) }
    ensures written { journal.new ≡ journal_after session journal.old (move_of p a o) }
{
    test(session, journal, &mut [0; 1])?;
    let state = session.state;
    let made = touch::make(state, p, a, o)?;
    keep_move(journal, state.applied, p, a, o);
    Ok(Moved {
        session: continued(session, made.state),
        touch: made.touch,
    })
}

// Tests a journal: whether its standing moves give the record and the kept ones behind them are accepted; and how many calls each thread has made by the standing
// ones.
#[tactic(auto, using(crate::proofs::Testing::tested_refused, crate::proofs::Testing::tested_passed), unfolding(state::specs::Refusal::outcome))]
pub fn test_journal(session: Session, journal: &[u8]) -> Result<[u16; 33], Refusal>
    ensures { tested_of result ≡ tested session journal.now }
{
    let mut calls = [0u16; 33];
    test(session, journal, &mut calls)?;
    Ok(calls)
}

// Goes to step k: the journal's kept moves are replayed from the start table read off the record, and the state after the first k is given. All stay kept.
#[tactic(auto, using(crate::proofs::Went::goto_lent, crate::proofs::Went::goto_none, crate::proofs::Went::goto_mismatch, crate::proofs::Went::goto_taken), unfolding(state::specs::Refusal::outcome))]
pub fn goto(session: Session, journal: &[u8], k: usize) -> Result<Session, Refusal>
    ensures { answer_of session result ≡ went session journal.now k }
{
    lent(session, journal.len())?;
    if (session.kept as usize) < k {
        return Err(Refusal::NoStep);
    }
    let state = replayed(session, journal, k, &mut [0; 1]).ok_or(Refusal::BadJournal)?;
    Ok(Session { state, ..session })
}

// The words that the last standing move touched: going to the step before it gives the state before it. Nothing where that is refused or no move stands.
#[tactic(auto, using(crate::proofs::LastTouch::last_none, crate::proofs::LastTouch::last_some), unfolding(crate::specs::Contract::answer_of, crate::specs::Contract::went))]
pub fn last_touch(session: Session, journal: &[u8]) -> Touch
    ensures { result ≡ last_touched session journal.now }
{
    let n = session.state.applied as usize;
    if n == 0 {
        return Touch::nothing();
    }
    match goto(session, journal, n - 1) {
        Ok(before) => {
            let i = 3 * (n - 1);
            touch::touched(
                before.state,
                at(journal, i),
                at(journal, i + 1),
                at(journal, i + 2),
            )
        }
        Err(_) => Touch::nothing(),
    }
}

// The journal's standing moves: its first 3n bytes where n moves stand.
#[tactic(auto, using(crate::proofs::Answers::front_some), unfolding(state::specs::Refusal::outcome, crate::specs::Contract::front_of))]
pub fn front<'a>(session: Session, journal: &'a [u8]) -> Result<&'a [u8], Refusal>
    ensures number { outcome result ≡ lent_refusal session (length journal.now) }
    ensures bytes { front_of result ≡ front session journal.now }
{
    lent(session, journal.len())?;
    let end = 3 * (session.state.applied as usize);
    Ok(&journal[..end])
}
