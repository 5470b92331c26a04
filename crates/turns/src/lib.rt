// Scripted threads: a scripted start, a turn, and a class of turns.
#![tactic(auto)]

mod made;
mod sequence;

ghost use Rattle.std.specs.Prelude.{◌≡◌};
ghost use Rattle.state.specs.Record.{zero_session};
ghost use Rattle.state.specs.Refusal.{outcome};
ghost use Rattle.reference.specs.Script.{scripts_cause};
ghost use Rattle.session.specs.Contract.{table, answer_of, move_answer_of};
ghost use Rattle.turns.specs.Contract.{scripted, turned, turn_journal, classed, class_journal, answers_after, pictures_after};

use crate::made::turn_move;
use crate::sequence::{take_turns, unfit};
use script::scripts_ok;
use session::journal::keep_move;
use session::{Moved, continued, test_journal};
use state::Session;
use state::refusal::Refusal;

// A buffer that does not hold the scripts of t threads, each in order, is refused.
#[tactic(auto, unfolding(state::specs::Refusal::outcome, state::specs::Refusal::number))]
fn test_scripts(t: u8, scripts: &[u8]) -> Result<(), Refusal>
    ensures { outcome result ≡ scripts_cause t scripts.now }
{
    if scripts_ok(t, scripts) {
        Ok(())
    } else {
        Err(Refusal::BadScript)
    }
}

// Begins a session whose threads have scripts: P processors, T threads, M mutexes, B threads created at first; stealing as in session::start.
pub fn start(p: u8, t: u8, m: u8, b: u8, stealing: u8, scripts: &[u8]) -> Result<Session, Refusal>
    ensures { answer_of zero_session result ≡ scripted (table p t m b stealing) scripts.now }
{
    let begun = session::start(p, t, m, b, stealing)?;
    test_scripts(t, scripts)?;
    Ok(begun)
}

// A turn of processor p: the journal's test counts each thread's calls. Accepted, record and journal are those after its move; refused, both stay and nothing is
// touched.
pub fn turn(session: Session, journal: &mut [u8], scripts: &[u8], p: u8) -> Result<Moved, Refusal>
    ensures answer { move_answer_of session result ≡ turned session journal.old scripts.now p }
    ensures written { journal.new ≡ turn_journal session journal.old scripts.now p }
{
    let counts = test_journal(session, journal)?;
    let state = session.state;
    test_scripts(state.t, scripts)?;
    let a = turn_move(state.processor(p), &counts, scripts, p);
    let made = touch::make(state, a.processor, a.action, a.operand)?;
    keep_move(journal, state.applied, a.processor, a.action, a.operand);
    Ok(Moved {
        session: continued(session, made.state),
        touch: made.touch,
    })
}

// A class: the turns of the processors in `turns`, one after the other, with the answer and the picture after each turn, accepted or not, written behind one another.
// Refused as a whole, record, journal and buffers stay.
pub fn class(
    session: Session,
    journal: &mut [u8],
    scripts: &[u8],
    turns: &[u8],
    answers: &mut [u8],
    pictures: &mut [u8],
) -> Result<Session, Refusal>
    ensures answer { answer_of session result ≡ classed session journal.old scripts.now turns.now answers.old pictures.old }
    ensures journal { journal.new ≡ class_journal session journal.old scripts.now turns.now answers.old pictures.old }
    ensures answers { answers.new ≡ answers_after session journal.old scripts.now turns.now answers.old pictures.old }
    ensures pictures { pictures.new ≡ pictures_after session journal.old scripts.now turns.now answers.old pictures.old }
{
    unfit(
        session,
        journal.len(),
        turns.len(),
        answers.len(),
        pictures.len(),
    )?;
    let calls = test_journal(session, journal)?;
    test_scripts(session.state.t, scripts)?;
    let state = take_turns(session, calls, journal, scripts, turns, answers, pictures);
    Ok(continued(session, state))
}
