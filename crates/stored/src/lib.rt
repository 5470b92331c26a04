// A session as bytes that the caller keeps: each call reads the record at their front, asks the session's entry point, and writes the record of an accepted call.
#![tactic(auto)]

ghost use Rattle.std.specs.Prelude.{◌≡◌, length};
ghost use Rattle.reference.specs.Step.{move_of};
ghost use Rattle.state.specs.Refusal.{outcome};
ghost use Rattle.session.specs.Contract.{table, lent_refusal, moved, journal_after, went};
ghost use Rattle.turns.specs.Contract.{turned, turn_journal};
ghost use Rattle.stored.specs.Stored.{session_in};
ghost use Rattle.stored.specs.Calls.{start_number, start_bytes, move_bytes, turn_bytes, goto_bytes, picture_number, picture_after, front_shown, front_number};

mod bytes;

use crate::bytes::{read, write};
use rules::session_ok;
use state::layout::picture_bytes;
use state::refusal::Refusal;

// Begins a session, with its bytes at the front and the later bytes kept: 1, 10.
pub fn start(p: u8, t: u8, m: u8, b: u8, stealing: u8, session: &mut [u8]) -> Result<(), Refusal>
    ensures number { outcome result ≡ start_number (table p t m b stealing) (length session.old) }
    ensures session { session.new ≡ start_bytes (table p t m b stealing) session.old }
{
    let begun = session::start(p, t, m, b, stealing)?;
    if session.len() < picture_bytes(p, t, m) + 3 {
        return Err(Refusal::TooShort);
    }
    write(session, begun);
    Ok(())
}

// Moves processor p, as session::make_move does.
pub fn make_move(session: &mut [u8], journal: &mut [u8], p: u8, a: u8, o: u8) -> Result<(), Refusal>
    ensures number { outcome result ≡ (moved (session_in session.old) journal.old (move_of p a o)).refusal }
    ensures session { session.new ≡ move_bytes session.old journal.old (move_of p a o) }
    ensures journal { journal.new ≡ journal_after (session_in session.old) journal.old (move_of p a o) }
{
    let made = session::make_move(read(session), journal, p, a, o)?;
    write(session, made.session);
    Ok(())
}

// A turn of processor p, as turns::turn makes it.
pub fn turn(session: &mut [u8], journal: &mut [u8], scripts: &[u8], p: u8) -> Result<(), Refusal>
    ensures number { outcome result ≡ (turned (session_in session.old) journal.old scripts.now p).refusal }
    ensures session { session.new ≡ turn_bytes session.old journal.old scripts.now p }
    ensures journal { journal.new ≡ turn_journal (session_in session.old) journal.old scripts.now p }
{
    let made = turns::turn(read(session), journal, scripts, p)?;
    write(session, made.session);
    Ok(())
}

// Goes to step k, as session::goto does.
pub fn goto(session: &mut [u8], journal: &[u8], k: usize) -> Result<(), Refusal>
    ensures number { outcome result ≡ (went (session_in session.old) journal.now k).refusal }
    ensures session { session.new ≡ goto_bytes session.old journal.now k }
{
    let there = session::goto(read(session), journal, k)?;
    write(session, there);
    Ok(())
}

// The picture of the session's state into a buffer's front, its later bytes kept: 15, 10.
pub fn picture(session: &[u8], buffer: &mut [u8]) -> Result<(), Refusal>
    ensures number { outcome result ≡ picture_number session.now (length buffer.old) }
    ensures written { buffer.new ≡ picture_after session.now buffer.old }
{
    let record = read(session);
    if !session_ok(record) {
        return Err(Refusal::BadRecord);
    }
    picture::write(record.state, buffer)
}

// How many bytes of the journal are its front: 10, 15.
pub fn front(session: &[u8], journal: &[u8]) -> Result<u16, Refusal>
    ensures number { outcome result ≡ lent_refusal (session_in session.now) (length journal.now) }
    ensures shown { front_shown result ≡ front_number session.now journal.now }
{
    let standing = session::front(read(session), journal)?;
    Ok(standing.len() as u16)
}
