// A session as bytes that the caller keeps, for C: the calls of crate stored.
ghost use Rattle.std.specs.Prelude.{◌≡◌, length};
ghost use Rattle.reference.specs.Step.{move_of};
ghost use Rattle.session.specs.Contract.{table, moved, journal_after, went};
ghost use Rattle.turns.specs.Contract.{turned, turn_journal};
ghost use Rattle.stored.specs.Stored.{session_in};
ghost use Rattle.stored.specs.Calls.{start_number, start_bytes, move_bytes, turn_bytes, goto_bytes, picture_number, picture_after, front_number};

use crate::numbers::wide;
use state::refusal::outcome;

// Begins a session and writes its bytes: 1, 10, else 0. Refused, no byte is written.
#[unsafe(no_mangle)]
pub extern "C" fn humdayeg_session_start(
    p: u8,
    t: u8,
    m: u8,
    b: u8,
    stealing: u8,
    session: &mut [u8],
) -> u8
    ensures number { result ≡ start_number (table p t m b stealing) (length session.old) }
    ensures session { session.new ≡ start_bytes (table p t m b stealing) session.old }
{
    outcome(stored::start(p, t, m, b, stealing, session))
}

// Moves a processor: 10, 15, 16, 2, 3, 8, 4 or 5, 6, 7 or 21, else 0, with the session's bytes and the move's three in the journal written. Refused, no byte is written.
#[unsafe(no_mangle)]
pub extern "C" fn humdayeg_session_move(
    session: &mut [u8],
    journal: &mut [u8],
    processor: u8,
    action: u8,
    operand: u8,
) -> u8
    ensures number { result ≡ (moved (session_in session.old) journal.old (move_of processor action operand)).refusal }
    ensures session { session.new ≡ move_bytes session.old journal.old (move_of processor action operand) }
    ensures journal { journal.new ≡ journal_after (session_in session.old) journal.old (move_of processor action operand) }
{
    outcome(stored::make_move(session, journal, processor, action, operand))
}

// A turn of a processor by the scripts: 10, 15, 16, 19, then its move's; likewise.
#[unsafe(no_mangle)]
pub extern "C" fn humdayeg_session_turn(
    session: &mut [u8],
    journal: &mut [u8],
    scripts: &[u8],
    processor: u8,
) -> u8
    ensures number { result ≡ (turned (session_in session.old) journal.old scripts.now processor).refusal }
    ensures session { session.new ≡ turn_bytes session.old journal.old scripts.now processor }
    ensures journal { journal.new ≡ turn_journal (session_in session.old) journal.old scripts.now processor }
{
    outcome(stored::turn(session, journal, scripts, processor))
}

// Goes to a step: 10, 15, 9, 16, else 0, with the session's bytes written. Refused, no byte is written.
#[unsafe(no_mangle)]
pub extern "C" fn humdayeg_session_goto(session: &mut [u8], journal: &[u8], step: usize) -> u8
    ensures number { result ≡ (went (session_in session.old) journal.now step).refusal }
    ensures session { session.new ≡ goto_bytes session.old journal.now step }
{
    outcome(stored::goto(session, journal, step))
}

// The picture of a session's state into a buffer's front, its later bytes kept: 15, 10, else 0. Refused, no byte is written.
#[unsafe(no_mangle)]
pub extern "C" fn humdayeg_session_picture(session: &[u8], picture: &mut [u8]) -> u8
    ensures number { result ≡ picture_number session.now (length picture.old) }
    ensures written { picture.new ≡ picture_after session.now picture.old }
{
    outcome(stored::picture(session, picture))
}

// How many bytes at the journal's front are the standing moves: 0 to 12,000; 20,000 plus 10 or 15 where that is refused.
#[unsafe(no_mangle)]
pub extern "C" fn humdayeg_session_front(session: &[u8], journal: &[u8]) -> u16
    ensures { result ≡ front_number session.now journal.now }
{
    wide(stored::front(session, journal))
}
