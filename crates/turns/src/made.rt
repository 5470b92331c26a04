// One turn on a record: its move, what the move makes, and the calls counted with it.
ghost use Rattle.std.specs.Prelude.{◌≡◌};
ghost use Rattle.state.specs.Refusal.{outcome};
ghost use Rattle.script.specs.Association.{move_in};
ghost use Rattle.turns.specs.Model.Turn.{turn_of, Takes};

use script::{Move, next_call};
use session::journal::keep_move;
use state::access::at;
use state::refusal::Refusal;
use state::{Position, Processor, State};
use step::calls::note_move;
use step::moves::moved;

// The move of processor p, which is r: at App the next call of its current thread, elsewhere go.
pub(crate) fn turn_move(r: Processor, calls: &[u16], scripts: &[u8], p: u8) -> Move
    ensures { move_in result ≡ turn_of r calls.now scripts.now p }
{
    if r.position == Position::APP {
        let k = r.current;
        return next_call(scripts, p, k, at(calls, k as usize));
    }
    Move {
        processor: p,
        action: 0,
        operand: 0,
    }
}

// A turn of processor p: accepted, its move is stored behind the journal's, and a call is counted; refused, all stays.
pub(crate) fn make_turn(
    state: &mut State,
    calls: &mut [u16],
    journal: &mut [u8],
    scripts: &[u8],
    p: u8,
) -> Result<(), Refusal>
    ensures { Takes state.old calls.old journal.old scripts.now p (outcome result) state.new calls.new journal.new }
{
    let before = *state;
    let r = before.processor(p);
    let a = turn_move(r, calls, scripts, p);
    let after = moved(before, p, a.action, a.operand)?;
    keep_move(journal, before.applied, p, a.action, a.operand);
    note_move(calls, a.action, r.current);
    *state = after;
    Ok(())
}
