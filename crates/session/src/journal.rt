// The journal: three bytes for each move, in order.
ghost use Rattle.std.specs.Prelude.{◌≡◌};
ghost use Rattle.reference.specs.Step.{move_of};
ghost use Rattle.session.specs.Model.Replay.{stored};

use state::access::put;

// A move joins the journal's n moves: its three bytes are written from byte 3n on; past the journal's end nothing is.
pub fn keep_move(journal: &mut [u8], n: u16, p: u8, a: u8, o: u8)
    ensures { journal.new ≡ stored journal.old n (move_of p a o) }
{
    let at = 3 * (n as usize);
    put(journal, at, p);
    put(journal, at + 1, a);
    put(journal, at + 2, o);
}
