// A move's decision: from what its processor sees, why it is refused or what it makes of that.
ghost use Rattle.std.specs.Prelude.{◌≡◌, false, ◌*◌, get_or, eqb};
ghost use Rattle.reference.specs.Refusal.{still_owner};
ghost use Rattle.state.specs.Record.{thread_in};
ghost use Rattle.state.specs.Refusal.{outcome};
ghost use Rattle.step.specs.Model.Moves.{looking, decided, decision};

use crate::cause::cause;
use crate::line::act;
use crate::{Decision, Sizes, View};
use state::Chains;
use state::refusal::Refusal;

// The first cause that is there before the move is tried, then 15, else its effect. Whether the thread of an exit owns a mutex is for `run` to ask: 21 is no answer here.
// The operand names a thread; m is the mutex that the move works on, into whose queue nobody has looked yet.
pub(crate) fn decide(
    chains: &Chains,
    m: u8,
    z: Sizes,
    v: View,
    action: u8,
    operand: u8,
) -> Result<Decision, Refusal>
    ensures decision { decided (looking chains.now m v) action result ≡ decision z (looking chains.now m v) (thread_in chains.now.threads operand).status action operand }
    ensures unasked { eqb (outcome result) still_owner ≡ false }
{
    cause(&chains.threads, z, v, action, operand)?;
    let done = act(z.t, action, operand, v, chains, m);
    if done.broken {
        return Err(Refusal::BadRecord);
    }
    Ok(Decision {
        writes: done.writes,
        effect: done.effect,
    })
}
