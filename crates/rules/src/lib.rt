// The rules that a picture keeps (12 fields, 13 chains, 14 holders) and the rule of a session's record (15), as tests on a record.
#![tactic(auto)]

ghost use Rattle.std.specs.Prelude.{◌≡◌};
ghost use Rattle.state.specs.Refusal.{outcome};
ghost use Rattle.state.specs.Rules.{broken_rule, state_ok, session_ok};

pub mod chain;
pub mod field;
pub mod holder;
mod register;
mod zero;

use state::range::in_range;
use state::refusal::Refusal;
use state::{Session, State};

// The first rule of a picture that the record breaks.
#[tactic(auto, unfolding(state::specs::Refusal::outcome, state::specs::Refusal::number, state::specs::Rules::broken_rule, state::specs::Rules::chains_ok))]
pub fn broken_rule(s: State) -> Result<(), Refusal>
    ensures { outcome result ≡ broken_rule s }
{
    if !field::fields_ok(s) {
        return Err(Refusal::BadField);
    }
    if !chain::chains_ok(&s.chains.threads, s.chains.firsts, s.t) {
        return Err(Refusal::BadChain);
    }
    if !holder::holders_ok(s) {
        return Err(Refusal::BadHolder);
    }
    Ok(())
}

// The record keeps the rules, and is zero where its picture does not reach.
#[tactic(auto, unfolding(state::specs::Rules::state_ok))]
pub fn state_ok(s: State) -> bool
    ensures { result ≡ state_ok s }
{
    broken_rule(s).is_ok() & zero::zero_past(s)
}

// And B is 1 to T, and the number kept not below the standing moves nor above 4,000.
#[tactic(auto, unfolding(state::specs::Rules::session_ok))]
pub fn session_ok(r: Session) -> bool
    ensures { result ≡ session_ok r }
{
    let kept = (r.state.applied <= r.kept) & (r.kept <= 4000);
    state_ok(r.state) & in_range(1, r.state.t, r.initial) & kept
}
