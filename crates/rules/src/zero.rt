// Rule 15: the record is zero where its picture does not reach.
ghost use Rattle.std.specs.Prelude.{◌≡◌, get_or};
ghost use Rattle.state.specs.Rules.{within_or, zero_past};

use state::State;
use state::access::{Zero, at};
use state::range::{each, in_range};

// Entry i is one of 1 to n, or zero.
fn within_or_zero<T: Zero + PartialEq>(xs: &[T], n: u8, i: u8) -> bool
    ensures { result ≡ within_or n i (T.eq (get_or xs.now i T.zero) T.zero) }
{
    in_range(1, n, i) | (at(xs, i as usize) == T::zero())
}

#[tactic(auto, unfolding(state::specs::Rules::zero_past))]
pub(crate) fn zero_past(s: State) -> bool
    ensures { result ≡ zero_past s }
{
    each(0, 9, |i| within_or_zero(&s.processors, s.p, i))
        & each(0, 9, |i| within_or_zero(&s.mutexes, s.m, i))
        & each(0, 33, |k| within_or_zero(&s.chains.threads, s.t, k))
}
