// Scripts of threads as bytes: whether a buffer holds them, the call that a thread makes next, and setting a thread's script.
#![tactic(auto)]

ghost use Rattle.std.specs.Prelude.{◌≡◌, ◌++◌, ◌+◌, ◌-◌, ◌*◌, ◌≤◌, leb, length, get_or, take, drop};
ghost use Rattle.reference.specs.Lists.{in_range, each};
ghost use Rattle.reference.specs.Script.{script_byte, script_ok, scripts_ok, next_call};
ghost use Rattle.state.specs.Refusal.{outcome};
ghost use Rattle.script.specs.Association.{move_in};
ghost use Rattle.script.specs.Contract.{calls_ok, set_refusal, script_bytes, scripts_after};

use state::access::at;
use state::range::{each, in_range};
use state::refusal::Refusal;

const EXIT: u8 = 5;

// A move as numbers.
#[derive(Clone, Copy)]
pub struct Move {
    pub processor: u8,
    pub action: u8,
    pub operand: u8,
}

// Where thread k's script starts; thread 0's is thread 1's.
fn start_of(k: u8) -> u32
    ensures { result ≡ 13 * (k - 1) }
{
    13 * (k.saturating_sub(1) as u32)
}

// Byte i of thread k's script, 0 past the buffer's end.
fn script_byte(scripts: &[u8], k: u8, i: u32) -> u8
    ensures { result ≡ script_byte scripts.now k i }
{
    at(scripts, (start_of(k) as usize) + (i as usize))
}

// The n calls from `from` on have actions 1 to 6.
fn actions_ok(bytes: &[u8], from: u32, n: u8) -> bool
    ensures { result ≡ each (λ i. in_range 1 6 (get_or bytes.now (from + 2 * i) 0)) 0 n }
{
    each(
        0,
        n,
        |i| in_range(1, 6, at(bytes, (from as usize) + 2 * (i as usize))),
    )
}

// Thread k's script is in order: at most 6 calls, each with an action.
#[tactic(auto, using(crate::proofs::Laws::actions_agree), unfolding(reference::specs::Script::script_ok))]
fn script_ok(scripts: &[u8], k: u8) -> bool
    ensures { result ≡ script_ok scripts.now k }
{
    let n = script_byte(scripts, k, 0);
    n <= 6 && actions_ok(scripts, start_of(k) + 1, n)
}

// The buffer has room for the scripts of t threads.
fn room(t: u8, scripts: &[u8]) -> bool
    ensures { result ≡ leb (13 * t) (length scripts.now) }
{
    13 * (t as usize) <= scripts.len()
}

// Whether a buffer holds the scripts of t threads, each in order.
#[tactic(auto, unfolding(reference::specs::Script::scripts_ok))]
pub fn scripts_ok(t: u8, scripts: &[u8]) -> bool
    ensures { result ≡ scripts_ok t scripts.now }
{
    room(t, scripts) && each(1, t, |k| script_ok(scripts, k))
}

// The call of processor p's thread k, which has made i calls: the next of its script, or exit once it has made all.
pub fn next_call(scripts: &[u8], p: u8, k: u8, i: u16) -> Move
    ensures { move_in result ≡ next_call scripts.now p k i }
{
    let i = i as u32;
    let calls = script_byte(scripts, k, 0) as u32;
    if i < calls {
        Move {
            processor: p,
            action: script_byte(scripts, k, 2 * i + 1),
            operand: script_byte(scripts, k, 2 * i + 2),
        }
    } else {
        Move {
            processor: p,
            action: EXIT,
            operand: 0,
        }
    }
}

// These bytes are at most 6 whole calls, with actions 1 to 6.
#[tactic(auto, using(crate::proofs::Laws::actions_agree), unfolding(crate::specs::Contract::calls_ok))]
fn calls_ok(calls: &[u8]) -> bool
    ensures { result ≡ calls_ok calls.now }
{
    let n = calls.len();
    n <= 12 && n % 2 == 0 && actions_ok(calls, 0, (n / 2) as u8)
}

// The script of these calls, written from `from` on: how many they are, the calls, zeros.
fn write(scripts: &mut [u8], from: u32, calls: &[u8])
    requires from_in_bounds { from + 13 ≤ length scripts.old }
    requires calls_len_bound { length calls.now ≤ 12 }
    ensures { scripts.new ≡ take from scripts.old ++ script_bytes calls.now ++ drop (from + 13) scripts.old }
{
    let from = from as usize;
    let n = calls.len();
    let end = from + 1 + n;
    scripts[from] = (n / 2) as u8;
    scripts[from + 1..end].copy_from_slice(calls);
    scripts[end..from + 13].fill(0);
}

// Sets thread k's script among t threads': for each call an action and an operand.
#[tactic(auto, unfolding(state::specs::Refusal::outcome, state::specs::Refusal::number, crate::specs::Contract::set_refusal, crate::specs::Contract::scripts_after, crate::specs::Contract::calls_ok))]
pub fn set_script(t: u8, scripts: &mut [u8], k: u8, calls: &[u8]) -> Result<(), Refusal>
    ensures value { outcome result ≡ set_refusal t scripts.old k calls.now }
    ensures scripts_after { scripts.new ≡ scripts_after t scripts.old k calls.now }
{
    if !in_range(1, t, k) {
        return Err(Refusal::BadOperand);
    }
    if !(room(t, scripts) && calls_ok(calls)) {
        return Err(Refusal::BadScript);
    }
    write(scripts, start_of(k), calls);
    Ok(())
}
