// What a line of the program `course` asks.
ghost use Rattle.std.specs.Prelude.{ℕ, ◌≤◌, ◌≡◌, List, Option, option_map, IfSome, length, take};
ghost use Rattle.command.specs.Request.{asked, count_in, over};
ghost use Rattle.command.specs.Model.Request.{Asks, values, listed, calls_in, script_line, turns_line, turn_line, mark_front, mark_line, short_line, read_ask, front, ask_in, front_in};

use crate::Command;
use crate::hex::hex_bytes;
use crate::reading::{after, command_of, field};

// The stepper's lines, and script k a o .., turn p, turns p .., view, chart, mark, help. Plain(Unknown) is a line that is no command.
// Script(k, n), Turns(n), MarkOwn(n): their n numbers stand at the front of the lent buffer; Mark(n, m): n, and m behind them.
#[derive(Clone, Copy)]
pub enum Request {
    Plain(Command),
    Script(u8, u16),
    Turn(u8),
    Turns(u16),
    View,
    Chart,
    Mark(u16, u16),
    MarkOwn(u16),
    Help,
}

// The numbers of fields up to the line's end, at most 1,024, put at the buffer's front: how many.
fn fields(line: &[u8], numbers: &mut [u8]) -> Option<u16>
    requires { 1024 ≤ length numbers.old }
    ensures value { result ≡ listed line.now }
    ensures numbers_after { numbers.new ≡ over numbers.old (values 1024 line.now) }
    ensures listed { IfSome result (λ n. (take n numbers.new ≡ values 1024 line.now) × (n ≤ 1024)) }
{
    let mut s = line;
    for count in 0..1024u16 {
        if s.is_empty() {
            return Some(count);
        }
        let (value, rest) = field(s)?;
        numbers[count as usize] = value;
        s = rest;
    }
    s.is_empty().then_some(1024)
}

// Behind `script`: a number, and an even number of further ones.
#[tactic(auto, unfolding(crate::specs::Model::Request::script_line, crate::specs::Model::Request::calls_in))]
fn script(s: &[u8], numbers: &mut [u8]) -> Option<Request>
    requires { 1024 ≤ length numbers.old }
    ensures { Asks result numbers.old numbers.new (script_line s.now) (calls_in s.now) }
{
    let (k, calls) = field(s)?;
    let count = fields(calls, numbers)?;
    (count % 2 == 0).then_some(Request::Script(k, count))
}

// Behind `turns`: one number or more.
#[tactic(auto, unfolding(crate::specs::Model::Request::turns_line))]
fn turns(s: &[u8], numbers: &mut [u8]) -> Option<Request>
    requires { 1024 ≤ length numbers.old }
    ensures { Asks result numbers.old numbers.new (turns_line s.now) (values 1024 s.now) }
{
    let count = fields(s, numbers)?;
    (0 < count).then_some(Request::Turns(count))
}

// Behind `turn`: one number.
#[tactic(auto, unfolding(crate::specs::Model::Request::turn_line))]
fn turn(s: &[u8]) -> Option<Request>
    ensures by_index { (b : List ℕ) → option_map (λ r. asked r b) result ≡ turn_line s.now }
    ensures result_value { IfSome result (λ r. count_in r ≡ 0) }
{
    let (p, s) = field(s)?;
    s.is_empty().then_some(Request::Turn(p))
}

// Behind `mark`: one picture or two. The second's bytes stand behind the first's, where that has none too, and the line is no command.
fn mark(s: &[u8], numbers: &mut [u8]) -> Option<Request>
    requires { (1024 ≤ length numbers.old) × (length s.now ≤ 2048) }
    ensures { Asks result numbers.old numbers.new (mark_line s.now) (mark_front s.now) }
{
    let Some((n, s)) = hex_bytes(s, numbers) else {
        let _ = hex_bytes(&s[s.len().min(1)..], numbers);
        return None;
    };
    if s.is_empty() {
        return Some(Request::MarkOwn(n as u16));
    }
    let (m, end) = hex_bytes(s, &mut numbers[n..])?;
    end.is_empty().then_some(Request::Mark(n as u16, m as u16))
}

// A line without a list of numbers.
#[tactic(auto, unfolding(crate::specs::Model::Request::short_line))]
fn short(line: &[u8]) -> Option<Request>
    ensures by_index { (b : List ℕ) → option_map (λ r. asked r b) result ≡ short_line line.now }
    ensures result_value { IfSome result (λ r. count_in r ≡ 0) }
{
    if let Some(s) = after(b"turn", line) {
        return turn(s);
    }
    if line == b"view".as_slice() {
        return Some(Request::View);
    }
    if line == b"chart".as_slice() {
        return Some(Request::Chart);
    }
    if line == b"help".as_slice() {
        return Some(Request::Help);
    }
    Some(Request::Plain(command_of(line)))
}

#[tactic(auto, unfolding(crate::specs::Model::Request::read_ask, crate::specs::Model::Request::front))]
fn read(line: &[u8], numbers: &mut [u8]) -> Option<Request>
    requires { (1024 ≤ length numbers.old) × (length line.now ≤ 2048) }
    ensures { Asks result numbers.old numbers.new (read_ask line.now) (front line.now) }
{
    if let Some(s) = after(b"script", line) {
        return script(s, numbers);
    }
    if let Some(s) = after(b"turns", line) {
        return turns(s, numbers);
    }
    if let Some(s) = after(b"mark", line) {
        return mark(s, numbers);
    }
    short(line)
}

// What a line asks. It has at most 2,048 bytes and the buffer at least 1024, enough for its numbers.
#[tactic(auto, unfolding(crate::specs::Model::Request::ask_of, crate::specs::Model::Request::front_of))]
pub fn request_of(line: &[u8], numbers: &mut [u8]) -> Request
    ensures numbers_after { asked result numbers.new ≡ ask_in (length numbers.old) line.now }
    ensures numbers_after_2 { numbers.new ≡ over numbers.old (front_in (length numbers.old) line.now) }
    ensures result_bound { count_in result ≤ 1024 }
{
    if numbers.len() < 1024 {
        return Request::Plain(Command::Unknown);
    }
    if 2048 < line.len() {
        return Request::Plain(Command::Unknown);
    }
    read(line, numbers).unwrap_or(Request::Plain(Command::Unknown))
}
