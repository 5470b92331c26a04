// A row of the chart: a move, the line or the call that it made and what it changed.
ghost use Rattle.std.specs.Prelude.{◌≡◌, ◌+◌, ◌-◌, ◌*◌, true, false};
ghost use Rattle.std.specs.Fn.{FnOnceReturnsAtMut};
ghost use Rattle.command.specs.Printing.{spaces, written};
ghost use Rattle.reference.specs.Lists.{choose, in_range};
ghost use Rattle.chart.specs.Chart.{deed, made, owner_change, token_change, queued, queue_name, queue_change, row};
ghost use Rattle.chart.specs.Model.Row.{move_in};

use command::printing::Page;
use state::access::at;
use state::range::in_range;
use state::{Mutex, State, Thread};
use view::words::{put_action, put_field, put_line_name, put_or_dash, put_token};

// A move, with the states before and after it, in a chart of so many columns.
#[derive(Clone, Copy)]
pub(crate) struct Row {
    pub count: u8,
    pub before: State,
    pub p: u8,
    pub a: u8,
    pub o: u8,
    pub after: State,
}

// The changes: the owner and the token of mutex m, which is y now, and a thread that joined a queue or left it.

#[tactic(auto, using(command::proofs::Put::page_steps), unfolding(command::specs::Printing::text, crate::specs::Chart::owner_change))]
fn owner(page: &mut Page, m: u8, y: Mutex)
    ensures { page.new ≡ written page.old (owner_change m y) }
{
    page.put(b"  owner ");
    page.number(m);
    page.put(b": ");
    put_or_dash(page, y.owner);
}

#[tactic(auto, using(command::proofs::Put::page_steps), unfolding(command::specs::Printing::text, crate::specs::Chart::token_change))]
fn token(page: &mut Page, m: u8, y: Mutex)
    ensures { page.new ≡ written page.old (token_change m y) }
{
    page.put(b"  token ");
    page.number(m);
    page.put(b": ");
    put_token(page, y.token);
}

#[tactic(auto, using(command::proofs::Put::page_steps, crate::proofs::Rows::queue_names), unfolding(command::specs::Printing::text))]
fn queue_name(page: &mut Page, t: Thread)
    ensures { page.new ≡ written page.old (queue_name t) }
{
    if t.status == 2 {
        page.put(b"  queue");
        put_field(page, t.holder);
    } else {
        page.put(b"  ready");
        if t.holder != 0 {
            put_field(page, t.holder);
        }
    }
}

fn queued(t: Thread) -> bool
    ensures { result ≡ queued t }
{
    (t.status == 1) | (t.status == 2)
}

#[tactic(auto, using(command::proofs::Put::page_steps), unfolding(crate::specs::Chart::queue_change))]
fn queue(page: &mut Page, sign: &[u8], t: Thread, k: u8)
    ensures { page.new ≡ written page.old (queue_change sign.now t k) }
{
    queue_name(page, t);
    page.put(sign);
    page.number(k);
}

impl Row {
    // The line that a go executes, or the call with its operand.
    #[tactic(auto, using(command::proofs::Put::page_steps, crate::proofs::Rows::deeds))]
    fn deed(&self, page: &mut Page)
        ensures { page.new ≡ written page.old (deed self.now.before (move_in self.now)) }
    {
        if self.a == 0 {
            put_line_name(page, self.before.processor(self.p).position);
        } else {
            put_action(page, self.a);
            if self.o != 0 {
                put_field(page, self.o);
            }
        }
    }

    // The width of the columns before the mover's.
    fn columns_before(&self) -> usize
        ensures { result ≡ choose (in_range 1 self.now.count self.now.p) (11 * (self.now.p - 1)) 0 }
    {
        if in_range(1, self.count, self.p) {
            11 * (self.p as usize).saturating_sub(1)
        } else {
            0
        }
    }

    // The row up to its changes.
    #[tactic(auto, using(command::proofs::Put::page_steps), unfolding(crate::specs::Chart::made))]
    fn made(&self, page: &mut Page)
        ensures { page.new ≡ written page.old (made self.now.count self.now.before (move_in self.now) self.now.after) }
    {
        page.column(6, |page| page.wide(self.after.applied));
        page.spaces(self.columns_before());
        self.deed(page);
    }

    // A change, where there is one, behind the row that began at `from`.
    fn note<F: FnOnce(&mut Page)>(&self, page: &mut Page, from: usize, there: bool, change: F)
        requires { F.IsAlwaysCallable change }
        ensures none { there ≡ false → page.new ≡ page.old }
        ensures change { there ≡ true → FnOnceReturnsAtMut F.FnOnce change (written page.old (spaces (4 + 11 * self.now.count - (page.old.len - from)))) tt page.new }
    {
        if there {
            page.pad(from, 4 + 11 * (self.count as usize));
            change(page);
        }
    }

    pub(crate) fn put(&self, page: &mut Page)
        ensures { page.new ≡ written page.old (row self.now.before (move_in self.now) self.now.after self.now.count) }
    {
        let from = page.len;
        let before = self.before.processor(self.p);
        let after = self.after.processor(self.p);
        let m = before.mutex;
        let x = at(&self.before.mutexes, m as usize);
        let y = at(&self.after.mutexes, m as usize);
        let joined = at(&self.after.chains.threads, before.transit as usize);
        let left = at(&self.before.chains.threads, after.transit as usize);
        self.made(page);
        self.note(page, from, x.owner != y.owner, |page| owner(page, m, y));
        self.note(page, from, x.token != y.token, |page| token(page, m, y));
        self.note(
            page,
            from,
            queued(joined),
            |page| queue(page, b": +", joined, before.transit),
        );
        self.note(
            page,
            from,
            queued(left),
            |page| queue(page, b": -", left, after.transit),
        );
        page.push(b'\n');
    }
}
