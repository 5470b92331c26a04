// Lists of threads put on a page, a space before each, a dash for none.
ghost use Rattle.std.specs.Prelude.{◌≡◌, cond, [], eqb};
ghost use Rattle.command.specs.Printing.{text, written};
ghost use Rattle.state.specs.Record.{thread_in, chain};
ghost use Rattle.command.specs.Request.{fields};
ghost use Rattle.touch.specs.Association.{touch_shown};
ghost use Rattle.view.specs.Words.{or_none, listed, rows};
ghost use Rattle.view.specs.Table.{having};

use crate::each::put_each;
use crate::words::{put_field, put_mark};
use command::printing::Page;
use state::Thread;
use state::access::at;
use touch::{Touch, Word};

// The chain from a first thread.
fn put_chain(page: &mut Page, threads: &[Thread], first: u8)
    ensures { page.new ≡ written page.old (fields (chain (thread_in threads.now) 32 first)) }
{
    let mut k = first;
    for _ in 0..32u8 {
        if k == 0 {
            break;
        }
        put_field(page, k);
        k = at(threads, k as usize).next;
    }
}

// Thread k where it has the status, with the mark of its birth.
#[tactic(auto, using(command::proofs::Put::page_parts), unfolding(crate::specs::Table::having))]
fn put_having(page: &mut Page, touch: Touch, status: u8, k: u8, x: Thread)
    ensures { page.new ≡ written page.old (having (touch_shown touch) status k x) }
{
    if x.status == status {
        put_field(page, k);
        put_mark(page, touch, Word::Birth(k));
    }
}

// The threads of a status, in rising order.
fn put_all_having(page: &mut Page, threads: &[Thread], t: u8, touch: Touch, status: u8)
    ensures { page.new ≡ written page.old (rows (λ k. having (touch_shown touch) status k (thread_in threads.now k)) 1 t) }
{
    put_each(page, 1, t, |page, k| {
        put_having(page, touch, status, k, at(threads, k as usize));
    });
}

// A dash where nothing was put since `from`; where the buffer is full, it does not fit either.
#[tactic(auto, using(command::proofs::Put::page_parts), unfolding(command::specs::Printing::text))]
fn put_none(page: &mut Page, from: usize)
    ensures { page.new ≡ written page.old (cond (eqb page.old.len from) (text " -") []) }
{
    if page.len == from {
        page.put(b" -");
    }
}

#[tactic(auto, using(crate::proofs::Rows::dashed))]
pub(crate) fn put_queue(page: &mut Page, threads: &[Thread], first: u8)
    ensures { page.new ≡ written page.old (listed (chain (thread_in threads.now) 32 first)) }
{
    let from = page.len;
    put_chain(page, threads, first);
    put_none(page, from);
}

#[tactic(auto, using(crate::proofs::Rows::dashed))]
pub(crate) fn put_threads(page: &mut Page, threads: &[Thread], t: u8, touch: Touch, status: u8)
    ensures { page.new ≡ written page.old (or_none (rows (λ k. having (touch_shown touch) status k (thread_in threads.now k)) 1 t)) }
{
    let from = page.len;
    put_all_having(page, threads, t, touch, status);
    put_none(page, from);
}
