// For the bench alone: a book read in parts, as the herd desk reads it whole.
#![tactic(auto)]

ghost use Rattle.std.specs.Prelude.{◌≡◌, ◌+◌, ◌*◌, ◌%◌, ◌≤◌, length, take};
ghost use Rattle.book.specs.Call.{call, fed_of, lines_laid};
ghost use Rattle.benchdesk.specs.Bench.{bench_code, benched, number_of, laid_by};

use base::least;
use book::{Answer, Fed, State};

fn code_of(answer: Answer) -> u64
    ensures value { result ≡ bench_code answer }
    ensures upper_bound { result ≤ 255 }
{
    match answer {
        Answer::Closed => 0,
        Answer::Full => 16,
        Answer::More => 17,
        Answer::Refused(refusal) => refusal.code as u64,
    }
}

// The first bytes of rest, part of them at most.
fn feed_part(state: State, rest: &[u8], part: usize, out: &mut [u8]) -> Fed
    ensures value { result ≡ fed_of (call state (take part rest.now) (length out.old)) }
    ensures out_after { out.new ≡ lines_laid (call state (take part rest.now) (length out.old)) out.old }
    ensures taken_in_bounds { (result.taken ≤ length rest.now) × (result.written ≤ length out.old) }
{
    let n = least(part, rest.len());
    state.feed(&rest[..n], out)
}

fn number(code: u64, w: usize) -> u64
    requires { code ≤ 255 }
    ensures { result ≡ code * 4294967296 + w % 4294967296 }
{
    code * 4294967296 + w as u64 % 4294967296
}

// Code times 2^32, plus the bytes written: as herd_desk, but for 18, since nothing is offered after the close. The parts of the state go from call to
// call as locals of their own, so that the compiler keeps no second state in memory.
pub fn bench_parts(book: &[u8], lines: &mut [u8], part: usize) -> u64
    ensures number { result ≡ number_of (benched book.now part (length lines.old)) }
    ensures lines { lines.new ≡ laid_by (benched book.now part (length lines.old)) lines.old }
{
    let start = State::new();
    let mut account = start.account;
    let mut held = start.held;
    let mut count = start.count;
    let mut i = 0;
    let mut w = 0;
    for call in 0..book.len() {
        let state = State {
            account: account,
            held: held,
            count: count,
        };
        let fed = feed_part(state, &book[i..], part, &mut lines[w..]);
        let next = fed.state;
        account = next.account;
        held = next.held;
        count = next.count;
        i += fed.taken;
        w += fed.written;
        let answer = fed.answer;
        let code = code_of(answer);
        if (code != 17) | (i == book.len()) {
            return number(code, w);
        }
    }
    number(17, w)
}
