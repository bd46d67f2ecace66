// Many ticks in one call, to take their time: the machine goes by value from tick to tick.
#![tactic(auto)]

ghost use Rattle.std.specs.Prelude.{◌≡◌, ℕ, ◌+◌, ◌≤◌};
ghost use Rattle.pace.specs.Pace.{taken_sum, said_sum, ticks_sum, pace_of};

use export::ticks;
use machine::{Machine, Stepped, Taken};
use refusals::Refusal;

// More ticks have a sum that might not fit.
const MOST_TIMES: u64 = 1 << 32;

// The last four bytes of the answer to a tick that was taken, added up.
fn taken_sum(t: Taken) -> u64
    ensures value { result ≡ taken_sum t }
    ensures bound { result ≤ 1020 }
{
    u64::from(ticks::who_of(t.ran))
        + (ticks::task_of(t.ran) % 256) as u64
        + u64::from(ticks::mark_of(t.mark))
        + u64::from(ticks::bit_of(t.ignored))
}

// The last four bytes of an answer, added up.
fn said_sum(a: Result<Taken, Refusal>) -> u64
    ensures value { result ≡ said_sum a }
    ensures bound { result ≤ 1020 }
{
    match a {
        Ok(t) => taken_sum(t),
        Err(r) => 3 + u64::from(r.number() % 256),
    }
}

// The same tick so many times from a machine: what the answers say, added up. The machine stays in the step's result, whose first
// answer nobody reads: with a variable for it a tick takes up to 2.6 times as long.
fn run(m: Machine, mask: u32, signal: u8, early: bool, times: u64) -> u64
    requires { times ≤ 4294967296 }
    ensures { result ≡ ticks_sum m mask signal early times }
{
    let mut s = Stepped {
        machine: m,
        answer: Err(Refusal::NotWellFormed(0)),
    };
    let mut total: u64 = 0;
    for _ in 0..times {
        s = s.machine.step(mask, signal, early);
        total += said_sum(s.answer);
    }
    total
}

// The same from the machine in lent numbers; 0 where it can't be read, and for more than 2^32 ticks.
#[tactic(auto, unfolding(crate::specs::Pace::pace_of, export::specs::State::read_of))]
pub fn tollsalmon_bench_ticks(state: &[u64], mask: u32, signal: u8, early: u8, times: u64) -> u64
    ensures { result ≡ pace_of state.now mask signal early times }
{
    if MOST_TIMES < times {
        return 0;
    }
    let Some(m) = export::state::read(state) else {
        return 0;
    };
    run(m, mask, signal, early == 1, times)
}
