// Ticks one after the other, with their answers as bytes.
ghost use Rattle.std.specs.Prelude.{◌≡◌, ◌*◌, ◌/◌, ◌≤◌, ◌++◌, length, drop};
ghost use Rattle.least.specs.Lists.{flat};
ghost use Rattle.plan.specs.Numbers.{bytes_of};
ghost use Rattle.export.specs.Inside.{RunsTicks, TakesStep};
ghost use Rattle.export.specs.Ticks.{who_of, task_of, mark_of, bit_of, said_of, answer_bytes, machine_after, answer_to};

use crate::state;
use machine::{Machine, Mark, Ran, Taken};
use plan::bodies;
use refusals::Refusal;

// The bytes of a record, and of an answer.
const RECORD: usize = 8;

const ANSWER: usize = 12;

// The largest early mark.
const MOST_EARLY: u8 = 1;

// A state that can't be read.
const UNREADABLE: Refusal = Refusal::NotWellFormed(0);

// The four numbers of what a tick that was taken says.
pub fn who_of(r: Ran) -> u8
    ensures { result ≡ who_of r }
{
    match r {
        Ran::Nobody => 0,
        Ran::Guest(_) => 1,
        Ran::Hypertask(_) => 2,
    }
}

pub fn task_of(r: Ran) -> usize
    ensures { result ≡ task_of r }
{
    match r {
        Ran::Nobody => 0,
        Ran::Guest(i) | Ran::Hypertask(i) => i,
    }
}

pub fn mark_of(m: Mark) -> u8
    ensures { result ≡ mark_of m }
{
    match m {
        Mark::Nothing => 0,
        Mark::Output => 1,
        Mark::BudgetUsedUp => 2,
    }
}

pub fn bit_of(b: bool) -> u8
    ensures { result ≡ bit_of b }
{
    u8::from(b)
}

// The lowest 32 bits of a number, the lowest byte first.
fn number_bytes(x: u64) -> [u8; 4]
    ensures { result ≡ bytes_of x }
{
    ((x % (1 << 32)) as u32).to_le_bytes()
}

// The answer to the tick at a clock: the clock, the refusal's place, and what it says.
fn answer_bytes(clock: u64, answer: Result<Taken, Refusal>) -> [u8; ANSWER]
    ensures { result ≡ answer_bytes clock answer }
{
    let (place, [who, task, mark, ignored]) = match answer {
        Ok(t) => (
            0,
            [
                who_of(t.ran),
                (task_of(t.ran) % 256) as u8,
                mark_of(t.mark),
                bit_of(t.ignored),
            ],
        ),
        Err(r) => (r.place() as u64, [3, (r.number() % 256) as u8, 0, 0]),
    };
    let [a, b, c, d] = number_bytes(clock);
    let [e, f, g, h] = number_bytes(place);
    [a, b, c, d, e, f, g, h, who, task, mark, ignored]
}

// The first n ticks from a machine: the machine after them, their answers at the front of the lent bytes.
fn take(mut m: Machine, records: &[u8], answers: &mut [u8], n: usize) -> Machine
    requires records_in { n ≤ length records.now / 8 }
    requires answers_in { 12 * n ≤ length answers.old }
    ensures value { result ≡ machine_after m records.now n }
    ensures answers { answers.new ≡ flat (answer_to m records.now) n ++ drop (12 * n) answers.old }
{
    for i in 0..n {
        let t = bodies::record(records, i).unwrap();
        let s = m.step(t.mask, t.signal, t.early);
        let at = ANSWER * i;
        answers[at..at + ANSWER].copy_from_slice(&answer_bytes(m.clock, s.answer));
        m = s.machine;
    }
    m
}

// A tick for each whole record that has room for its whole answer, from the machine in lent numbers: how many.
pub(crate) fn run(state: &mut [u64], records: &[u8], answers: &mut [u8]) -> Result<usize, Refusal>
    ensures { RunsTicks state.old records.now answers.old result state.new answers.new }
{
    let numbers = state.first_chunk_mut().ok_or(UNREADABLE)?;
    let m = state::machine_in(numbers).ok_or(UNREADABLE)?;
    let n = (records.len() / RECORD).min(answers.len() / ANSWER);
    if 0 < n {
        state::put(numbers, &take(m, records, answers, n));
    }
    Ok(n)
}

// One tick from the machine in lent numbers, its answer to the front of lent bytes. Where it is refused, nothing is touched.
pub(crate) fn step(
    state: &mut [u64],
    mask: u32,
    signal: u8,
    early: u8,
    answer: &mut [u8],
) -> Result<(), Refusal>
    ensures { TakesStep state.old mask signal early answer.old result state.new answer.new }
{
    if MOST_EARLY < early {
        return Err(Refusal::RecordBytes(0));
    }
    let said = answer
        .first_chunk_mut()
        .ok_or(Refusal::OutputShort(ANSWER))?;
    let numbers = state.first_chunk_mut().ok_or(UNREADABLE)?;
    let m = state::machine_in(numbers).ok_or(UNREADABLE)?;
    let s = m.step(mask, signal, early == 1);
    let taken = s.answer?;
    *said = answer_bytes(m.clock, Ok(taken));
    state::put(numbers, &s.machine);
    Ok(())
}
