// A machine as 258 numbers, both ways.
ghost use Rattle.std.specs.Prelude.{◌≡◌, length};
ghost use Rattle.export.specs.Start.{start_says, state_started};
ghost use Rattle.export.specs.State.{row_numbers, state_of, read_of};
ghost use Rattle.export.specs.Inside.{stage_numbers, stage_told, field_told, row_told};

use machine::{Machine, Row, Stage};
use refusals::Refusal;

// The places of a machine, the numbers of a place, and those of a machine: the count of rows, the clock and its places.
const PLACES: usize = 32;

const PLACE: usize = 8;

pub(crate) const STATE: usize = 2 + PLACE * PLACES;

// The three numbers of a stage.
fn stage_numbers(s: Stage) -> [u64; 3]
    ensures { result ≡ stage_numbers s }
{
    match s {
        Stage::Never => [0, 0, 0],
        Stage::Guest(arrival, used) => [1, arrival, used],
        Stage::Hyper(arrival, left) => [2, arrival, left],
        Stage::Closed(arrival) => [3, arrival, 0],
    }
}

// A row to the eight numbers of a place, each stored by itself: with an array of them that is copied, a tick of its own takes 1.2 to
// 1.3 of the time.
fn put_row(place: &mut [u64], r: &Row)
    requires { length place.old ≡ PLACE }
    ensures { place.new ≡ row_numbers r.now }
{
    let [stage, arrival, ticks] = stage_numbers(r.stage);
    place[0] = u64::from(r.t);
    place[1] = u64::from(r.d);
    place[2] = u64::from(r.c);
    place[3] = u64::from(r.k);
    place[4] = u64::from(r.e);
    place[5] = stage;
    place[6] = arrival;
    place[7] = ticks;
}

// A machine to its numbers.
pub(crate) fn put(numbers: &mut [u64; STATE], m: &Machine)
    ensures { numbers.new ≡ state_of m.now }
{
    numbers[0] = m.count as u64;
    numbers[1] = m.clock;
    for (i, row) in m.rows.iter().enumerate() {
        let at = 2 + PLACE * i;
        put_row(&mut numbers[at..at + PLACE], row);
    }
}

// A fresh machine of a table into lent numbers.
#[tactic(auto, unfolding(crate::specs::Start::start_says, crate::specs::Start::state_started))]
pub(crate) fn start(table: &[u32], state: &mut [u64]) -> Result<usize, Refusal>
    ensures answers { result ≡ start_says table.now (length state.old) }
    ensures leaves { state.new ≡ state_started table.now state.old }
{
    let numbers = state.first_chunk_mut().ok_or(Refusal::OutputShort(STATE))?;
    let s = start::start(table);
    put(numbers, &s.machine);
    s.answer
}

// The stage that three numbers tell: none where there is no such stage, or where a number isn't 0 that it has no use for.
#[tactic(auto, unfolding(crate::specs::State::stray))]
fn stage_in(stage: u64, arrival: u64, ticks: u64) -> Option<Stage>
    ensures { result ≡ stage_told stage arrival ticks }
{
    match (stage, arrival, ticks) {
        (0, 0, 0) => Some(Stage::Never),
        (1, arrival, used) => Some(Stage::Guest(arrival, used)),
        (2, arrival, left) => Some(Stage::Hyper(arrival, left)),
        (3, arrival, 0) => Some(Stage::Closed(arrival)),
        _ => None,
    }
}

// A field of a row, which has 32 bits.
fn field_in(x: u64) -> Option<u32>
    ensures { result ≡ field_told x }
{
    u32::try_from(x).ok()
}

// The row that the numbers of a place tell, where they tell one.
#[tactic(auto, unfolding(crate::specs::State::unreadable, crate::specs::State::row_in))]
fn row_in(place: &[u64; PLACE]) -> Option<Row>
    ensures { result ≡ row_told place.now }
{
    let [t, d, c, k, e, stage, arrival, ticks] = *place;
    Some(Row {
        t: field_in(t)?,
        d: field_in(d)?,
        c: field_in(c)?,
        k: field_in(k)?,
        e: field_in(e)?,
        stage: stage_in(stage, arrival, ticks)?,
    })
}

// The machine that numbers tell, where they tell one.
pub(crate) fn machine_in(numbers: &[u64; STATE]) -> Option<Machine>
    ensures { result ≡ read_of numbers.now }
{
    let (places, _) = numbers[2..].as_chunks();
    let mut rows = [start::no_row(); PLACES];
    for (i, place) in places.iter().enumerate() {
        rows[i] = row_in(place)?;
    }
    Some(Machine {
        rows,
        count: numbers[0] as usize,
        clock: numbers[1],
    })
}

// A machine from lent numbers, where it can be read. Never inlined: a loop of ticks beside it takes up to 1.3 times as long.
#[inline(never)]
#[tactic(auto, using(crate::proofs::States::read_front, crate::proofs::States::read_short))]
pub fn read(state: &[u64]) -> Option<Machine>
    ensures { result ≡ read_of state.now }
{
    machine_in(state.first_chunk()?)
}
