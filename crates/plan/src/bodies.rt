// Bodies as values: the rows' numbers and a script's records.
ghost use Rattle.std.specs.Prelude.{◌≡◌};
ghost use Rattle.std.specs.Iterator.{YieldsFirst, item_count};
ghost use Rattle.plan.specs.PlanFile.{first_wrong_record};
ghost use Rattle.plan.specs.Bodies.{tick_at, record_of, records_of, Takes};

use super::{RowsError, Tick, number};
use std::marker::Model;

impl Tick {
    // The tick that eight bytes record.
    fn of(bytes: &[u8; 8]) -> Tick
        ensures { result ≡ tick_at bytes.now 0 }
    {
        Tick {
            mask: number(bytes, 0),
            signal: bytes[4],
            early: bytes[5] == 1,
        }
    }
}

// Record i of a script, from 0, where there is one.
pub fn record(script: &[u8], i: usize) -> Option<Tick>
    ensures { result ≡ record_of script.now i }
{
    let (records, _) = script.as_chunks::<8>();
    records.get(i).map(Tick::of)
}

// The records of a script, one after the other; half a record at its end is none.
#[derive(Drop)]
pub struct Ticks<'a> {
    rest: &'a [u8],
}

impl<'a> Model for Ticks<'a> {
    ghost use Rattle.std.specs.Prelude.{List};
    ghost use Rattle.plan.specs.declared.Tick.{Tick};
    ghost use Rattle.plan.specs.Bodies.{records_of};

    ghost Value = { List Tick };

    ghost view = { λ r. records_of r.rest.now };
}

impl<'a> Iterator for Ticks<'a> {
    type Item = Tick;

    ghost next_gives = { YieldsFirst (λ s. s) };

    ghost remaining = { item_count (λ s. s) };

    fn next(&mut self) -> Option<Tick> {
        let (first, rest) = self.rest.split_first_chunk()?;
        self.rest = rest;
        Some(Tick::of(first))
    }
}

// All the records of a script.
pub fn records(script: &[u8]) -> Ticks<'_>
    ensures { result ≡ records_of script.now }
{
    Ticks { rest: script }
}

// 17: the first record of a script with a wrong early mark or spare byte.
pub(crate) fn first_wrong_record(script: &[u8]) -> Option<usize>
    ensures { result ≡ first_wrong_record script.now }
{
    let (records, _) = script.as_chunks::<8>();
    records.iter().position(|&[.., early, spare, last]| 1 < early || spare != 0 || last != 0)
}

// The rows' bytes as numbers, at the front of the lent table. Nothing is touched where they aren't in fours or don't fit.
pub fn table_of(rows: &[u8], table: &mut [u32]) -> Result<usize, RowsError>
    ensures { Takes rows.now table.old result table.new }
{
    let (numbers, rest) = rows.as_chunks::<4>();
    if !rest.is_empty() {
        return Err(RowsError::NotInFours(rows.len()));
    }
    if table.len() < numbers.len() {
        return Err(RowsError::TooShort(numbers.len()));
    }
    for (i, bytes) in numbers.iter().enumerate() {
        table[i] = u32::from_le_bytes(*bytes);
    }
    Ok(numbers.len())
}
