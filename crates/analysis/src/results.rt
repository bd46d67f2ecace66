// R, E and G of the rows in their order, and into lent memory.
ghost use Rattle.std.specs.Prelude.{◌≡◌, ◌+◌, ◌*◌, ◌≤◌, ◌++◌, length, drop, Ok};
ghost use Rattle.equations.specs.Table.{rows};
ghost use Rattle.equations.specs.Analysis.{hypertask_check, guest_check};
ghost use Rattle.analysis.specs.Inside.{Hypertasks, Guests, three_at};
ghost use Rattle.least.specs.Lists.{flat};

use crate::guest::Guest;
use crate::table::Table;
use refusals::Refusal;

// R, E and G of a task.
#[derive(Clone, Copy, Debug, PartialEq, Eq)]
pub(crate) struct Responses {
    pub r: u32,
    pub e: u32,
    pub g: u32,
}

// R and E of each row, or the first refusal of 5 and 6.
#[tactic(auto, using(crate::proofs::Found::rowwise), unfolding(equations::specs::Analysis::hypertask_check))]
pub(crate) fn hypertasks(table: &Table<'_>, found: &mut [Responses; 32]) -> Result<(), Refusal>
    ensures value { result ≡ hypertask_check table.now }
    ensures filled { result ≡ Ok tt → Hypertasks table.now found.new (rows table.now) }
{
    for (i, row) in found[..table.rows()].iter_mut().enumerate() {
        let task = table.task(i);
        let r = task.response()?;
        *row = Responses {
            r,
            e: task.d() - r,
            g: 0,
        };
    }
    Ok(())
}

// G of each row, or the first refusal of 7 and 19.
#[tactic(auto, using(crate::proofs::Found::rowwise), unfolding(equations::specs::Analysis::guest_check))]
pub(crate) fn guests(table: &Table<'_>, found: &mut [Responses; 32]) -> Result<(), Refusal>
    requires { Hypertasks table.now found.old (rows table.now) }
    ensures value { result ≡ guest_check table.now }
    ensures filled { result ≡ Ok tt → Hypertasks table.now found.new (rows table.now) × Guests table.now found.new (rows table.now) }
{
    for i in 0..table.rows() {
        let guest = Guest {
            task: table.task(i),
            found: &*found,
        };
        found[i].g = guest.response()?;
    }
    Ok(())
}

// R, E, G of tasks, at the front of the lent results.
pub(crate) fn write(lent: &mut [u32], found: &[Responses])
    requires { 3 * length found.now ≤ length lent.old }
    ensures { lent.new ≡ flat (three_at found.now) (length found.now) ++ drop (3 * length found.now) lent.old }
{
    for (i, task) in found.iter().enumerate() {
        lent[3 * i..3 * i + 3].copy_from_slice(&[task.r, task.e, task.g]);
    }
}
