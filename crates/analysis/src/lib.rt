// The analysis of a table: document 01, "Response equations", and refusals 1 to 7 and 19.
#![tactic(auto)]

mod checks;
mod guest;
mod hypertask;
mod results;
mod search;
mod table;

ghost use Rattle.std.specs.Prelude.{◌≡◌, ◌*◌, ◌≤◌, length};
ghost use Rattle.equations.specs.Table.{rows};
ghost use Rattle.equations.specs.Analysis.{solved, results_by, Analyses};

use refusals::Refusal;
use results::Responses;
use table::Table;

// R, E and G of each task of a sound table into the lent results, or the first refusal of 5, 6, 7 and 19.
#[tactic(auto, using(crate::proofs::Entered::answers))]
fn solve(table: &Table<'_>, lent: &mut [u32]) -> Result<usize, Refusal>
    requires { 3 * rows table.now ≤ length lent.old }
    ensures value { result ≡ solved table.now }
    ensures lent_after { lent.new ≡ results_by table.now lent.old result }
{
    let mut found = [Responses { r: 0, e: 0, g: 0 }; 32];
    results::hypertasks(table, &mut found)?;
    results::guests(table, &mut found)?;
    let n = table.rows();
    results::write(lent, &found[..n]);
    Ok(n)
}

// The analysis of a table. Accepted: R, E and G of each task stand at the front of the lent results, and nothing past them changed.
// Refused: nothing changed.
#[tactic(auto, using(crate::proofs::Entered::answers))]
pub fn analyse(table: &[u32], results: &mut [u32]) -> Result<usize, Refusal>
    ensures { Analyses table.now results.old result results.new }
{
    let table = checks::check(table)?;
    let needed = 3 * table.rows();
    if results.len() < needed {
        return Err(Refusal::ResultsShort(needed));
    }
    solve(&table, results)
}
