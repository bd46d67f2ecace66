// Refusals 1, 2 and 3: the table's shape.
ghost use Rattle.std.specs.Prelude.{◌≡◌, length};
ghost use Rattle.least.specs.Search.{first_where};
ghost use Rattle.equations.specs.Table.{rows};
ghost use Rattle.equations.specs.Analysis.{bad_length, bad_field, bad_deadline, table_check};
ghost use Rattle.analysis.specs.Inside.{passed};

use crate::table::Table;
use refusals::Refusal;

// No number of fours, fewer than one or more than 32.
#[tactic(auto, unfolding(equations::specs::Analysis::bad_length))]
fn bad_length(table: &[u32]) -> bool
    ensures { result ≡ bad_length table.now }
{
    let m = table.len();
    !(4..=128).contains(&m) || !m.is_multiple_of(4)
}

// The first field outside 1 to 1,000,000.
fn bad_field(table: &[u32]) -> Option<usize>
    ensures { result ≡ first_where (bad_field table.now) 0 (length table.now) }
{
    table.iter().position(|x| !(1..=1_000_000).contains(x))
}

// The first row whose D is above its T.
fn bad_deadline(table: &[u32]) -> Option<usize>
    ensures { result ≡ first_where (bad_deadline table.now) 0 (rows table.now) }
{
    table.chunks_exact(4).position(|row| row[0] < row[1])
}

// The table, or refusal 1, 2 or 3.
#[tactic(auto, using(crate::proofs::Shape::shape))]
pub(crate) fn check(table: &[u32]) -> Result<Table<'_>, Refusal>
    ensures { result ≡ passed table.now (table_check table.now) }
{
    if bad_length(table) {
        return Err(Refusal::TableLength(table.len()));
    }
    if let Some(k) = bad_field(table) {
        return Err(Refusal::FieldRange(k));
    }
    if let Some(j) = bad_deadline(table) {
        return Err(Refusal::DeadlineAbovePeriod(j + 1));
    }
    Ok(Table::new(table))
}
