// A fresh machine from a table: document 01, "Starting a machine checks 1, 2, 3, 5, 6, 7", and 19 right after 7.
#![tactic(auto)]

ghost use Rattle.std.specs.Prelude.{◌≡◌, ◌+◌, ◌*◌, ◌-◌, ◌<◌, ◌≤◌};
ghost use Rattle.equations.specs.Table.{rows};
ghost use Rattle.machine.specs.Rows.{no_row};
ghost use Rattle.start.specs.Start.{row_of, rows_of, start_of};
ghost use Rattle.start.specs.Inside.{Analysed, fresh_places};

use machine::{Machine, Row, Stage};
use refusals::Refusal;

// The machine, and the number of its tasks or the refusal.
#[derive(Clone, Copy)]
pub struct Started {
    pub machine: Machine,
    pub answer: Result<usize, Refusal>,
}

// A place past the last row: all zero and Never.
pub fn no_row() -> Row
    ensures { result ≡ no_row }
{
    Row {
        t: 0,
        d: 0,
        c: 0,
        k: 0,
        e: 0,
        stage: Stage::Never,
    }
}

// Row j of a table whose results are there.
fn row_of(table: &[u32], results: &[u32], j: usize) -> Row
    requires { (Analysed table.now results.now) × (j < rows table.now) }
    ensures { result ≡ row_of table.now j }
{
    Row {
        t: table[4 * j],
        d: table[4 * j + 1],
        c: table[4 * j + 2],
        k: table[4 * j + 3],
        e: results[3 * j + 1],
        ..no_row()
    }
}

// Its first n rows, and the places past them.
fn rows_of(table: &[u32], results: &[u32], n: usize) -> [Row; 32]
    requires { 0 < n → Analysed table.now results.now × (n ≤ rows table.now) }
    ensures { result ≡ fresh_places table.now n }
{
    let mut places = [no_row(); 32];
    for (j, place) in places[..n].iter_mut().enumerate() {
        *place = row_of(table, results, j);
    }
    places
}

// A machine at clock 0 with every task Never, or the machine with no rows and the refusal. Two machines: one for both costs a copy
// more.
pub fn start(table: &[u32]) -> Started
    ensures { result ≡ start_of table.now }
{
    let mut results = [0u32; 96];
    match analysis::analyse(table, &mut results) {
        Ok(count) => Started {
            machine: Machine {
                rows: rows_of(table, &results, count),
                count,
                clock: 0,
            },
            answer: Ok(count),
        },
        Err(refusal) => Started {
            machine: Machine {
                rows: [no_row(); 32],
                count: 0,
                clock: 0,
            },
            answer: Err(refusal),
        },
    }
}
