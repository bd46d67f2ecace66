// What C and Rust call: functions on numbers and slices. The crate export_c hands each of them to C under the same name.
#![tactic(auto)]

mod answers;
mod files;
pub mod state;
pub mod ticks;

ghost use Rattle.export.specs.Files.{ChecksFile, ReadsTable, ReadsScript, WritesFile};
ghost use Rattle.export.specs.Numbers.{AnalysesTable};
ghost use Rattle.export.specs.Start.{StartsMachine};
ghost use Rattle.export.specs.Step.{StepsMachine};
ghost use Rattle.export.specs.Texts.{PrintsRun};
ghost use Rattle.export.specs.Ticks.{TakesTicks};

use report::TooShort;

// The analysis of a table: 0 and the number of tasks where it is accepted, else the refusal's number and place.
pub fn tollsalmon_analyse(table: &[u32], results: &mut [u32], place: &mut u64) -> u32
    ensures { AnalysesTable table.now results.old result place.new results.new }
{
    answers::told(analysis::analyse(table, results), place)
}

// A fresh machine of a table into 258 lent numbers: 0 and the number of tasks, else the refusal's number and place. A refused
// table leaves the machine with no rows; numbers that are too few are left as they are.
pub fn tollsalmon_start(table: &[u32], state: &mut [u64], place: &mut u64) -> u32
    ensures { StartsMachine table.now state.old result place.new state.new }
{
    answers::told(state::start(table, state), place)
}

// The ticks of a run of records from the machine in lent numbers, their answers to the front of lent bytes: 0 and how many, or 8
// for a state that can't be read.
pub fn tollsalmon_ticks(
    state: &mut [u64],
    records: &[u8],
    answers: &mut [u8],
    place: &mut u64,
) -> u32
    ensures { TakesTicks state.old records.now answers.old result place.new state.new answers.new }
{
    answers::told(ticks::run(state, records, answers), place)
}

// One tick from the machine in lent numbers, its answer to the front of lent bytes: 0, or the refusal's number and place, and then
// nothing is touched.
pub fn tollsalmon_step(
    state: &mut [u64],
    mask: u32,
    signal: u8,
    early: u8,
    answer: &mut [u8],
    place: &mut u64,
) -> u32
    ensures { StepsMachine state.old mask signal early answer.old result place.new state.new answer.new }
{
    let stepped = ticks::step(state, mask, signal, early, answer);
    answers::told(stepped.map(|()| 0), place)
}

// Whether bytes are a plan file: 0 and place 0, or the refusal's number and place.
pub fn tollsalmon_check(file: &[u8], place: &mut u64) -> u32
    ensures { ChecksFile file.now result place.new }
{
    answers::told(plan::reader::check(file).map(|()| 0), place)
}

// The table of a plan file to the front of lent numbers, where they are enough: how many numbers it has, 0 for a refused file.
pub fn tollsalmon_table(file: &[u8], table: &mut [u32]) -> u64
    ensures { ReadsTable file.now table.old result table.new }
{
    let rows = plan::reader::rows_of(file);
    let _ = plan::bodies::table_of(rows, table);
    (rows.len() / 4) as u64
}

// The script of a plan file to the front of lent bytes, where they are enough: how many bytes it has, 0 for a refused file.
pub fn tollsalmon_script(file: &[u8], script: &mut [u8]) -> u64
    ensures { ReadsScript file.now script.old result script.new }
{
    let part = plan::reader::script_of(file);
    files::to_front(part, script);
    part.len() as u64
}

// The plan file of a table and a script to the front of lent bytes: 0 and the file's length, or the refusal's number and place.
pub fn tollsalmon_write(table: &[u32], script: &[u8], output: &mut [u8], place: &mut u64) -> u32
    ensures { WritesFile table.now script.now output.old result place.new output.new }
{
    answers::told(plan::writer::write(table, script, output), place)
}

// The whole text of a plan's run to the front of lent bytes, where they are enough: how many bytes it has.
#[tactic(auto, unfolding(crate::specs::Files::to_front))]
pub fn tollsalmon_report(file: &[u8], text: &mut [u8]) -> u64
    ensures { PrintsRun file.now text.old result text.new }
{
    let (Ok(length) | Err(TooShort { needed: length })) = report::report(file, text);
    length as u64
}
