// The library for C: each function of the crate export under its own name and with its own clauses. A slice is passed as a pointer and a length.
#![tactic(auto)]

ghost use Rattle.export.specs.Files.{ChecksFile, ReadsTable, ReadsScript, WritesFile};
ghost use Rattle.export.specs.Numbers.{AnalysesTable};
ghost use Rattle.export.specs.Start.{StartsMachine};
ghost use Rattle.export.specs.Step.{StepsMachine};
ghost use Rattle.export.specs.Texts.{PrintsRun};
ghost use Rattle.export.specs.Ticks.{TakesTicks};

#[unsafe(no_mangle)]
pub extern "C" fn tollsalmon_analyse(table: &[u32], results: &mut [u32], place: &mut u64) -> u32
    ensures { AnalysesTable table.now results.old result place.new results.new }
{
    export::tollsalmon_analyse(table, results, place)
}

#[unsafe(no_mangle)]
pub extern "C" fn tollsalmon_start(table: &[u32], state: &mut [u64], place: &mut u64) -> u32
    ensures { StartsMachine table.now state.old result place.new state.new }
{
    export::tollsalmon_start(table, state, place)
}

#[unsafe(no_mangle)]
pub extern "C" fn tollsalmon_ticks(
    state: &mut [u64],
    records: &[u8],
    answers: &mut [u8],
    place: &mut u64,
) -> u32
    ensures { TakesTicks state.old records.now answers.old result place.new state.new answers.new }
{
    export::tollsalmon_ticks(state, records, answers, place)
}

#[unsafe(no_mangle)]
pub extern "C" fn tollsalmon_step(
    state: &mut [u64],
    mask: u32,
    signal: u8,
    early: u8,
    answer: &mut [u8],
    place: &mut u64,
) -> u32
    ensures { StepsMachine state.old mask signal early answer.old result place.new state.new answer.new }
{
    export::tollsalmon_step(state, mask, signal, early, answer, place)
}

#[unsafe(no_mangle)]
pub extern "C" fn tollsalmon_check(file: &[u8], place: &mut u64) -> u32
    ensures { ChecksFile file.now result place.new }
{
    export::tollsalmon_check(file, place)
}

#[unsafe(no_mangle)]
pub extern "C" fn tollsalmon_table(file: &[u8], table: &mut [u32]) -> u64
    ensures { ReadsTable file.now table.old result table.new }
{
    export::tollsalmon_table(file, table)
}

#[unsafe(no_mangle)]
pub extern "C" fn tollsalmon_script(file: &[u8], script: &mut [u8]) -> u64
    ensures { ReadsScript file.now script.old result script.new }
{
    export::tollsalmon_script(file, script)
}

#[unsafe(no_mangle)]
pub extern "C" fn tollsalmon_write(
    table: &[u32],
    script: &[u8],
    output: &mut [u8],
    place: &mut u64,
) -> u32
    ensures { WritesFile table.now script.now output.old result place.new output.new }
{
    export::tollsalmon_write(table, script, output, place)
}

#[unsafe(no_mangle)]
pub extern "C" fn tollsalmon_report(file: &[u8], text: &mut [u8]) -> u64
    ensures { PrintsRun file.now text.old result text.new }
{
    export::tollsalmon_report(file, text)
}
