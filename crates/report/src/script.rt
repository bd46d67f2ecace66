// A run's lines: a line for each record of the script, then the totals.
ghost use Rattle.std.specs.Prelude.{[], ◌+◌, ◌*◌, ◌/◌, ◌≤◌, length};
ghost use Rattle.demands.specs.Runs.{run};
ghost use Rattle.text.specs.Put.{Puts};
ghost use Rattle.report.specs.Report.{tick_lines, ticks_of, script_text};
ghost use Rattle.report.specs.Inside.{Totals, Balanced};

use super::totals::Counts;
use machine::Machine;
use text::Text;

// A script no longer than the longest plan file.
#[derive(Clone, Copy)]
pub(crate) struct Script<'a> {
    pub(crate) bytes: &'a [u8],
    pub ghost short: { length bytes.now ≤ 65536 },
}

// A line for each record; the counts of the ticks taken.
fn put_ticks(text: &mut Text, mut machine: Machine, script: Script) -> Counts
    ensures puts { Puts text.old (tick_lines (run machine []) (ticks_of script.entry.bytes.now)) text.new }
    ensures short { text.new.at ≤ text.old.at + 70 * (length script.entry.bytes.now / 8) }
    ensures counts { Totals (run machine (ticks_of script.entry.bytes.now)).taken result }
{
    let mut counts = Counts::new();
    for tick in plan::bodies::records(script.bytes) {
        let stepped = machine.step(tick.mask, tick.signal, tick.early);
        counts.count(tick.mask, stepped.answer);
        text.put_tick(machine.clock, stepped.answer);
        machine = stepped.machine;
    }
    counts
}

// The lines of a script's records from a machine on, and of its n tasks.
pub(crate) fn put_script(text: &mut Text, machine: Machine, n: usize, script: Script)
    requires { (n ≤ 32) × (Balanced machine n) }
    ensures puts { Puts text.old (script_text machine script.entry.bytes.now n) text.new }
    ensures short { text.new.at ≤ text.old.at + (70 * (length script.entry.bytes.now / 8) + 110 * n) }
{
    let counts = put_ticks(text, machine, script);
    counts.put_totals(text, n);
}
