// The benchmark's library: the function of the crate pace under its own name and with its own clause.
#![tactic(auto)]

ghost use Rattle.std.specs.Prelude.{◌≡◌};
ghost use Rattle.pace.specs.Pace.{pace_of};

#[unsafe(no_mangle)]
pub extern "C" fn tollsalmon_bench_ticks(
    state: &[u64],
    mask: u32,
    signal: u8,
    early: u8,
    times: u64,
) -> u64
    ensures { result ≡ pace_of state.now mask signal early times }
{
    pace::tollsalmon_bench_ticks(state, mask, signal, early, times)
}
