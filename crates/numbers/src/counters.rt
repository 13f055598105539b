// The counters of a tally, laid into a store: as many as there is room for, and 0 behind them.
ghost use Rattle.std.specs.Prelude.{◌≡◌, length, get_or};
ghost use Rattle.numbers.specs.Numbered.{cut_or_padded};

// The counter at place t, 0 behind the last one.
fn counter_at(counters: &[u32], t: usize) -> u32
    ensures { result ≡ get_or counters.now t 0 }
{
    if t < counters.len() {
        return counters[t];
    }
    0
}

// Place t gets the t-th counter.
pub fn put_counters(counters: &[u32], out: &mut [u32])
    ensures { out.new ≡ cut_or_padded (length out.old) counters.now }
{
    let mut t = 0;
    while t < out.len() {
        out[t] = counter_at(counters, t);
        t += 1;
    }
}
