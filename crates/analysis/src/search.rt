// The least solution of an equation t = f(t), for any f that never falls.
ghost use Rattle.std.specs.Prelude.{◌≡◌, ℕ, ◌-◌, ◌≤◌, Option, None, Some};
ghost use Rattle.least.specs.Search.{first, NeverFalls};

// An equation t = f(t).
pub(crate) trait Equation {
    ghost side: { Self → ℕ → ℕ };

    // f(t)
    fn side(&self, t: u32) -> u64
        ensures { result ≡ side self.now t };

    ghost never_falls: { (e : Self) → NeverFalls (side e) };
}

// The least solution that is `from` or more and below `end`: t is set to f(t) until it stays or reaches `end`.
#[tactic(auto, using(crate::proofs::Seeking::seeking))]
pub(crate) fn least<E: Equation>(equation: &E, from: u32, end: u32) -> Option<u32>
    requires { from ≤ E.side equation.now from }
    ensures { result ≡ first (E.side equation.now) from (end - from) }
{
    if end <= from {
        return None;
    }
    let mut t = from;
    loop {
        let next = equation.side(t);
        if next == u64::from(t) {
            return Some(t);
        }
        if u64::from(end) <= next {
            return None;
        }
        t = next as u32;
    }
}
