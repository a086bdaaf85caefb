//! Counts of calls, of which a test may tell some to fail.
ghost use Rattle.std.specs.Prelude.{◌≡◌, ℕ, IsTrue, false};
ghost use Rattle.lk_outside.specs.Causes.{HasCause, one_more};
ghost use Rattle.lk_outside.specs.Calls.{is_told_to_fail, faults_after};

/// How many calls were made and failed, and whether the last one did.
#[derive(Clone, Copy, Debug)]
pub(crate) struct Tally {
    pub calls: u64,
    pub faults: u64,
    pub ailing: bool,
}

impl Tally {
    /// No call was made.
    pub fn new() -> Self
        ensures calls { result.calls ≡ 0 }
        ensures faults { result.faults ≡ 0 }
        ensures ailing { result.ailing ≡ false }
    {
        Tally {
            calls: 0,
            faults: 0,
            ailing: false,
        }
    }

    /// Whether the next call is set to fail, where those numbers are.
    pub fn next_fails(&self, fail: &[u64]) -> bool
        ensures { result ≡ is_told_to_fail fail.now (one_more self.now.calls) }
    {
        fail.contains(&self.calls.saturating_add(1))
    }

    /// Counts a call. A count stands still at its last value.
    pub fn note(&mut self, failed: bool)
        ensures calls { self.new.calls ≡ one_more self.old.calls }
        ensures ailing { self.new.ailing ≡ failed }
        ensures faults { self.new.faults ≡ faults_after failed self.old.faults }
        ensures cause { HasCause self.old.faults self.new.faults (IsTrue failed) }
    {
        self.calls = self.calls.saturating_add(1);
        self.ailing = failed;
        if failed {
            self.faults = self.faults.saturating_add(1);
        }
    }
}
