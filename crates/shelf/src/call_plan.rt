//! Which calls of a shelf in memory fail.

ghost use Rattle.std.specs.Prelude.{◌≡◌, ◌↔◌, IsTrue};
ghost use Rattle.shelf.specs.Memory.{IsPlanned, Turns};

/// The numbers of the calls that fail, counted from 0 over all kinds of calls, and how many calls came.
#[derive(Drop)]
pub struct CallPlan {
    failing: Vec<u64>,
    calls: u64,
}

impl CallPlan {
    /// A plan before the first call.
    pub fn new(failing: Vec<u64>) -> CallPlan
        ensures { result ≡ record { failing = failing; calls = 0 } }
    {
        CallPlan { failing, calls: 0 }
    }

    /// Whether the call that comes now fails; counts it.
    pub fn next_fails(&mut self) -> bool
        ensures exact { IsTrue result ↔ IsPlanned self.old }
        ensures turns { Turns self.old self.new }
    {
        let fails = self.failing.contains(&self.calls);
        self.calls = self.calls.saturating_add(1);
        fails
    }
}
