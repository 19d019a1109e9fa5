//! Counts of calls and of faults, and which calls are to fail.

ghost use Rattle.std.specs.Prelude.{◌≡◌, ◌≤◌};
ghost use Rattle.outside_io.specs.InMemory.{fails_at};
ghost use Rattle.outside_io.specs.Moved.{Rose, after};

/// A count one higher, or still at its last value.
pub(crate) fn raised(count: u64) -> u64
    ensures value { result ≡ after count }
    ensures rose { Rose count result }
    ensures later { count ≤ result }
{
    count.saturating_add(1)
}

/// The numbers of the calls that are to fail, from 1, and how many calls were made.
#[derive(Drop)]
pub(crate) struct Calls {
    pub(crate) fails: Vec<u32>,
    pub(crate) made: u64,
}

impl Calls {
    /// No call was made yet.
    pub(crate) fn new(fails: Vec<u32>) -> Calls
        ensures { result ≡ record { fails = fails; made = 0 } }
    {
        Calls { fails, made: 0 }
    }

    /// Counts a call, and tells whether it is to fail.
    pub(crate) fn next_fails(&mut self) -> bool
        ensures planned { result ≡ fails_at self.old.fails.items (after self.old.made) }
        ensures counted { self.new ≡ record self.old { made = after self.old.made } }
    {
        let number = raised(self.made);
        self.made = number;
        self.fails.iter().any(|&n| u64::from(n) == number)
    }
}
