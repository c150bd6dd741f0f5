//! The times ahead of a main slot.

ghost use Rattle.std.specs.Prelude.{◌≡◌, ◌*◌, ◌≤◌, length};
ghost use Rattle.lin_schedule.specs.Rounds.{HasRows, after_by};

/// The times ahead of one main slot, in rows of times of which each is for one carrying slot more.
#[derive(Clone, Copy)]
pub(crate) struct After<'a> {
    pub(crate) times: &'a [u64],
    pub(crate) slots: usize,
    pub(crate) place: usize,
}

impl After<'_> {
    /// The time until so many slots have carried what is waited for, 0 where it isn't known.
    pub(crate) fn of(&self, wanted: usize) -> u64
        requires wanted { wanted ≤ 1024 }
        requires rows { HasRows self.now }
        ensures value { result ≡ after_by self.now wanted }
        ensures short { result ≤ length self.now.times.now * 1025000000000 }
    {
        self.times
            .get(wanted * self.slots + self.place)
            .copied()
            .unwrap_or(0)
    }
}
