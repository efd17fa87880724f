//! How many messages come in a window of time.
ghost use Rattle.std.specs.Prelude.{◌≡◌, ◌<◌, ◌≤◌, ℕ, List, [], ◌∷◌, max};
ghost use Rattle.wire_lib.specs.Rates.{HasTimed, IsRate, newest, rate_in};

/// The length of a window, in milliseconds.
pub const WINDOW: u64 = 2000;

/// The numbers of messages in the last window of time in which any came, and in the window before it.
///
/// Two numbers are enough for a whole rate, and the table needs no clock.
#[derive(Clone, Copy, Debug, PartialEq, Eq, Drop)]
pub struct Rate {
    window: u64,
    here: u64,
    before: u64,
}

impl Rate {
    /// Returns the rate before any message.
    pub fn new() -> Rate
        ensures { HasTimed result [] }
    {
        Rate {
            window: 0,
            here: 0,
            before: 0,
        }
    }

    // a message in a later window
    fn begin(&mut self, window: u64)
        requires { self.old.window < window }
        ensures { (times : List ℕ) → HasTimed self.old times
            → HasTimed self.new (window ∷ times) }
    {
        self.before = self.in_the_last(window);
        self.window = window;
        self.here = 1;
    }

    // one more in the same window
    fn add(&mut self)
        ensures { (times : List ℕ) → HasTimed self.old times
            → HasTimed self.new (newest times ∷ times) }
    {
        self.here = self.here.saturating_add(1);
    }

    /// Counts a message in this window. A window earlier than the last one counts as the last one.
    pub fn note(&mut self, window: u64)
        ensures { (times : List ℕ) → HasTimed self.old times
            → HasTimed self.new (max window (newest times) ∷ times) }
    {
        if self.window < window {
            self.begin(window);
        } else {
            self.add();
        }
    }

    /// Returns how many messages came in the window before this one; window 0 has none before it. If this one is earlier than the last
    /// in which any came, the result is that of the last.
    pub fn in_the_last(&self, window: u64) -> u64
        ensures is { result ≡ rate_in self.now window }
        ensures rate { (times : List ℕ) → HasTimed self.now times → IsRate times window result }
        ensures first { (times : List ℕ) → HasTimed self.now times → newest times ≤ window
            → window ≡ 0 → result ≡ 0 }
    {
        if window <= self.window {
            return self.before;
        }
        if window - 1 == self.window {
            self.here
        } else {
            0
        }
    }
}
