//! What C reads of a sketch.
ghost use Rattle.std.specs.Prelude.{◌≡◌, if◌then◌else◌};

/// The state of a sketch, from which its estimate follows.
#[repr(C)]
#[derive(Clone, Copy)]
pub struct State {
    /// How many hashes it retains, fewer than 2^32.
    pub retained: u64,
    /// From 1 to `MAX_THETA`, which is that of an empty sketch.
    pub theta: u64,
    /// 1 if no update was accepted, or an operator returned the empty sketch; else 0.
    pub empty: u64,
}

impl State {
    /// The state of a sketch with these numbers.
    pub fn of(retained: usize, theta: u64, empty: bool) -> State
        ensures { result ≡ record { retained = retained; theta = theta; empty = (if empty then 1 else 0) } }
    {
        State {
            retained: retained as u64,
            theta,
            empty: if empty { 1 } else { 0 },
        }
    }
}
