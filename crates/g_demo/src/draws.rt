//! The draws of a demonstration.
ghost use Rattle.std.specs.Prelude.{◌≡◌, ◌<◌};
ghost use Rattle.g_demo.specs.Script.{drawn, next};

/// The state from which the next draw is computed.
#[derive(Drop)]
pub(crate) struct Draws {
    state: u32,
}

impl Draws {
    /// The draws that begin with a number.
    pub(crate) fn new(number: u32) -> Draws
        ensures { result.state ≡ number }
    {
        Draws { state: number }
    }

    /// Draws a number below the bound, from the upper half of the state.
    pub(crate) fn draw(&mut self, below: u32) -> u32
        requires { 0 < below }
        ensures state { self.new.state ≡ next self.old.state }
        ensures value { result ≡ drawn below self.new.state }
        ensures within { result < below }
    {
        let state = (1_664_525 * u64::from(self.state) + 1_013_904_223) % 4_294_967_296;
        self.state = state as u32;
        self.state / 65_536 % below
    }
}
