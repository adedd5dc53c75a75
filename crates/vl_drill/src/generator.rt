ghost use Rattle.std.specs.Prelude.{◌≡◌, ◌<◌};
ghost use Rattle.vl_drill.specs.Generator.{drawn, following};

const MULTIPLIER: u64 = 6364136223846793005;

const INCREMENT: u64 = 1442695040888963407;

/// A linear congruential generator on 64 bits.
#[derive(Clone, Copy, Debug)]
pub struct Generator {
    pub state: u64,
}

impl Generator {
    // The state goes on; its upper 31 bits give the number.
    pub fn draw(&mut self, below: u64) -> u64
        requires { 0 < below }
        ensures state { self.new.state ≡ following self.old.state }
        ensures number { result ≡ drawn below self.old.state }
        ensures within { result < below }
    {
        self.state = self.state.wrapping_mul(MULTIPLIER).wrapping_add(INCREMENT);
        (self.state >> 33) % below
    }
}
