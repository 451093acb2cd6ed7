ghost use Rattle.std.specs.Prelude.{◌≡◌, ◌<◌};
ghost use Rattle.gen_task.specs.Draws.{next_state, read_off};

/// Draws of numbers, by a state of 64 bits.
#[derive(Debug, Drop)]
pub(crate) struct Draws {
    pub state: u64,
}

impl Draws {
    /// A number below m.
    #[tactic(auto, unfolding(crate::specs::Draws::next_state, crate::specs::Draws::read_off))]
    pub fn below(&mut self, m: u8) -> u8
        requires { 0 < m }
        ensures state { self.new.state ≡ next_state self.old.state }
        ensures value { result ≡ read_off self.new.state m }
        ensures less { result < m }
    {
        self.state = self
            .state
            .wrapping_mul(6_364_136_223_846_793_005)
            .wrapping_add(1_442_695_040_888_963_407);
        ((self.state >> 33) % u64::from(m)) as u8
    }
}
