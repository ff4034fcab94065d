//! A generator of numbers.
ghost use Rattle.std.specs.Prelude.{◌≡◌, ◌/◌, ◌^◌, ◌<◌};
ghost use Rattle.mar_gen.specs.Draws.{next_state, state_after};

use std::marker::Model;

/// Numbers of 31 bits, one after another. A contract sees the generator's state.
#[derive(Drop)]
pub struct Draws {
    state: u64,
}

impl Model for Draws {
    ghost use Rattle.std.specs.Prelude.{ℕ};

    ghost Value = { ℕ };

    ghost view = { λ d. d.state };
}

impl Draws {
    /// Of this seed, before the first draw.
    pub fn new(seed: u64) -> Self
        ensures { result ≡ seed }
    {
        Draws { state: seed }
    }

    /// Of this seed, behind so many draws.
    pub fn after(seed: u64, count: u64) -> Self
        ensures { result ≡ state_after seed count }
    {
        let mut draws = Draws::new(seed);
        for _number in 0..count {
            let _drawn = draws.draw();
        }
        draws
    }

    /// The next number.
    pub fn draw(&mut self) -> u64
        ensures next { self.new ≡ next_state self.old }
        ensures value { result ≡ self.new / 2 ^ 33 }
    {
        self.state = self
            .state
            .wrapping_mul(6_364_136_223_846_793_005)
            .wrapping_add(1_442_695_040_888_963_407);
        self.state / (1 << 33)
    }
}
