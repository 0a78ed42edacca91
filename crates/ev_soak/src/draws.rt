ghost use Rattle.std.specs.Prelude.{◌≡◌, ◌≤◌, ◌<◌};
ghost use Rattle.ev_soak.specs.Draws.{next_state, drawn};

// Draws numbers, one after another.
#[derive(Drop)]
pub(crate) struct Draws {
    pub state: u64,
}

impl Draws {
    // A number below `limit`, which is at least 1.
    #[tactic(auto, using(crate::proofs::DrawLemmas::next_is), unfolding(crate::specs::Draws::next_state, crate::specs::Draws::drawn))]
    pub(crate) fn draw(&mut self, limit: u32) -> u32
        requires { 1 ≤ limit }
        ensures number { result ≡ drawn limit self.old.state }
        ensures below { result < limit }
        ensures state { self.new.state ≡ next_state self.old.state }
    {
        self.state = self
            .state
            .wrapping_mul(6364136223846793005)
            .wrapping_add(1442695040888963407);
        ((self.state >> 33) % u64::from(limit)) as u32
    }
}
