//! What follows from the definitions. A law is the contract of a function with an empty body.
ghost use Rattle.std.specs.Prelude.{◌≡◌, ℕ, ◌+◌, ◌^◌, ◌<◌};
ghost use Rattle.mc_net.specs.Handing.{count_after, turn_of};
ghost use Rattle.mc_net.specs.declared.handing.Accepted.TheVariants.{One};

/// Streams go round, however many places there are and however many streams have come, as far as 64
/// bits count them: the first goes to the first place, and each later one to the place after that
/// of the one before; after the last place comes the first again. So of as many streams in a row as
/// there are places each place receives one. A stream that was handed over counts as one.
pub fn streams_go_round()
    ensures first { (places : ℕ) → turn_of 0 places ≡ 0 }
    ensures next { (done places : ℕ) → turn_of done places + 1 < places →
        turn_of (done + 1) places ≡ turn_of done places + 1 }
    ensures again { (done places : ℕ) → turn_of done places + 1 ≡ places →
        turn_of (done + 1) places ≡ 0 }
    ensures counted { (done : ℕ) → done + 1 < 2 ^ 64 → count_after One done ≡ done + 1 }
{}
