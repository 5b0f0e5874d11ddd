ghost use Rattle.std.specs.Prelude.{◌≡◌, ℕ, Bool};

/// Numbers that have no links, so that nothing need be learned of them.
pub trait Resting {
    /// Whether a number rests.
    ghost rests: { Self → ℕ → Bool };

    /// Whether a number rests.
    fn rests(&self, n: u32) -> bool
        ensures { result ≡ rests self.now n };
}
