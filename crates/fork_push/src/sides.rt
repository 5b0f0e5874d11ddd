ghost use Rattle.std.specs.Prelude.{◌≡◌, nat_le};
ghost use Rattle.fork_reach.specs.Objects.{use_of};

use fork_reach::Source;

/// Both sides of a push: a source that finds the objects that a tenant sees and those that it sent. If
/// several share a name, the one that the tenant sees counts, otherwise the first sent.
pub trait Sides: Source {
    /// Whether all of them together use at most this many bytes. It compares a running total, and visits no objects.
    fn is_within(&self, limit: u64) -> bool
        ensures { result ≡ nat_le (use_of (Self.state self.now).objects) limit };
}
