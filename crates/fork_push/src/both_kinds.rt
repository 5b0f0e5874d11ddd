use fork_reach::Source;
use git_name::{Kind, Name};
use git_reftx::Known;

// The objects of both sides, as those that a transaction may name.
#[derive(Drop)]
pub(crate) struct BothKinds<'a, S>(pub(crate) &'a S);

impl<'a, S: Source> Known for BothKinds<'a, S> {
    ghost use Rattle.fork_reach.specs.Source.{kind_in};

    ghost kinds = { λ both. kind_in (S.state both.0.now).objects };

    fn kind_of(&self, name: Name) -> Option<Kind> {
        self.0.kind_of(name)
    }
}
