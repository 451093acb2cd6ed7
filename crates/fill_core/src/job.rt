/// A thing to do in a search: to fill a node that stands below some root, or to search a root.
#[derive(Clone, Copy, Debug, PartialEq, Eq)]
pub enum Job {
    Inner(u32),
    Root(u32),
}

impl Job {
    ghost use Rattle.std.specs.Prelude.{◌≡◌};
    ghost use Rattle.fill_core.specs.Plans.{node_of};

    /// The number of its node.
    pub fn node(self) -> u32
        ensures { result ≡ node_of self }
    {
        match self {
            Job::Inner(number) | Job::Root(number) => number,
        }
    }
}
