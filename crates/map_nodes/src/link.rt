//! Links of groups.

ghost use Rattle.std.specs.Prelude.{◌≡◌};
ghost use Rattle.std.specs.Bool.{Decides};

use orient48::Motion;

/// That a group is a member of a set: the set's number, and the motion from the set's content to the group's.
#[derive(Debug, Drop)]
pub struct Link {
    pub set: u32,
    pub motion: Motion,
}

impl Link {
    /// An equal link.
    pub fn copy(&self) -> Link
        ensures { result ≡ self.now }
    {
        Link {
            set: self.set,
            motion: self.motion.copy(),
        }
    }

    /// Whether two links are of the same set, with the same motion.
    pub fn is_same(&self, other: &Link) -> bool
        ensures { Decides result (self.now ≡ other.now) }
    {
        (self.set == other.set) & self.motion.is_same(&other.motion)
    }
}

/// An equal link, where there is one.
pub(crate) fn copy_link(link: &Option<Link>) -> Option<Link>
    ensures { result ≡ link.now }
{
    match link {
        Some(link) => Some(link.copy()),
        None => None,
    }
}

/// Whether both are there and equal, or neither is there.
pub(crate) fn same_link(a: &Option<Link>, b: &Option<Link>) -> bool
    ensures { Decides result (a.now ≡ b.now) }
{
    match a {
        None => b.is_none(),
        Some(link) => match b {
            None => false,
            Some(other) => link.is_same(other),
        },
    }
}
