//! The kinds of edges.

ghost use Rattle.std.specs.Prelude.{◌≡◌, Some, slice_get};
ghost use Rattle.ad_control_graph.specs.Kinds.{row, kinds};

/// What leads from a node to an object. Which node that is, the table of kinds says.
#[derive(Clone, Copy, Debug, PartialEq, Eq)]
pub enum Kind {
    /// It may replace the list of who may do what, or the owner.
    Descriptor,
    /// It may reset the password.
    Reset,
    /// It may add a member, or itself.
    Join,
    /// It may add a key by which one logs on.
    Key,
    /// It may act as anybody towards the account, or may say who may.
    Act,
    /// It may read the password.
    Secret,
    /// It may replicate all passwords.
    Replicate,
    /// It is the root of the directory.
    All,
    /// It is the parent, which can pass entries down.
    Child,
    /// It is the object whose descriptor protected objects get.
    Protect,
    /// It is a policy that counts for the account, or may link one above it.
    Link,
    /// It is a member of the group.
    Member,
}

impl Kind {
    /// All kinds, in the order in which one is told of several that lead alike.
    pub fn all() -> [Kind; 12]
        ensures { result ≡ kinds }
    {
        [
            Kind::Descriptor,
            Kind::Reset,
            Kind::Join,
            Kind::Key,
            Kind::Act,
            Kind::Secret,
            Kind::Replicate,
            Kind::All,
            Kind::Child,
            Kind::Protect,
            Kind::Link,
            Kind::Member,
        ]
    }

    /// Its place among all kinds.
    pub fn place(self) -> usize
        ensures { slice_get kinds result ≡ Some self }
    {
        match self {
            Kind::Descriptor => 0,
            Kind::Reset => 1,
            Kind::Join => 2,
            Kind::Key => 3,
            Kind::Act => 4,
            Kind::Secret => 5,
            Kind::Replicate => 6,
            Kind::All => 7,
            Kind::Child => 8,
            Kind::Protect => 9,
            Kind::Link => 10,
            Kind::Member => 11,
        }
    }

    /// The word that tells it.
    #[tactic(auto, unfolding(crate::specs::Kinds::row))]
    pub fn name(self) -> &'static [u8]
        ensures { result.now ≡ (row self).name }
    {
        match self {
            Kind::Descriptor => b"descriptor",
            Kind::Reset => b"reset",
            Kind::Join => b"join",
            Kind::Key => b"key",
            Kind::Act => b"act",
            Kind::Secret => b"secret",
            Kind::Replicate => b"replicate",
            Kind::All => b"all",
            Kind::Child => b"child",
            Kind::Protect => b"protect",
            Kind::Link => b"link",
            Kind::Member => b"member",
        }
    }

    /// Whether such an edge counts in the length of a chain.
    #[tactic(auto, unfolding(crate::specs::Kinds::row))]
    pub fn counts(self) -> bool
        ensures { result ≡ (row self).counts }
    {
        match self {
            Kind::Member => false,
            Kind::Descriptor
            | Kind::Reset
            | Kind::Join
            | Kind::Key
            | Kind::Act
            | Kind::Secret
            | Kind::Replicate
            | Kind::All
            | Kind::Child
            | Kind::Protect
            | Kind::Link => true,
        }
    }
}
