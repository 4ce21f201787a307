//! The rows of the table of kinds, as texts.

ghost use Rattle.std.specs.Prelude.{◌≡◌, map};
ghost use Rattle.ad_control_graph.specs.Kinds.{row};
ghost use Rattle.ad_control_graph.specs.Texts.{asking_seen, held_seen, of_seen, stand_seen};

use crate::kind::Kind;

/// One way: at an object that has a value of one of these attributes (or any, where none is named), who is allowed each
/// of these questions.
#[derive(Clone, Copy)]
pub struct Asking {
    pub stored: &'static [&'static [u8]],
    pub asks: &'static [&'static [u8]],
}

/// An attribute whose value is a descriptor, and the place of the right that it has to grant, or none where any will
/// do.
#[derive(Clone, Copy)]
pub struct Held {
    pub attr: &'static [u8],
    pub bit: Option<u32>,
}

/// Which objects a kind leads to.
#[derive(Clone, Copy)]
pub enum Of {
    Each,
    TheRoot,
    /// With an identifier, and that count for access.
    Groups,
    /// Of a class that may have the attribute.
    Having(&'static [u8]),
}

/// Objects that lead there whoever controls them.
#[derive(Clone, Copy)]
pub enum Stand {
    TheRootItself,
    ItsParent,
    ItsHolder,
    ItsPolicies,
    /// The containers above, for who is allowed this question there.
    Above(&'static [u8]),
    ItsMembers,
}

static DESCRIPTOR: [Asking; 2] = [
    Asking {
        stored: &[],
        asks: &[b"WD"],
    },
    Asking {
        stored: &[],
        asks: &[b"WO"],
    },
];

static RESET: [Asking; 1] = [Asking {
    stored: &[],
    asks: &[b"reset"],
}];

static JOIN: [Asking; 2] = [
    Asking {
        stored: &[],
        asks: &[b"write:member"],
    },
    Asking {
        stored: &[],
        asks: &[b"join"],
    },
];

static KEY: [Asking; 2] = [
    Asking {
        stored: &[],
        asks: &[b"write:msDS-KeyCredentialLink"],
    },
    Asking {
        stored: &[],
        asks: &[b"write:altSecurityIdentities"],
    },
];

static ACT: [Asking; 1] = [Asking {
    stored: &[],
    asks: &[b"write:msDS-AllowedToActOnBehalfOfOtherIdentity"],
}];

static SECRET: [Asking; 3] = [
    Asking {
        stored: &[b"ms-Mcs-AdmPwd", b"ms-Mcs-AdmPwdExpirationTime"],
        asks: &[b"read:ms-Mcs-AdmPwd"],
    },
    Asking {
        stored: &[b"msLAPS-Password", b"msLAPS-PasswordExpirationTime"],
        asks: &[b"read:msLAPS-Password"],
    },
    Asking {
        stored: &[
            b"msLAPS-EncryptedPassword",
            b"msLAPS-PasswordExpirationTime",
        ],
        asks: &[b"read:msLAPS-EncryptedPassword"],
    },
];

static REPLICATE: [Asking; 1] = [Asking {
    stored: &[],
    asks: &[
        b"CR:DS-Replication-Get-Changes",
        b"CR:DS-Replication-Get-Changes-All",
    ],
}];

static ACT_HELD: [Held; 1] = [Held {
    attr: b"msDS-AllowedToActOnBehalfOfOtherIdentity",
    bit: None,
}];

static SECRET_HELD: [Held; 1] = [Held {
    attr: b"msDS-GroupMSAMembership",
    bit: Some(4),
}];

static ROOT_ITSELF: [Stand; 1] = [Stand::TheRootItself];

static PARENT: [Stand; 1] = [Stand::ItsParent];

static HOLDER: [Stand; 1] = [Stand::ItsHolder];

static POLICIES: [Stand; 2] = [Stand::ItsPolicies, Stand::Above(b"write:gPLink")];

static MEMBERS: [Stand; 1] = [Stand::ItsMembers];

impl Kind {
    /// Which objects it leads to.
    #[tactic(auto, unfolding(crate::specs::Kinds::row))]
    pub fn of(self) -> Of
        ensures { of_seen result ≡ (row self).of }
    {
        match self {
            Kind::Descriptor | Kind::Act | Kind::Secret | Kind::All | Kind::Child | Kind::Protect =>
                Of::Each,
            Kind::Replicate => Of::TheRoot,
            Kind::Join | Kind::Member => Of::Groups,
            Kind::Reset | Kind::Key | Kind::Link => Of::Having(b"unicodePwd"),
        }
    }

    /// The questions by which it leads there.
    #[tactic(auto, unfolding(crate::specs::Kinds::row))]
    pub fn ways(self) -> &'static [Asking]
        ensures { map asking_seen result.now ≡ (row self).ways }
    {
        match self {
            Kind::Descriptor => &DESCRIPTOR,
            Kind::Reset => &RESET,
            Kind::Join => &JOIN,
            Kind::Key => &KEY,
            Kind::Act => &ACT,
            Kind::Secret => &SECRET,
            Kind::Replicate => &REPLICATE,
            Kind::All | Kind::Child | Kind::Protect | Kind::Link | Kind::Member => &[],
        }
    }

    /// The values that are descriptors by which it leads there.
    #[tactic(auto, unfolding(crate::specs::Kinds::row))]
    pub fn held(self) -> &'static [Held]
        ensures { map held_seen result.now ≡ (row self).held }
    {
        match self {
            Kind::Act => &ACT_HELD,
            Kind::Secret => &SECRET_HELD,
            Kind::Descriptor
            | Kind::Reset
            | Kind::Join
            | Kind::Key
            | Kind::Replicate
            | Kind::All
            | Kind::Child
            | Kind::Protect
            | Kind::Link
            | Kind::Member => &[],
        }
    }

    /// The places from which it leads there.
    #[tactic(auto, unfolding(crate::specs::Kinds::row))]
    pub fn stands(self) -> &'static [Stand]
        ensures { map stand_seen result.now ≡ (row self).from }
    {
        match self {
            Kind::All => &ROOT_ITSELF,
            Kind::Child => &PARENT,
            Kind::Protect => &HOLDER,
            Kind::Link => &POLICIES,
            Kind::Member => &MEMBERS,
            Kind::Descriptor
            | Kind::Reset
            | Kind::Join
            | Kind::Key
            | Kind::Act
            | Kind::Secret
            | Kind::Replicate => &[],
        }
    }
}
