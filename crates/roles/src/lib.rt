// Document 02, R-14: whether a role has a right. The table of rights, for each exported call, stands in specs/; a row of the C interface names the
// right that it asks for.
#![tactic(auto)]

ghost use Rattle.std.specs.Prelude.{◌≡◌, ◌&&◌, ℕ, leb};
ghost use Rattle.roles.specs.Rights.{technician};
ghost use Rattle.roles.specs.Roles.{role_number, Decodes};

// A watch keeper, a team leader, a service technician: each may do what those before it may.
#[derive(Clone, Copy, Debug, PartialEq, Eq, PartialOrd, Ord)]
pub enum Role {
    Keeper,
    Leader,
    Technician,
}

// A number that is no role's.
#[derive(Clone, Copy, Debug, PartialEq, Eq)]
pub struct NoRole(pub u16);

impl TryFrom<u16> for Role {
    type Error = NoRole;

    ghost try_from_gives = { Decodes };

    fn try_from(role: u16) -> Result<Role, NoRole> {
        match role {
            0 => Ok(Role::Keeper),
            1 => Ok(Role::Leader),
            2 => Ok(Role::Technician),
            _ => Err(NoRole(role)),
        }
    }
}

// Who has a right at the least: a role, or a number, which need be no role's: there is none above the technician.
pub trait Least: Copy {
    ghost rank: { Self → ℕ };

    fn number(self) -> u16
        ensures { result ≡ rank self };
}

impl Least for Role {
    ghost rank = { role_number };

    fn number(self) -> u16 {
        match self {
            Role::Keeper => 0,
            Role::Leader => 1,
            Role::Technician => 2,
        }
    }
}

impl Least for u16 {
    ghost rank = { λ n. n };

    fn number(self) -> u16 {
        self
    }
}

// The rights, in the words of document 02, and the least role that has each.
pub const READING: Role = Role::Keeper;

pub const EXPLAINING: Role = Role::Keeper;

pub const WRITING_REGISTERS: Role = Role::Leader;

pub const REMAKING: Role = Role::Leader;

pub const UPDATING: Role = Role::Technician;

pub const HOLDING: Role = Role::Technician;

pub const MAKING: Role = Role::Technician;

pub const LOGGING: Role = Role::Technician;

pub const DISPATCHING: Role = Role::Technician;

// The answer of a call that is stopped, for the rows of the C interface: the number of the refusal `Right`.
pub const STOPPED: u16 = 16;

// Whether the role of this number has a right that `least` and those after it have.
pub fn may<L: Least>(least: L, role: u16) -> bool
    ensures { result ≡ (leb (L.rank least) role && leb role technician) }
{
    match Role::try_from(role) {
        Ok(role) => least.number() <= role.number(),
        Err(_) => false,
    }
}
