//! The keys of a scenario.

ghost use Rattle.std.specs.Prelude.{◌≡◌};
ghost use Rattle.sspi_scenario.specs.Keys;
ghost use Rattle.sspi_scenario.specs.Keys.{key_named};
ghost use Rattle.sspi_scenario.specs.Reads.{first_named};
ghost use Rattle.sspi_scenario.specs.Table.{row};

/// The keys of a scenario.
#[derive(Clone, Copy, Debug, PartialEq, Eq)]
pub enum Key {
    Mode,
    User,
    Password,
    Key,
    ServerKey,
    ClientVersion,
    ServerVersion,
    Nonce,
    Challenge,
    Computer,
    Target,
    Delegation,
    Keytab,
    ClientProtocol,
    ServerProtocol,
    ClientPackages,
    ServerPackages,
    ClientUrl,
    Kdc,
    KdcUser,
    KdcAnswer,
    Ticket,
    Account,
    Accounts,
    ProxyFail,
    Turns,
    Edit,
    Deliver,
    ClientLeast,
    ServerLeast,
    Admit,
}

const NAMES: [(Key, &str); 31] = [
    (Key::Mode, "mode"),
    (Key::User, "user"),
    (Key::Password, "password"),
    (Key::Key, "key"),
    (Key::ServerKey, "server-key"),
    (Key::ClientVersion, "client-version"),
    (Key::ServerVersion, "server-version"),
    (Key::Nonce, "nonce"),
    (Key::Challenge, "challenge"),
    (Key::Computer, "computer"),
    (Key::Target, "target"),
    (Key::Delegation, "delegation"),
    (Key::Keytab, "keytab"),
    (Key::ClientProtocol, "client-protocol"),
    (Key::ServerProtocol, "server-protocol"),
    (Key::ClientPackages, "client-packages"),
    (Key::ServerPackages, "server-packages"),
    (Key::ClientUrl, "client-url"),
    (Key::Kdc, "kdc"),
    (Key::KdcUser, "kdc-user"),
    (Key::KdcAnswer, "kdc-answer"),
    (Key::Ticket, "ticket"),
    (Key::Account, "account"),
    (Key::Accounts, "accounts"),
    (Key::ProxyFail, "proxy-fail"),
    (Key::Turns, "turns"),
    (Key::Edit, "edit"),
    (Key::Deliver, "deliver"),
    (Key::ClientLeast, "client-least"),
    (Key::ServerLeast, "server-least"),
    (Key::Admit, "admit"),
];

impl Key {
    /// The key of this name.
    #[tactic(auto, unfolding(crate::specs::Keys::key_named))]
    pub fn from_name(name: &str) -> Option<Key>
        ensures { result ≡ key_named name.now }
    {
        named(name, &NAMES)
    }

    /// Whether these two keys are the same.
    pub fn is(self, other: Key) -> bool
        ensures { result ≡ Keys.is_same self other }
    {
        self == other
    }

    /// Whether a line with this key excludes a later line with the other.
    pub fn excludes(self, later: Key) -> bool
        ensures { result ≡ Keys.excludes self later }
    {
        match (self, later) {
            (Key::Account, Key::Accounts) | (Key::Accounts, Key::Account) => true,
            _ => self.is(later) && !later.repeats(),
        }
    }

    /// Whether a key may be repeated.
    fn repeats(self) -> bool
        ensures { result ≡ (row self).repeats }
    {
        matches!(
            self,
            Key::Kdc
                | Key::KdcUser
                | Key::KdcAnswer
                | Key::Account
                | Key::ProxyFail
                | Key::Edit
                | Key::Deliver
                | Key::Admit
        )
    }
}

/// The first of these keys that has this name.
fn named(name: &str, rows: &[(Key, &str)]) -> Option<Key>
    ensures { result ≡ first_named name.now rows.now }
{
    for (key, known) in rows {
        if name == *known {
            return Some(*key);
        }
    }
    None
}

/// Whether a key is among these.
pub fn has(keys: &[Key], key: Key) -> bool
    ensures { result ≡ Keys.has keys.now key }
{
    keys.iter().any(|earlier| earlier.is(key))
}

/// Whether these keys exclude a later line with this one.
pub fn is_excluded(keys: &[Key], key: Key) -> bool
    ensures { result ≡ Keys.is_excluded keys.now key }
{
    keys.iter().any(|earlier| earlier.excludes(key))
}

/// Whether the keys that every scenario must have are among these.
pub fn has_required(keys: &[Key]) -> bool
    ensures { result ≡ Keys.has_required keys.now }
{
    has(keys, Key::Mode) && has(keys, Key::User) && has(keys, Key::Password) && has(keys, Key::Key)
}
