//! What a scenario is for, and so which keys it may have.

ghost use Rattle.std.specs.Prelude.{◌≡◌};
ghost use Rattle.sspi_scenario.specs.Purposes;
ghost use Rattle.sspi_scenario.specs.Purposes.{key_for};

use crate::key::{Key, has};

/// What a scenario is for, which determines the keys that it may have.
#[derive(Clone, Copy, Debug, PartialEq, Eq)]
pub enum Purpose {
    /// Its ends exchange their messages over a link.
    Exchange,
    /// Its ends receive the deliveries of a schedule.
    Play,
    /// Its ends exchange their messages over a link, and then its server reports whether the user
    /// may log on.
    Early,
    /// Many clients like its own are served at one desk, which delivers what was sent.
    Sessions,
    /// Its server receives the credentials of a peer, over a channel.
    Serve,
    /// Its client delegates its credentials to a peer, over a channel.
    Connect,
}

impl Purpose {
    /// The key of this name, if a scenario for this purpose may have it.
    #[tactic(auto, unfolding(crate::specs::Purposes::key_for))]
    pub fn key_named(self, name: &str) -> Option<Key>
        ensures { result ≡ key_for self name.now }
    {
        let key = Key::from_name(name)?;
        if self.takes(key) { Some(key) } else { None }
    }

    /// Whether a scenario for this purpose may have a key.
    pub fn takes(self, key: Key) -> bool
        ensures { result ≡ Purposes.takes self key }
    {
        match self {
            Purpose::Exchange => !matches!(key, Key::Deliver | Key::Admit),
            Purpose::Play => !matches!(key, Key::Turns | Key::Edit | Key::Admit),
            Purpose::Early => !matches!(key, Key::Deliver),
            Purpose::Sessions => !matches!(key, Key::Edit | Key::Deliver | Key::Admit),
            Purpose::Serve | Purpose::Connect => {
                !matches!(key, Key::Edit | Key::Deliver | Key::ProxyFail)
            }
        }
    }

    /// Whether an end over a channel is given its random value: zeros are known to everybody.
    pub fn has_random(self, keys: &[Key]) -> bool
        ensures { result ≡ Purposes.has_random self keys.now }
    {
        match self {
            Purpose::Serve => has(keys, Key::Challenge),
            Purpose::Connect => has(keys, Key::Nonce),
            Purpose::Exchange | Purpose::Play | Purpose::Early | Purpose::Sessions => true,
        }
    }
}
