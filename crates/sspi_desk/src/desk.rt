//! Many server sessions under numbers, each as if it were alone.

ghost use Rattle.std.specs.Prelude.{◌≡◌, ◌==◌, ℕ, ◌+◌, ◌^◌, ◌<◌, ◌≤◌, [], length, IsSome};
ghost use Rattle.std.specs.Prelude.{MatchResult};
ghost use Rattle.sspi_credssp.specs.Context.{either};
ghost use Rattle.sspi_desk.specs.Desk.{session, IsAdmitted, IsRefusedFor, IsClosed, Serves};

use crate::answer::{DeskError, Served, Turned, Why};
use crate::call::answer;
use crate::keeping::keep;
use sspi_credssp::{CredSspServer, CredentialsProxy};
use sspi_mech::Mechanism;
use std::alloc::Global;
use std::collections::HashMap;
use std::marker::Model;

/// Server sessions under numbers. What one session is sent changes no other.
///
/// Sessions share the limit, so one that is kept may leave no room for another. They also share the
/// numbers, which show how many were admitted, and memory and time.
#[derive(Drop)]
pub struct Desk<N, K, C> {
    alloc: Global,
    limit: u32,
    admitted: u64,
    sessions: HashMap<u64, CredSspServer<N, K, C>>,
}

impl<N, K, C> Model for Desk<N, K, C> {
    ghost use Rattle.sspi_credssp.specs.declared.context.SspiContext.{SspiContext};
    ghost use Rattle.sspi_desk.specs.Desk.{DeskView, IsOrderly};

    ghost Value = { DeskView (SspiContext N K) C };

    ghost view = { λ desk. record {
      limit = desk.limit;
      admitted = desk.admitted;
      kept = desk.sessions.entries;
    } };

    ghost invariant = { λ desk. IsOrderly desk.limit desk.admitted desk.sessions.entries };
}

impl<N, K, C> Desk<N, K, C> {
    /// A desk that keeps at most `limit` sessions, with none yet. Allocates nothing.
    pub fn new(alloc: Global, limit: u32) -> Desk<N, K, C>
        ensures { result ≡ record { limit = limit; admitted = 0; kept = [] } }
    {
        Desk {
            alloc,
            limit,
            admitted: 0,
            sessions: HashMap::new(alloc),
        }
    }

    /// Ends a session and returns its server as its last call left it; `None` exactly if the
    /// session is not kept.
    pub fn close(&mut self, session: u64) -> Option<CredSspServer<N, K, C>>
        ensures { IsClosed session result self.old self.new }
    {
        self.sessions.remove(&session)
    }

    /// How many sessions are kept.
    pub fn kept(&self) -> usize
        ensures count { result ≡ length self.now.kept }
        ensures within { result ≤ self.now.limit }
    {
        self.sessions.len()
    }

    /// Whether as many sessions are kept as the desk allows.
    pub fn is_full(&self) -> bool
        ensures { result ≡ (length self.now.kept == self.now.limit) }
    {
        self.sessions.len() == self.limit as usize
    }

    /// How many sessions have been admitted so far; all their numbers are below this.
    pub fn admitted(&self) -> u64
        ensures count { result ≡ self.now.admitted }
        ensures below { (s : ℕ) → IsSome (session s self.now) → s < result }
    {
        self.admitted
    }
}

impl<N: Mechanism, K: Mechanism, C: CredentialsProxy> Desk<N, K, C> {
    /// Keeps a server as a session; its number is how many sessions were admitted before. No number
    /// is used twice, so fewer than 2^64 - 1 may have been admitted before (see `admitted`).
    ///
    /// It is refused as `Full` if `limit` sessions are kept, and only then. After a refusal the
    /// server is handed back, and the desk is as it was.
    pub fn admit(&mut self, server: CredSspServer<N, K, C>) -> Result<u64, Turned<N, K, C>>
        requires { self.old.admitted + 1 < 2 ^ 64 }
        ensures { MatchResult result
            (λ number. IsAdmitted server number self.old self.new)
            (λ turned. (turned.server ≡ server) × IsRefusedFor turned.why self.old ×
            (self.new ≡ self.old)) }
    {
        if self.is_full() {
            return Err(Turned {
                server,
                why: Why::Full,
            });
        }
        let number = self.admitted;
        match keep(&mut self.sessions, number, server) {
            Ok(()) => {
                self.admitted += 1;
                Ok(number)
            }
            Err(server) => Err(Turned {
                server,
                why: Why::InsufficientMemory,
            }),
        }
    }

    /// Passes bytes to a session as its client's message, and answers what its server makes of
    /// them.
    ///
    /// `NoSession` exactly if the session is not kept; then nothing changes. Otherwise, apart from
    /// out of memory, each comes exactly in its case: `Answer` if the server has a message, with
    /// its bytes; `TooLong` if the content of these would exceed `sspi_ber::MAX_CONTENT`, 1048576
    /// octets; `Finished` if the server has the client's credentials; `Unread` if the bytes do not
    /// begin with a request; `Refused` if the server refused. A session stays until it is closed,
    /// whatever its outcome. Not in any clause: the time does not grow with the number of sessions.
    pub fn serve(&mut self, session: u64, bytes: &[u8]) -> Result<Served, DeskError>
        ensures { Serves (either N.REQUESTS N.meaning K.meaning)
            C.meaning session bytes.now result self.old self.new }
    {
        let alloc = self.alloc;
        let Some(server) = self.sessions.get_mut(&session) else {
            return Err(DeskError::NoSession);
        };
        answer(alloc, server, bytes)
    }
}
