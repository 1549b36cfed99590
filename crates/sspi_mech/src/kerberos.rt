//! Plain Kerberos, a stand-in: anyone can read, forge and replay its messages.

ghost use Rattle.std.specs.Prelude.{◌≡◌, IfErr, option_copied};
ghost use Rattle.sspi_mech.specs.declared.step.Progressing.TheVariants as progress;
ghost use Rattle.sspi_mech.specs.Answers.{answer_of};
ghost use Rattle.sspi_mech.specs.KerberosMessages.{read_ap_reply};
ghost use Rattle.sspi_mech.specs.KerberosSteps.{proof_by, wants_pairing};
ghost use Rattle.sspi_mech.specs.Answered.{GivesExactly, answered};

mod arrival;
pub mod laws;
mod logon;
pub(crate) mod messages;
mod realms;
mod replies;
mod stage;

use crate::args::{AcceptSecurityContext, InitializeSecurityContext};
use crate::config::{KerberosConfig, MechConfig};
use crate::kerberos::arrival::arrival_of;
use crate::kerberos::logon::{buffers_of, logon_of, request_at};
use crate::kerberos::messages::{
    TICKET_REQUEST, ap_reply, ap_request, as_request, is_ticket_request, read_ap_reply,
    read_ticket, reply_proof, tgs_request, ticket_reply,
};
use crate::kerberos::realms::Realms;
use crate::kerberos::replies::{first_key_in, session_key_in};
use crate::kerberos::stage::{Peer, Stage};
use crate::mechanism::Mechanism;
use crate::protection::Protection;
use crate::refusal::Refusal;
use crate::step::{Answer, Progressing, Reply, Step};
use bitflags::Flags;
use sspi_names::{Credentials, CredentialsBuffers, KdcTable, Username};
use sspi_types::{
    Bytes, ClientRequestFlags, ContextSizes, CredentialUse, Error, ErrorKind, PackageInfo, Reason,
    SecurityPackageType, SecurityStatus, SessionKeys, query_security_package_info,
};
use std::alloc::Global;
use std::marker::Model;

/// Plain Kerberos: the client gets a session key from a KDC and sends it to the server, which shows
/// that it has it.
///
/// A client's step that asks for a key takes the name from its credentials. With `USE_SESSION_KEY`
/// (user-to-user), a client asks its KDC for a first key and the server for its ticket. With both
/// it asks the KDC for the session key. Without the flag, it asks the KDC twice in its first step,
/// with zeros in place of a ticket. A request goes to the `kdc_url` of the configuration, or else
/// to the KDC of the realm that is the name's domain.
///
/// A server without a ticket in its configuration takes only a session key; one with a ticket sends
/// it if first asked for it. `set_identities` changes nothing, and takes any list that is not
/// empty.
///
/// Refusals; the first that applies is answered:
/// - OutOfSequence: a step of the other role, after the end, or while waiting for the KDC; `resume`
///   while not waiting; a call that needs the key or the name before it is there; `set_identities`
///   except on a server that has the session key.
/// - ContextExpired: a message whose count is `u64::MAX`.
/// - InvalidToken: a message of another form or with bytes after it; a request for the ticket if
///   there is none; a reply of the KDC that is neither the one asked for nor an error with a known
///   code; a name that is not UTF-8; a sealed text of less than 16 bytes.
/// - UnknownCredentials: a name that mixes the two forms of names; the KDC's code 4.
/// - NoCredentials: outbound `acquire`, or a client's step that asks for a key, without
///   credentials; an empty list of identities.
/// - NoAuthenticatingAuthority: no KDC for the name, a KDC that could not be asked, or its code 2.
///   It is answered before InternalError: a name longer than 65535 bytes.
/// - TimeSkew, CertificateUnknown, LogonDenied: the KDC's codes 1, 3 and 5.
/// - MessageAltered: a wrong tag or MIC. MutualAuthFailed: the server showed a wrong key.
#[derive(Drop)]
pub struct Kerberos {
    alloc: Global,
    realms: Realms,
    ticket: Option<[u8; 32]>,
    stage: Stage,
    protection: Protection,
}

impl Model for Kerberos {
    ghost use Rattle.sspi_mech.specs.KerberosStage.{KerberosState};

    ghost Value = { KerberosState };

    ghost view = { λ kerberos. record {
      realms = kerberos.realms;
      ticket = kerberos.ticket;
      stage = kerberos.stage;
      protection = kerberos.protection;
    } };
}

impl Kerberos {
    ghost use Rattle.std.specs.Prelude.{IfOk};
    ghost use Rattle.sspi_types.specs.Errors.{memory_error};
    ghost use Rattle.sspi_mech.specs.Kerberos.{kerberos_with};
    ghost use Rattle.sspi_mech.specs.KerberosLogon.{logon_of};
    ghost use Rattle.sspi_mech.specs.KerberosMessages.{read_ticket};
    ghost use Rattle.sspi_mech.specs.KerberosReplies.{first_key_in};
    ghost use Rattle.sspi_mech.specs.KerberosSteps.{Moves, Steps, client_step, resumed_step};
    ghost use Rattle.sspi_mech.specs.KerberosSteps.{server_step};
    ghost use Rattle.sspi_mech.specs.Answered.{answered};
    ghost use Rattle.sspi_mech.specs.KerberosSteps.{begins, takes_ticket, pairs, admits};
    ghost use Rattle.sspi_mech.specs.KerberosSteps.{sends_ticket, arrival_of};

    /// An object of this configuration that has made no step.
    fn with(
        alloc: Global,
        config: &KerberosConfig,
        ticket: Option<[u8; 32]>,
    ) -> Result<Kerberos, Error>
        ensures made { IfOk result (λ it. it ≡ kerberos_with config.now.kdc_url config.now.kdcs
            ticket) }
        ensures err { IfErr result (λ error. error ≡ memory_error) }
    {
        let kdc_url = match &config.kdc_url {
            None => None,
            Some(url) => Some(url.clone(alloc)?),
        };
        let kdcs = config.kdcs.clone(alloc)?;
        Ok(Kerberos {
            alloc,
            realms: Realms { kdc_url, kdcs },
            ticket,
            stage: Stage::Unused,
            protection: Protection::new(),
        })
    }

    fn client_step(
        &mut self,
        handle: Option<&CredentialsBuffers>,
        flags: ClientRequestFlags,
        input: &[u8],
    ) -> Result<Progressing, Refusal>
        ensures { Moves (client_step self.old.stage self.old (option_copied handle.entry) flags
            input.now)
            self.old (answered result) self.new }
    {
        match &self.stage {
            Stage::Unused => self.begin(handle, wants_pairing(flags)),
            Stage::TicketAsked(key) => {
                let key = *key;
                self.take_ticket(&key, handle, input)
            }
            Stage::SessionSent(_) => {
                check_shown(self.protection.key()?, input)?;
                self.stage.advance();
                Ok(Progressing::Done(Step {
                    status: SecurityStatus::Ok,
                    output: Bytes::new(self.alloc),
                }))
            }
            Stage::PairingAsked
            | Stage::LogonAsked(_)
            | Stage::SessionAsked(_)
            | Stage::Ended(_)
            | Stage::TicketSent
            | Stage::Accepted(_) => Err(Refusal::out_of_sequence()),
        }
    }

    /// Asks the KDC for a first key.
    fn begin(
        &mut self,
        handle: Option<&CredentialsBuffers>,
        pairing: bool,
    ) -> Result<Progressing, Refusal>
        requires { self.now.stage ≡ Stage.Unused }
        ensures { Moves (begins self.old pairing
            (logon_of self.old.realms (option_copied handle.entry)))
            self.old (answered result) self.new }
    {
        let logon = logon_of(self.alloc, &self.realms, handle)?;
        let payload = as_request(self.alloc, logon.name.username().inner())?;
        let request = request_at(logon.url, payload);
        self.stage = if pairing {
            Stage::PairingAsked
        } else {
            Stage::LogonAsked(logon.name)
        };
        Ok(Progressing::Suspended(request))
    }

    /// Asks the KDC for a session key by the server's ticket.
    fn take_ticket(
        &mut self,
        key: &[u8; 32],
        handle: Option<&CredentialsBuffers>,
        input: &[u8],
    ) -> Result<Progressing, Refusal>
        requires { self.now.stage ≡ Stage.TicketAsked key.now }
        ensures { Moves (takes_ticket self.old key.now (read_ticket input.now)
            (option_copied handle.entry))
            self.old (answered result) self.new }
    {
        let Some(ticket) = read_ticket(input) else {
            return Err(Refusal::malformed());
        };
        let logon = logon_of(self.alloc, &self.realms, handle)?;
        let payload = tgs_request(self.alloc, key, ticket)?;
        let request = request_at(logon.url, payload);
        self.stage = Stage::SessionAsked(logon.name);
        Ok(Progressing::Suspended(request))
    }

    fn resumed_step(&mut self, reply: &Reply) -> Result<Progressing, Refusal>
        ensures { Moves (resumed_step self.old.stage self.old reply.now) self.old (answered result)
            self.new }
    {
        match &self.stage {
            Stage::PairingAsked => self.pair(reply),
            Stage::LogonAsked(name) => {
                let key = first_key_in(reply)?;
                let url = self.realms.kdc_of(self.alloc, name.username())?;
                let payload = tgs_request(self.alloc, &key, &[0; 32])?;
                self.stage.advance();
                Ok(Progressing::Suspended(request_at(url, payload)))
            }
            Stage::SessionAsked(name) => {
                let key = session_key_in(reply)?;
                let output = ap_request(self.alloc, name.username().inner(), &key)?;
                self.stage.advance();
                self.protection.set_key(key);
                Ok(going(output))
            }
            Stage::Unused
            | Stage::TicketAsked(_)
            | Stage::SessionSent(_)
            | Stage::Ended(_)
            | Stage::TicketSent
            | Stage::Accepted(_) => Err(Refusal::out_of_sequence()),
        }
    }

    /// Asks the server for its ticket.
    fn pair(&mut self, reply: &Reply) -> Result<Progressing, Refusal>
        ensures { Moves (pairs self.old (first_key_in reply.now)) self.old (answered result)
            self.new }
    {
        let key = first_key_in(reply)?;
        let output = Vec::from_slice(self.alloc, TICKET_REQUEST)?;
        self.stage = Stage::TicketAsked(key);
        Ok(going(output))
    }

    fn server_step(&mut self, input: &[u8]) -> Result<Step, Refusal>
        ensures { Steps (server_step self.old.stage self.old input.now) self.old (answered result)
            self.new }
    {
        match &self.stage {
            Stage::Unused => {
                if is_ticket_request(input) {
                    self.send_ticket()
                } else {
                    self.admit(false, input)
                }
            }
            Stage::TicketSent => self.admit(true, input),
            Stage::PairingAsked
            | Stage::TicketAsked(_)
            | Stage::LogonAsked(_)
            | Stage::SessionAsked(_)
            | Stage::SessionSent(_)
            | Stage::Ended(_)
            | Stage::Accepted(_) => Err(Refusal::out_of_sequence()),
        }
    }

    fn send_ticket(&mut self) -> Result<Step, Refusal>
        ensures { Steps (sends_ticket self.old self.old.ticket) self.old (answered result)
            self.new }
    {
        let Some(ticket) = &self.ticket else {
            return Err(Refusal::malformed());
        };
        let output = ticket_reply(self.alloc, ticket)?;
        self.stage = Stage::TicketSent;
        Ok(Step {
            status: SecurityStatus::ContinueNeeded,
            output: Bytes::from_vec(output),
        })
    }

    /// Takes the session key, and shows that this end has it.
    fn admit(&mut self, user_to_user: bool, input: &[u8]) -> Result<Step, Refusal>
        ensures { Steps (admits self.old user_to_user (arrival_of input.now)) self.old
            (answered result) self.new }
    {
        let arrival = arrival_of(self.alloc, input)?;
        let output = ap_reply(self.alloc, &arrival.key)?;
        self.protection.set_key(arrival.key);
        self.stage = Stage::Accepted(Peer {
            name: arrival.name,
            user_to_user,
        });
        Ok(Step {
            status: SecurityStatus::Ok,
            output: Bytes::from_vec(output),
        })
    }
}

/// Whether a client asks for user-to-user authentication.
fn wants_pairing(flags: ClientRequestFlags) -> bool
    ensures { result ≡ wants_pairing flags }
{
    flags.contains(ClientRequestFlags::USE_SESSION_KEY)
}

/// Checks that a server showed the session key in its message.
fn check_shown(key: &[u8; 32], input: &[u8]) -> Result<(), Refusal>
    ensures answer { GivesExactly result (proof_by key.now (read_ap_reply input.now)) }
{
    let Some(proof) = read_ap_reply(input) else {
        return Err(Refusal::malformed());
    };
    if proof.as_slice() != reply_proof(key).as_slice() {
        return Err(Refusal::new(ErrorKind::MutualAuthFailed, Reason::Tag));
    }
    Ok(())
}

/// A step that continues once the peer has answered this token.
fn going(output: Vec<u8>) -> Progressing
    ensures { result ≡ progress.Done (record {
      status = SecurityStatus.ContinueNeeded;
      output = output.items;
    }) }
{
    Progressing::Done(Step {
        status: SecurityStatus::ContinueNeeded,
        output: Bytes::from_vec(output),
    })
}

/// The answer of a step.
fn answer(moved: Result<Progressing, Refusal>) -> Answer
    ensures { result ≡ answer_of (answered moved) }
{
    match moved {
        Ok(Progressing::Done(step)) => Answer::Done(step),
        Ok(Progressing::Suspended(request)) => Answer::Ask(request),
        Err(refusal) => Answer::Refused(refusal.into()),
    }
}

impl Mechanism for Kerberos {
    const REQUESTS: u32 = 2;

    ghost use Rattle.sspi_mech.specs.Kerberos.{kerberos_meaning};
    ghost use Rattle.sspi_mech.specs.KerberosLaws.{kerberos_laws};

    ghost REQUESTS = { 2 };

    ghost meaning = { kerberos_meaning };

    ghost laws = { kerberos_laws };

    fn make(alloc: Global, config: &MechConfig<'_>) -> Result<Self, Error> {
        match config {
            MechConfig::Ntlm(_) => Ok(Kerberos {
                alloc,
                realms: Realms {
                    kdc_url: None,
                    kdcs: KdcTable::new(alloc),
                },
                ticket: None,
                stage: Stage::Unused,
                protection: Protection::new(),
            }),
            MechConfig::Kerberos(config) => Kerberos::with(alloc, *config, None),
            MechConfig::KerberosServer(config, server) => Kerberos::with(
                alloc,
                *config,
                server.ticket,
            ),
        }
    }

    fn acquire(
        &mut self,
        credential_use: CredentialUse,
        auth_data: Option<&Credentials>,
    ) -> Result<Option<CredentialsBuffers>, Error> {
        Ok(buffers_of(self.alloc, credential_use, auth_data)?)
    }

    fn initialize(&mut self, args: &InitializeSecurityContext<'_>) -> Answer {
        answer(self.client_step(
            args.credentials_handle,
            args.context_requirements,
            args.input,
        ))
    }

    fn resume(&mut self, reply: &Reply) -> Answer {
        answer(self.resumed_step(reply))
    }

    fn accept(&mut self, args: &AcceptSecurityContext<'_>) -> Result<Step, Error> {
        Ok(self.server_step(args.input)?)
    }

    fn waiting(&self) -> bool {
        self.stage.waits()
    }

    fn requests_left(&self) -> u32 {
        self.stage.requests_left()
    }

    fn complete(&mut self) -> Result<SecurityStatus, Error> {
        self.protection.key()?;
        Ok(SecurityStatus::Ok)
    }

    fn names(&self) -> Result<Username, Error> {
        match self.stage.name() {
            Some(name) => Ok(name.clone(self.alloc)?),
            None => Err(Refusal::out_of_sequence().into()),
        }
    }

    fn set_identities(&mut self, identities: &[Credentials]) -> Result<(), Error> {
        match &self.stage {
            Stage::Accepted(_) => {
                if identities.is_empty() {
                    return Err(Error::new(ErrorKind::NoCredentials, Reason::NoCandidate));
                }
                Ok(())
            }
            Stage::Unused
            | Stage::PairingAsked
            | Stage::TicketAsked(_)
            | Stage::LogonAsked(_)
            | Stage::SessionAsked(_)
            | Stage::SessionSent(_)
            | Stage::Ended(_)
            | Stage::TicketSent => Err(Refusal::out_of_sequence().into()),
        }
    }

    fn seal(&mut self, text: &[u8]) -> Result<Vec<u8>, Error> {
        let direction = self.stage.own_direction();
        Ok(self.protection.seal(self.alloc, direction, text)?)
    }

    fn unseal(&mut self, blob: &[u8]) -> Result<Vec<u8>, Error> {
        let direction = self.stage.peer_direction();
        Ok(self.protection.unseal(self.alloc, direction, blob)?)
    }

    fn sign(&mut self, text: &[u8]) -> Result<Vec<u8>, Error> {
        let direction = self.stage.own_direction();
        Ok(self.protection.sign(self.alloc, direction, text)?)
    }

    fn verify(&mut self, mic: &[u8], text: &[u8]) -> Result<(), Error> {
        let direction = self.stage.peer_direction();
        Ok(self.protection.verify(direction, mic, text)?)
    }

    fn user_to_user(&self) -> bool {
        self.stage.user_to_user()
    }

    fn package_info(&self) -> Result<PackageInfo, Error> {
        query_security_package_info(self.alloc, &SecurityPackageType::Kerberos)
    }

    fn sizes(&self) -> ContextSizes {
        ContextSizes {
            max_token: 48000,
            max_signature: 16,
            block: 0,
            security_trailer: 16,
        }
    }

    fn session_key(&self) -> Result<SessionKeys, Error> {
        let key = self.protection.key()?;
        let session_key = Bytes::from_slice(self.alloc, key.as_slice())?;
        Ok(SessionKeys {
            session_key: session_key.into(),
        })
    }
}
