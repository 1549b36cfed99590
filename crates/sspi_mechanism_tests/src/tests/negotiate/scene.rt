//! What the lines of a case set before its calls: an end's configuration, the end, and the
//! arguments of its next step.

use crate::tests::checks::{Test, given, halves, lend, put, text};
use crate::tests::negotiate::end::End;
use crate::tests::values::{buffers, client_args, identity, kerberos_config, ntlm_config};
use bitflags::Flags;
use sspi_mech::{AcceptSecurityContext, KerberosConfig, KerberosServerConfig, Progressing, Step};
use sspi_names::{AuthIdentity, CredentialsBuffers, KdcTable};
use sspi_negotiate::{NegotiateConfig, ProtocolConfig};
use sspi_types::{ClientRequestFlags, DataRepresentation, Error, ServerRequestFlags};
use std::alloc::Global;
use std::mem;
use std::process::Abort;

/// What a case has set so far.
#[derive(Drop)]
pub struct Scene<E> {
    known: Vec<AuthIdentity>,
    kdcs: KdcTable,
    kdc_url: Option<&'static str>,
    pub handle: Option<CredentialsBuffers>,
    flags: u32,
    target: Option<&'static str>,
    pub end: Option<E>,
}

/// The two flags that ask for MICs, and all others.
fn flags(rt: &impl Test, word: &str) -> u32 {
    let (key, dce) = (
        ClientRequestFlags::USE_SESSION_KEY,
        ClientRequestFlags::USE_DCE_STYLE,
    );
    match word {
        "none" => 0,
        "USE_SESSION_KEY" => key.bits(),
        "USE_DCE_STYLE" => dce.bits(),
        "others" => !(key | dce).bits(),
        _ => rt.abort(),
    }
}

fn with_kdcs(rt: &impl Test, kdc_url: Option<&str>, kdcs: &KdcTable) -> KerberosConfig {
    kerberos_config(rt, kdc_url, given(rt, kdcs.clone(rt.alloc())))
}

/// The configuration of the mechanism that an end begins with.
pub fn protocol_config(
    rt: &impl Test,
    word: &str,
    kdc_url: Option<&str>,
    kdcs: &KdcTable,
) -> ProtocolConfig {
    match word {
        "ntlm" => ProtocolConfig::Ntlm(ntlm_config(rt)),
        "kerberos" => ProtocolConfig::Kerberos(with_kdcs(rt, kdc_url, kdcs)),
        "kerberos+ticket" => ProtocolConfig::KerberosServer(
            with_kdcs(rt, kdc_url, kdcs),
            KerberosServerConfig {
                ticket: Some([7; 32]),
            },
        ),
        _ => rt.abort(),
    }
}

fn config_with(
    rt: &impl Test,
    protocol: &str,
    packages: Option<&str>,
    kdc_url: Option<&str>,
    kdcs: KdcTable,
) -> NegotiateConfig {
    NegotiateConfig::new(
        protocol_config(rt, protocol, kdc_url, &kdcs),
        packages.map(|list| text(rt, list)),
        text(rt, "CLIENT"),
        kdcs,
    )
}

/// A configuration that begins with this mechanism, may use these packages and knows no KDC.
pub fn config(rt: &impl Test, protocol: &str, packages: Option<&str>) -> NegotiateConfig {
    config_with(rt, protocol, packages, None, KdcTable::new(rt.alloc()))
}

/// The value that was made, to be called.
pub fn made<'a, E>(rt: &impl Abort, end: &'a mut Option<E>) -> &'a mut E {
    match end {
        Some(end) => end,
        None => rt.abort(),
    }
}

impl<E: End> Scene<E> {
    pub fn new(alloc: Global) -> Scene<E> {
        Scene {
            known: Vec::new(alloc),
            kdcs: KdcTable::new(alloc),
            kdc_url: None,
            handle: None,
            flags: 0,
            target: None,
            end: None,
        }
    }

    /// The configuration from the words of a mechanism and, if there is one, a package list.
    fn config(&mut self, rt: &impl Test, words: &str) -> NegotiateConfig {
        let (protocol, packages) = halves(words);
        let packages = if packages.is_empty() {
            None
        } else {
            Some(packages)
        };
        let kdcs = mem::replace(&mut self.kdcs, KdcTable::new(rt.alloc()));
        config_with(rt, protocol, packages, self.kdc_url, kdcs)
    }

    fn make_client(&mut self, rt: &impl Test, words: &str) {
        let end = lend(self.config(rt, words), |config| {
            E::client(rt.alloc(), config)
        });
        put(&mut self.end, Some(given(rt, end)));
    }

    fn make_server(&mut self, rt: &impl Test, words: &str) {
        let known = mem::replace(&mut self.known, Vec::new(rt.alloc()));
        let end = lend(self.config(rt, words), |config| {
            E::server(rt.alloc(), config, known)
        });
        put(&mut self.end, Some(given(rt, end)));
    }

    fn know(&mut self, rt: &impl Test, words: &str) {
        given(rt, self.known.push(identity(rt, words)));
    }

    fn serve(&mut self, rt: &impl Test, words: &str) {
        let (realm, url) = halves(words);
        given(rt, self.kdcs.push(realm, url));
    }

    /// Takes a line that is not a call.
    pub fn set(&mut self, rt: &impl Test, word: &str, words: &'static str) {
        match word {
            "known" => self.know(rt, words),
            "kdc" => self.serve(rt, words),
            "kdc-url" => self.kdc_url = Some(words),
            "client" => self.make_client(rt, words),
            "server" => self.make_server(rt, words),
            "handle" => put(&mut self.handle, buffers(rt, words)),
            "flags" => self.flags = flags(rt, words),
            "target" => self.target = Some(words),
            _ => rt.abort(),
        }
    }

    /// The end that was made last makes a client's step.
    pub fn initialize(&mut self, rt: &impl Test, input: &[u8]) -> Result<Progressing, Error> {
        let flags = ClientRequestFlags::from_bits_retain(self.flags);
        let args = client_args(self.handle.as_ref(), flags, self.target, input);
        made(rt, &mut self.end).initialize(&args)
    }

    /// The end that was made last makes a server's step.
    pub fn accept(&mut self, rt: &impl Test, input: &[u8]) -> Result<Step, Error> {
        let args = AcceptSecurityContext {
            credentials_handle: None,
            context_requirements: ServerRequestFlags::from_bits_retain(self.flags),
            target_data_representation: DataRepresentation::Network,
            input,
        };
        made(rt, &mut self.end).accept(&args)
    }
}
