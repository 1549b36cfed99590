//! What the lines of a case set before its calls: an object's configuration, the object, and the
//! arguments of its next step.

use crate::tests::checks::{Test, given, halves, put};
use crate::tests::mech::object::Object;
use crate::tests::values::{buffers, client_args, kerberos_config, ntlm_config};
use bitflags::Flags;
use sspi_mech::{AcceptSecurityContext, KerberosServerConfig, MechConfig, Progressing, Step};
use sspi_names::{CredentialsBuffers, KdcTable};
use sspi_types::{ClientRequestFlags, DataRepresentation, Error, ServerRequestFlags};
use std::alloc::Global;
use std::mem;

/// What a case has set so far.
#[derive(Drop)]
pub struct Scene<M> {
    kdcs: KdcTable,
    kdc_url: Option<&'static str>,
    pub handle: Option<CredentialsBuffers>,
    flags: ClientRequestFlags,
    pub object: Option<M>,
}

fn flags(rt: &impl Test, word: &str) -> ClientRequestFlags {
    match word {
        "none" => ClientRequestFlags::from_bits_retain(0),
        "USE_SESSION_KEY" => ClientRequestFlags::USE_SESSION_KEY,
        _ => rt.abort(),
    }
}

/// The bytes `40` to `5f`.
const TICKET: &[u8; 32] = b"@ABCDEFGHIJKLMNOPQRSTUVWXYZ[\\]^_";

impl<M: Object> Scene<M> {
    pub fn new(alloc: Global) -> Scene<M> {
        Scene {
            kdcs: KdcTable::new(alloc),
            kdc_url: None,
            handle: None,
            flags: ClientRequestFlags::from_bits_retain(0),
            object: None,
        }
    }

    fn serve(&mut self, rt: &impl Test, words: &str) {
        let (realm, url) = halves(words);
        given(rt, self.kdcs.push(realm, url));
    }

    fn make_of(&mut self, rt: &impl Test, config: &MechConfig<'_>) {
        self.object = Some(given(rt, M::made(rt.alloc(), config)));
    }

    fn make_ntlm(&mut self, rt: &impl Test) {
        let config = ntlm_config(rt);
        self.make_of(rt, &MechConfig::Ntlm(&config));
    }

    fn make_kerberos(&mut self, rt: &impl Test, ticket: Option<[u8; 32]>) {
        let kdcs = mem::replace(&mut self.kdcs, KdcTable::new(rt.alloc()));
        let config = kerberos_config(rt, self.kdc_url, kdcs);
        match ticket {
            None => self.make_of(rt, &MechConfig::Kerberos(&config)),
            Some(_) => {
                let server = KerberosServerConfig { ticket };
                self.make_of(rt, &MechConfig::KerberosServer(&config, &server));
            }
        }
    }

    fn make(&mut self, rt: &impl Test, word: &str) {
        match word {
            "ntlm" => self.make_ntlm(rt),
            "kerberos" => self.make_kerberos(rt, None),
            "kerberos+ticket" => self.make_kerberos(rt, Some(*TICKET)),
            _ => rt.abort(),
        }
    }

    /// Takes a line that is not a call.
    pub fn set(&mut self, rt: &impl Test, word: &str, words: &'static str) {
        match word {
            "kdc" => self.serve(rt, words),
            "kdc-url" => self.kdc_url = Some(words),
            "make" => self.make(rt, words),
            "handle" => put(&mut self.handle, buffers(rt, words)),
            "flags" => self.flags = flags(rt, words),
            _ => rt.abort(),
        }
    }

    /// The object makes a client's step.
    pub fn initialize(&mut self, rt: &impl Test, input: &[u8]) -> Result<Progressing, Error> {
        let no_target: Option<&'static str> = None;
        let args = client_args(self.handle.as_ref(), self.flags, no_target, input);
        match &mut self.object {
            None => rt.abort(),
            Some(object) => object.initializes(&args),
        }
    }

    /// The object makes a server's step.
    pub fn accept(&mut self, rt: &impl Test, input: &[u8]) -> Result<Step, Error> {
        match &mut self.object {
            None => rt.abort(),
            Some(object) => object.accepts(&AcceptSecurityContext {
                credentials_handle: None,
                context_requirements: ServerRequestFlags::from_bits_retain(0),
                target_data_representation: DataRepresentation::Native,
                input,
            }),
        }
    }
}
