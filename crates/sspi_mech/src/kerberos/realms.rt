//! Which KDC serves a realm.

ghost use Rattle.std.specs.Prelude.{◌≡◌, option_copied, IfErr, IsOk};
ghost use Rattle.sspi_mech.specs.KerberosLogon.{url_by, kdc_of};
ghost use Rattle.sspi_mech.specs.Answered.{Gives};

use crate::refusal::Refusal;
use sspi_names::{KdcTable, Username};
use sspi_types::{ErrorKind, Reason, Text};
use std::alloc::Global;

/// Which KDC a client asks.
#[derive(Drop)]
pub struct Realms {
    /// The one URL for all realms, if there is one.
    pub kdc_url: Option<Text>,
    /// Otherwise, the KDC of each realm.
    pub kdcs: KdcTable,
}

impl Realms {
    fn url(&self, name: &Username) -> Option<&str>
        ensures { option_copied result ≡ url_by self.now.kdc_url self.now.kdcs name.now }
    {
        match &self.kdc_url {
            Some(url) => Some(url.as_str()),
            None => self.kdcs.find(name.domain_name()?),
        }
    }

    /// The URL of the KDC of this name; NoAuthenticatingAuthority if there is none.
    pub fn kdc_of(&self, alloc: Global, name: &Username) -> Result<Text, Refusal>
        ensures answer { Gives result (kdc_of self.now name.now) }
        ensures memory { IfErr result (λ error. error.error_type ≡ ErrorKind.InsufficientMemory →
            IsOk (kdc_of self.now name.now)) }
    {
        match self.url(name) {
            Some(url) => Ok(Text::from_text(alloc, url)?),
            None => Err(Refusal::new(ErrorKind::NoAuthenticatingAuthority, Reason::Kdc)),
        }
    }
}
