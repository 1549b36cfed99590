//! Object identifiers of mechanisms (X.690 8.19).

ghost use Rattle.std.specs.Prelude.{◌≡◌, IfOk};
ghost use Rattle.sspi_tokens.specs.Oids.{spnego, ms_krb5, krb5, ntlm_ssp, kind_of, identifier_of};

use sspi_types::Bytes;
use std::alloc::{AllocError, Global};
use std::marker::Model;

pub(crate) const SPNEGO: [u8; 6] = [0x2b, 0x06, 0x01, 0x05, 0x05, 0x02];

const MS_KRB5: [u8; 9] = [0x2a, 0x86, 0x48, 0x82, 0xf7, 0x12, 0x01, 0x02, 0x02];

const KRB5: [u8; 9] = [0x2a, 0x86, 0x48, 0x86, 0xf7, 0x12, 0x01, 0x02, 0x02];

const NTLM_SSP: [u8; 10] = [0x2b, 0x06, 0x01, 0x04, 0x01, 0x82, 0x37, 0x02, 0x02, 0x0a];

/// An OBJECT IDENTIFIER as its content bytes (X.690 8.19), which are not interpreted. Contracts see
/// it as the list of these bytes.
#[derive(Drop)]
pub struct Oid {
    content: Bytes,
}

impl Model for Oid {
    ghost use Rattle.std.specs.Prelude.{ℕ, List};

    ghost Value = { List ℕ };

    ghost view = { λ oid. oid.content };
}

impl PartialEq for Oid {
    ghost use Rattle.std.specs.Prelude.{◌==◌};
    ghost use Rattle.std.specs.Cmp.{partial_equiv_from_equiv};
    ghost use Rattle.std.specs.Cmp.Lexicographic.{pointwise, nat_list_eq_equiv};

    ghost eq = { pointwise ◌==◌ };

    ghost laws = { partial_equiv_from_equiv nat_list_eq_equiv };

    fn eq(&self, other: &Oid) -> bool {
        self.content == other.content
    }
}

impl Eq for Oid {
    ghost use Rattle.std.specs.Cmp.Lexicographic.{nat_list_eq_equiv};

    ghost laws = { nat_list_eq_equiv };
}

/// The mechanisms that a negotiation here knows, by their identifiers. It is `Copy`, and used in
/// place of an `Oid` where nothing may be allocated.
#[derive(Clone, Copy, Debug, PartialEq, Eq)]
pub enum MechKind {
    /// Kerberos under the identifier with the bit error of Windows 2000 (MS-SPNG 1.9).
    MsKerberos,
    /// Kerberos (RFC 4121).
    Kerberos,
    /// NTLM (MS-NLMP 1.9).
    Ntlm,
    /// Any other, including SPNEGO itself.
    Other,
}

impl MechKind {
    /// The identifier that names this mechanism in a token (`supported_mech`); `None` for `Other`.
    pub fn identifier(self, alloc: Global) -> Result<Option<Oid>, AllocError>
        ensures { IfOk result (λ oid. oid ≡ identifier_of self) }
    {
        match self {
            MechKind::MsKerberos => Ok(Some(Oid::ms_krb5(alloc)?)),
            MechKind::Kerberos => Ok(Some(Oid::krb5(alloc)?)),
            MechKind::Ntlm => Ok(Some(Oid::ntlm_ssp(alloc)?)),
            MechKind::Other => Ok(None),
        }
    }
}

impl Oid {
    /// The identifier with these content bytes, whatever they are.
    pub fn from_content(alloc: Global, content: &[u8]) -> Result<Oid, AllocError>
        ensures { IfOk result (λ oid. oid ≡ content.now) }
    {
        Ok(Oid {
            content: Bytes::from_slice(alloc, content)?,
        })
    }

    /// The content bytes, borrowed.
    pub fn content(&self) -> &[u8]
        ensures { result.now ≡ self.now }
    {
        self.content.as_slice()
    }

    /// 1.3.6.1.5.5.2, SPNEGO itself (RFC 4178, section 3).
    pub fn spnego(alloc: Global) -> Result<Oid, AllocError>
        ensures { IfOk result (λ oid. oid ≡ spnego) }
    {
        Oid::from_content(alloc, &SPNEGO)
    }

    /// 1.2.840.48018.1.2.2, Kerberos under the identifier with the bit error of Windows 2000
    /// (MS-SPNG 1.9).
    pub fn ms_krb5(alloc: Global) -> Result<Oid, AllocError>
        ensures { IfOk result (λ oid. oid ≡ ms_krb5) }
    {
        Oid::from_content(alloc, &MS_KRB5)
    }

    /// 1.2.840.113554.1.2.2, Kerberos (RFC 4121).
    pub fn krb5(alloc: Global) -> Result<Oid, AllocError>
        ensures { IfOk result (λ oid. oid ≡ krb5) }
    {
        Oid::from_content(alloc, &KRB5)
    }

    /// 1.3.6.1.4.1.311.2.2.10, NTLM (MS-NLMP 1.9).
    pub fn ntlm_ssp(alloc: Global) -> Result<Oid, AllocError>
        ensures { IfOk result (λ oid. oid ≡ ntlm_ssp) }
    {
        Oid::from_content(alloc, &NTLM_SSP)
    }

    /// Which mechanism this identifier names. Allocates nothing.
    #[tactic(auto, unfolding(crate::specs::Oids::kind_of))]
    pub fn kind(&self) -> MechKind
        ensures { result ≡ kind_of self.now }
    {
        let content = self.content();
        if content == MS_KRB5.as_slice() {
            MechKind::MsKerberos
        } else if content == KRB5.as_slice() {
            MechKind::Kerberos
        } else if content == NTLM_SSP.as_slice() {
            MechKind::Ntlm
        } else {
            MechKind::Other
        }
    }

    /// A copy in memory of its own, equal to this identifier.
    pub fn clone(&self, alloc: Global) -> Result<Oid, AllocError>
        ensures { IfOk result (λ oid. oid ≡ self.now) }
    {
        Ok(Oid {
            content: self.content.clone(alloc)?,
        })
    }
}
