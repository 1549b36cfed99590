//! The Kerberos that replaces NTLM if a KDC serves the domain of the user's name.

ghost use Rattle.std.specs.Prelude.{◌≡◌, None, IfOk, IfErr, IfSome, OnOk, OnErr, option_copied};
ghost use Rattle.std.specs.Option.{unwrap_or};
ghost use Rattle.sspi_mech.specs.Calls.{no_counts};
ghost use Rattle.sspi_types.specs.declared.error_kind.ErrorKind.TheVariants as kinds;
ghost use Rattle.sspi_names.specs.Name.{domain_of};
ghost use Rattle.sspi_negotiate.specs.Rule.{url_for, rule_url, ruled_values, TakenBy};
ghost use Rattle.sspi_negotiate.specs.Hand.{hand, hand_of};
ghost use Rattle.sspi_negotiate.specs.Values.{values_of};

use crate::negotiate::Negotiate;
use crate::protocol::NegotiatedProtocol;
use sspi_mech::{Mechanism, Refusal};
use sspi_names::{KdcTable, Username};

/// The URL of the KDC that serves the domain of a name.
fn url_for<'a>(kdcs: &'a KdcTable, name: &Username) -> Option<&'a str>
    ensures { option_copied result ≡ url_for kdcs.now (domain_of name.now) }
{
    match name.domain_name() {
        None => None,
        Some(domain) => kdcs.find(domain),
    }
}

impl<N: Mechanism, K: Mechanism> Negotiate<N, K> {
    fn rule_url(&self, name: &Username) -> Option<&str>
        ensures { option_copied result ≡ rule_url (values_of self.now) name.now }
    {
        if self.protocol.is_ntlm() && self.packages.kerberos {
            url_for(&self.kdcs, name)
        } else {
            None
        }
    }

    /// A Kerberos to replace NTLM, if a KDC serves the name's domain.
    pub(crate) fn kerberos_by_rule(
        &self,
        name: &Username,
    ) -> Result<Option<NegotiatedProtocol<N, K>>, Refusal>
        // What `Ok` holds.
        ensures taken { IfOk result (λ kerberos. TakenBy (hand N.meaning K.meaning)
            (rule_url (values_of self.now) name.now)
            self.now.kdcs self.now.computer self.now.mech (unwrap_or kerberos self.now.mech)) }
        ensures named { IfOk result (λ kerberos. hand_of (unwrap_or kerberos self.now.mech) ≡
            (ruled_values (rule_url (values_of self.now) name.now) (values_of self.now)).hand) }
        ensures fresh { IfOk result (λ kerberos. IfSome kerberos
            (λ it. (hand N.meaning K.meaning).counts it ≡ no_counts)) }
        // What a refusal says.
        ensures err { IfErr result (λ error. error.error_type ≡ kinds.InsufficientMemory) }
    {
        match self.rule_url(name) {
            None => Ok(None),
            Some(url) => {
                let kerberos = NegotiatedProtocol::new_kerberos(
                    self.alloc,
                    Some(url),
                    &self.kdcs,
                    &self.client_computer_name,
                )?;
                Ok(Some(kerberos))
            }
        }
    }

    /// Selects Kerberos in place of NTLM, if a KDC serves the name's domain.
    pub(crate) fn take_by_rule(&mut self, name: &Username) -> Result<(), Refusal>
        // What `Ok` holds.
        ensures taken { OnOk result (TakenBy (hand N.meaning K.meaning)
            (rule_url (values_of self.old) name.now) self.old.kdcs self.old.computer self.old.mech
            self.new.mech) }
        ensures named { OnOk result (values_of self.new ≡ ruled_values
            (rule_url (values_of self.old) name.now) (values_of self.old)) }
        // What holds of every answer.
        ensures rest { self.new ≡ record self.old { mech = self.new.mech } }
        ensures need { self.new.need ≡ self.old.need }
        // What a refusal says, and what it leaves.
        ensures err { OnErr result (self.new ≡ self.old) }
        ensures memory { IfErr result (λ error. error.error_type ≡ kinds.InsufficientMemory) }
    {
        if let Some(kerberos) = self.kerberos_by_rule(name)? {
            self.protocol = kerberos;
        }
        Ok(())
    }
}
