//! Copies of the configurations.

use crate::tests::checks::{Test, given, holds};
use crate::tests::values::{kerberos_config, ntlm_config};
use sspi_mech::{KerberosServerConfig, NtlmConfig};
use sspi_names::KdcTable;

fn of_ntlm(rt: &impl Test, mut config: NtlmConfig) {
    config.challenge = *b"challeng";
    let copy = given(rt, config.clone(rt.alloc()));
    holds(rt, copy == config, "another copy");
}

fn kdcs(rt: &impl Test) -> KdcTable {
    let mut kdcs = KdcTable::new(rt.alloc());
    given(rt, kdcs.push("EXAMPLE.COM", "tcp://kdc"));
    kdcs
}

fn of_kerberos(rt: &impl Test, kdc_url: Option<&str>) {
    let config = kerberos_config(rt, kdc_url, kdcs(rt));
    let copy = given(rt, config.clone(rt.alloc()));
    holds(rt, copy == config, "another copy");
}

fn of_server(rt: &impl Test, config: &KerberosServerConfig) {
    let copy = given(rt, config.clone(rt.alloc()));
    holds(rt, copy == *config, "another ticket");
}

#[test]
fn are_copied(rt: HostRuntime) {
    of_ntlm(&rt, ntlm_config(&rt));
    of_kerberos(&rt, None);
    of_kerberos(&rt, Some("tcp://one"));
    let ticket = Some([7; 32]);
    of_server(&rt, &KerberosServerConfig { ticket });
}
