//! Configurations, their copies, and the mechanisms that are made from them.

use crate::tests::checks::{Test, given, holds, lend};
use crate::tests::negotiate::scene::{config, protocol_config};
use sspi_mech::Ntlm;
use sspi_names::KdcTable;
use sspi_negotiate::{NegotiateConfig, NegotiatedProtocol, ProtocolConfig};

fn is_same(config: &NegotiateConfig, other: &NegotiateConfig) -> bool {
    config.protocol_config == other.protocol_config
        && config.client_computer_name == other.client_computer_name
}

fn has_list(rt: &impl Test, config: &NegotiateConfig) {
    match &config.package_list {
        Some(list) => holds(rt, list.as_str() == "ntlm", "another list"),
        None => holds(rt, false, "no list"),
    }
}

fn is_copied(rt: &impl Test, config: &NegotiateConfig) {
    lend(given(rt, config.clone(rt.alloc())), |copy| {
        holds(rt, is_same(copy, config), "another copy");
        has_list(rt, copy);
    });
}

fn without_list(rt: &impl Test, config: &NegotiateConfig) -> NegotiateConfig {
    NegotiateConfig::from_protocol_config(
        given(rt, config.protocol_config.clone(rt.alloc())),
        given(rt, config.client_computer_name.clone(rt.alloc())),
        given(rt, config.kdcs.clone(rt.alloc())),
    )
}

fn lacks_list(rt: &impl Test, config: &NegotiateConfig) {
    lend(without_list(rt, config), |other| {
        holds(rt, is_same(other, config), "another configuration");
        holds(rt, other.package_list.is_none(), "a list");
    });
}

fn copies(rt: &impl Test, protocol: &str) {
    lend(config(rt, protocol, Some("ntlm")), |config| {
        is_copied(rt, config);
        lacks_list(rt, config);
    });
}

#[test]
fn configurations(rt: HostRuntime) {
    copies(&rt, "ntlm");
    copies(&rt, "kerberos");
    copies(&rt, "kerberos+ticket");
}

fn is_named(made: &NegotiatedProtocol<Ntlm, Ntlm>, name: &str) -> bool {
    made.protocol_name() == name
        && made.is_ntlm() == (name == "NTLM")
        && made.is_kerberos() == (name == "Kerberos")
}

fn makes(rt: &impl Test, config: &ProtocolConfig, name: &str) {
    lend(given(rt, config.new_instance(rt.alloc())), |made| {
        holds(rt, is_named(made, name), name);
    });
}

fn copy_makes(rt: &impl Test, config: &ProtocolConfig, name: &str) {
    lend(given(rt, config.clone(rt.alloc())), |copy| {
        holds(rt, *copy == *config, "another copy");
        makes(rt, copy, name);
    });
}

fn instance(rt: &impl Test, protocol: &str, name: &str) {
    let kdcs = KdcTable::new(rt.alloc());
    lend(protocol_config(rt, protocol, None, &kdcs), |config| {
        copy_makes(rt, config, name);
    });
}

#[test]
fn instances(rt: HostRuntime) {
    instance(&rt, "ntlm", "NTLM");
    instance(&rt, "kerberos", "Kerberos");
    instance(&rt, "kerberos+ticket", "Kerberos");
}
