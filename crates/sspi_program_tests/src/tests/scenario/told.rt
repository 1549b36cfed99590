//! Scenario texts, with what they say.

use crate::tests::scenario::checks::{lend, parsed};
use sspi_delegate::End;
use sspi_mech::Scripted;
use sspi_scenario::{Mode, Package, Purpose, Scenario};
use sspi_tsreq::CredSspMode;
use std::alloc::Global;
use std::process::Abort;

const EVERY_KEY: &[u8] =
    b"# every key\n\nmode negotiate\nuser DOM\\ann lee\npassword  p w\nkey 01aF\nserver-key \n\
      client-version 4294967295\nserver-version 0\n\
      nonce 000102030405060708090a0b0c0d0e0f101112131415161718191A1B1C1D1E1F\n\
      challenge 0102030405060708\ncomputer\ntarget a b\ndelegation less\nkeytab 05\n\
      client-protocol kerberos\nserver-protocol ntlm\nclient-packages !kerberos,ntlm\nserver-packages\n\
      client-url tcp://k a\nkdc EXAMPLE.COM tcp://k\nkdc  \nkdc-user ann@EXAMPLE.COM\nkdc-user\n\
      kdc-answer usual\nkdc-answer code 255\nkdc-answer fail\n\
      ticket 202122232425262728292a2b2c2d2e2f303132333435363738393A3B3C3D3E3F\n\
      account DOM\\bob two words\naccount \\x \nproxy-fail 2\nproxy-fail 0\nturns 3\n\
      edit 0 drop\nedit 1 cut 7\nedit 1 set 3 fF\nedit 2 add \nedit 3 give 0102\nedit 4 again 1\nedit 5 fail\n\
      client-least 0\nserver-least 4294967295";

const FEWEST_KEYS: &[u8] = b"mode ntlm\nuser DOM\\ann\npassword pw\nkey 010203\n";

fn ends_are_told(told: &Scenario) -> bool {
    told.mode == Mode::Negotiate
        && told.user.inner() == "DOM\\ann lee"
        && told.password.as_str() == " p w"
        && told.key.as_slice() == [0x01, 0xaf].as_slice()
        && told.server_key.is_empty()
        && told.client_version == 4294967295
        && told.server_version == 0
        && told.nonce[31] == 31
        && told.challenge == [1, 2, 3, 4, 5, 6, 7, 8]
        && told.computer.is_empty()
        && told.target.as_str() == "a b"
        && told.delegation == CredSspMode::CredentialLess
}

fn packages_are_told(told: &Scenario) -> bool {
    told.client_protocol == Package::Kerberos
        && told.server_protocol == Package::Ntlm
        && matches!(&told.client_packages, Some(list) if list.as_str() == "!kerberos,ntlm")
        && matches!(&told.server_packages, Some(list) if list.is_empty())
}

fn kdcs_are_told(told: &Scenario) -> bool {
    matches!(&told.client_url, Some(url) if url.as_str() == "tcp://k a")
        && told.kdc.find("example.com") == Some("tcp://k")
        && told.kdc.find("x").is_none()
        && told.kdc_answer.as_slice()
            == [Scripted::Usual, Scripted::Code(255), Scripted::Fail].as_slice()
        && matches!(told.ticket, Some(ticket) if ticket[0] == 32 && ticket[31] == 63)
}

fn users_are_told(told: &Scenario) -> bool {
    let users = told.kdc_user.as_slice();
    users.len() == 2 && users[0].as_str() == "ann@EXAMPLE.COM" && users[1].is_empty()
}

fn lists_are_told(told: &Scenario) -> bool {
    let accounts = told.account.as_slice();
    accounts.len() == 2
        && accounts[0].username.account_name() == "bob"
        && accounts[0].password.value.as_str() == "two words"
        && accounts[1].username.inner() == "x"
        && accounts[1].password.value.is_empty()
        && told.keytab.is_some()
        && told.proxy_fail.as_slice() == [2, 0].as_slice()
        && told.turns == 3
        && told.client_least == 0
        && told.server_least == 4294967295
        && told.edit.as_slice().len() == 7
}

fn check_told(rt: &impl Abort, told: &Scenario) {
    assert!(rt; ends_are_told(told));
    assert!(rt; packages_are_told(told));
    assert!(rt; kdcs_are_told(told));
    assert!(rt; users_are_told(told));
    assert!(rt; lists_are_told(told));
}

fn is_told(rt: &impl Abort, alloc: Global) {
    let told = parsed(rt, alloc, Purpose::Exchange, EVERY_KEY);
    lend(told, |told| check_told(rt, told));
}

#[test]
fn every_key_is_read(rt: HostRuntime) {
    is_told(&rt, rt.alloc());
}

const DELIVERIES: &[u8] =
    b"mode ntlm\ndeliver client\nuser a\ndeliver server 01fF\npassword p\nkey 00\ndeliver client ";

fn deliveries_are_told(told: &Scenario) -> bool {
    let deliveries = told.deliver.as_slice();
    deliveries.len() == 3
        && deliveries[0].to == End::Client
        && deliveries[0].bytes.is_empty()
        && deliveries[1].to == End::Server
        && deliveries[1].bytes.as_slice() == [0x01, 0xff].as_slice()
        && deliveries[2].to == End::Client
        && deliveries[2].bytes.is_empty()
}

fn is_told_of_a_play(rt: &impl Abort, alloc: Global) {
    let told = parsed(rt, alloc, Purpose::Play, DELIVERIES);
    assert!(rt; lend(told, |told| deliveries_are_told(told)));
}

#[test]
fn deliveries_are_read_in_their_order(rt: HostRuntime) {
    is_told_of_a_play(&rt, rt.alloc());
}

const ADMITTED: &[u8] =
    b"mode ntlm\nadmit DOM\\ann\nuser a\npassword p\nadmit \nkey 00\nadmit ann@EXAMPLE.COM";

fn names_are_told(told: &Scenario) -> bool {
    let names = told.admit.as_slice();
    names.len() == 3
        && names[0].inner() == "DOM\\ann"
        && names[1].inner() == ""
        && names[2].inner() == "ann@EXAMPLE.COM"
}

fn is_told_of_an_early(rt: &impl Abort, alloc: Global) {
    let told = parsed(rt, alloc, Purpose::Early, ADMITTED);
    assert!(rt; lend(told, |told| names_are_told(told)));
}

#[test]
fn admitted_names_are_read_in_their_order(rt: HostRuntime) {
    is_told_of_an_early(&rt, rt.alloc());
}

fn ends_are_the_default(given: &Scenario) -> bool {
    given.mode == Mode::Ntlm
        && given.server_key.as_slice() == [1, 2, 3].as_slice()
        && given.client_version == 6
        && given.server_version == 6
        && given.nonce == [0; 32]
        && given.challenge == [0; 8]
        && given.computer.as_str() == "CLIENT"
        && given.target.as_str() == "TERMSRV/host.example.com"
        && given.delegation == CredSspMode::WithCredentials
}

fn packages_are_the_default(given: &Scenario) -> bool {
    given.client_protocol == Package::Ntlm
        && given.server_protocol == Package::Ntlm
        && given.client_packages.is_none()
        && given.server_packages.is_none()
}

fn kdcs_are_the_default(given: &Scenario) -> bool {
    given.client_url.is_none()
        && given.kdc.find("EXAMPLE.COM").is_none()
        && given.kdc_user.as_slice().is_empty()
        && given.kdc_answer.as_slice().is_empty()
        && given.ticket.is_none()
}

fn lists_are_the_default(given: &Scenario) -> bool {
    let accounts = given.account.as_slice();
    accounts.len() == 1
        && accounts[0].username.inner() == "DOM\\ann"
        && accounts[0].password.value.as_str() == "pw"
        && given.keytab.is_none()
        && given.turns == 5
        && given.client_least == 5
        && given.server_least == 5
        && given.edit.as_slice().is_empty()
        && given.deliver.as_slice().is_empty()
        && given.proxy_fail.as_slice().is_empty()
        && given.admit.as_slice().is_empty()
}

fn check_defaults(rt: &impl Abort, given: &Scenario) {
    assert!(rt; ends_are_the_default(given));
    assert!(rt; packages_are_the_default(given));
    assert!(rt; kdcs_are_the_default(given));
    assert!(rt; lists_are_the_default(given));
}

fn is_the_default(rt: &impl Abort, alloc: Global) {
    let told = parsed(rt, alloc, Purpose::Exchange, FEWEST_KEYS);
    lend(told, |told| check_defaults(rt, told));
}

#[test]
fn defaults_are_those_of_the_format(rt: HostRuntime) {
    is_the_default(&rt, rt.alloc());
}
