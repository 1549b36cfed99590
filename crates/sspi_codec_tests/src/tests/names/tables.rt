//! Tables of KDCs.

use crate::tests::checks::{answered, compares, holds};
use sspi_names::KdcTable;
use std::alloc::Global;
use std::process::Abort;

fn pushes(rt: &impl Abort, table: &mut KdcTable, realm: &str, url: &str) {
    answered(rt, table.push(realm, url), realm);
}

fn finds(rt: &impl Abort, table: &KdcTable, realm: &str, url: Option<&str>) {
    holds(rt, table.find(realm) == url, realm);
}

#[test]
fn first_kdc_of_a_realm_is_found(rt: HostRuntime) {
    let mut table = KdcTable::new(rt.alloc());
    pushes(&rt, &mut table, "", "tcp://none");
    pushes(&rt, &mut table, "EXAMPLE.COM", "tcp://first");
    pushes(&rt, &mut table, "example.com", "udp://second");
    pushes(&rt, &mut table, "OTHER", "");
    finds_first(&rt, &table);
    let copy = answered(&rt, table.clone(rt.alloc()), "copy");
    finds(&rt, &copy, "Example.Com", Some("tcp://first"));
    finds(&rt, &copy, "other", Some(""));
}

fn finds_first(rt: &impl Abort, table: &KdcTable) {
    finds(rt, table, "example.com", Some("tcp://first"));
    finds(rt, table, "", None);
    finds(rt, table, "example", None);
    finds(rt, table, "example.com.", None);
    finds(rt, table, "\u{212a}", None);
}

fn table(rt: &impl Abort, alloc: Global, realm: &str, url: &str) -> KdcTable {
    let mut table = KdcTable::new(alloc);
    pushes(rt, &mut table, "A", "tcp://a");
    pushes(rt, &mut table, realm, url);
    table
}

fn compares_tables(rt: &impl Abort, alloc: Global, realm: &str, url: &str, same: bool) {
    let one = table(rt, alloc, realm, url);
    let other = table(rt, alloc, "B", "tcp://b");
    compares(rt, one, other, same, url);
}

#[test]
fn equal_tables(rt: HostRuntime) {
    compares_tables(&rt, rt.alloc(), "B", "tcp://b", true);
    compares_tables(&rt, rt.alloc(), "b", "tcp://b", false);
    compares_tables(&rt, rt.alloc(), "B", "udp://b", false);
}
