//! Three sessions of three calls each, in every order that keeps that of each session.

use crate::tests::desk::messages::octets;
use crate::tests::desk::stage::{Answer, NtlmDesk, Test, given, is_answer, lend, server};
use sspi_desk::{Call, Desk, serve_all};
use sspi_types::Bytes;

/// What each session is sent, and what it is answered. The third session's server knows nobody.
const CALLS: &str = "\
A says B
C says D
E finished
A says B
3007a003020106a28a data
C says D
A says B
C NoCredentials N
3105 eof";

/// The sessions of nine calls in their order, as the digits of a number to the base three.
fn order_of(rt: &impl Test, number: u32) -> Vec<u64> {
    let mut order = Vec::new(rt.alloc());
    let mut rest = number;
    for _ in 0..9 {
        given(rt, order.push(u64::from(rest % 3)));
        rest /= 3;
    }
    order
}

/// How many of the calls before this place are the session's.
fn before(order: &[u64], place: usize, session: u64) -> usize {
    order
        .iter()
        .take(place)
        .filter(|earlier| **earlier == session)
        .count()
}

fn is_fair(order: &[u64]) -> bool {
    before(order, 9, 0) == 3 && before(order, 9, 1) == 3 && before(order, 9, 2) == 3
}

/// The line of the call at this place, which is the session's.
fn line_at(order: &[u64], place: usize, session: u64) -> (&'static str, &'static str) {
    let first = session as usize;
    let line = first
        .wrapping_mul(3)
        .wrapping_add(before(order, place, session));
    let words = CALLS.lines().nth(line).unwrap_or("");
    words.split_once(' ').unwrap_or((words, ""))
}

fn calls(rt: &impl Test, order: &[u64]) -> Vec<Call> {
    let mut calls = Vec::new(rt.alloc());
    for (place, session) in order.iter().enumerate() {
        let bytes = Bytes::from_vec(octets(rt, line_at(order, place, *session).0));
        let call = Call {
            session: *session,
            bytes,
        };
        given(rt, calls.push(call));
    }
    calls
}

fn admit_all(rt: &impl Test, desk: &mut NtlmDesk) {
    for session in 0..3 {
        if desk.admitted() == u64::MAX {
            rt.abort()
        }
        assert_eq!(rt; given(rt, desk.admit(server(rt, session < 2))), session);
    }
}

fn are_answered(rt: &impl Test, order: &[u64], answers: &[Answer]) {
    assert_eq!(rt; answers.len(), order.len());
    for (place, answer) in answers.iter().enumerate() {
        match order.get(place) {
            Some(session) => assert!(rt; is_answer(rt, answer, line_at(order, place, *session).1)),
            None => rt.abort(),
        }
    }
}

fn serves(rt: &impl Test, desk: &mut NtlmDesk, order: &[u64]) {
    let answers = given(rt, serve_all(rt.alloc(), desk, &calls(rt, order)));
    are_answered(rt, order, &answers);
    assert_eq!(rt; desk.kept(), 3);
}

fn in_order(rt: &impl Test, order: &[u64]) {
    lend(Desk::new(rt.alloc(), 3), |desk| {
        admit_all(rt, desk);
        serves(rt, desk, order);
    });
}

#[test]
fn every_order(rt: HostRuntime) {
    let mut orders = 0u32;
    for number in 0..19683 {
        let order = order_of(&rt, number);
        if is_fair(&order) {
            in_order(&rt, &order);
            orders = orders.wrapping_add(1);
        }
    }
    assert_eq!(rt; orders, 1680);
}
