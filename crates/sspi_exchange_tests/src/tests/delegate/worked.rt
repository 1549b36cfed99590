//! Ends that are made to match do match, and their exchange succeeds if there is memory.

use sspi_completeness::worked::{
    Exchanged, by_ntlm, by_ntlm_of_old, given_up_for_ntlm, negotiated_at_version_4,
    negotiated_with_a_long_key, user_to_user, without_credentials,
};
use sspi_delegate::DelegateError;
use std::alloc::AllocError;
use std::process::Abort;

/// It took this many messages of the client, and this user was delegated, with this password.
fn comes_to<C: Drop, S: Drop>(
    rt: &impl Abort,
    made: Result<Exchanged<C, S>, AllocError>,
    messages: u32,
    name: &str,
    password: &str,
) {
    match made {
        Ok(it) => match &it.answer {
            Ok(delegation) => {
                assert_eq!(rt; delegation.rounds, messages);
                assert!(rt; delegation.credentials.username.inner() == name);
                assert!(rt; delegation.credentials.password.value.as_str() == password);
            }
            Err(_) => assert!(rt; false),
        },
        Err(_) => assert!(rt; false),
    }
}

fn spends_its_turns<C: Drop, S: Drop>(rt: &impl Abort, made: Result<Exchanged<C, S>, AllocError>) {
    match made {
        Ok(it) => match &it.answer {
            Ok(_) => assert!(rt; false),
            Err(error) => assert!(rt; *error == DelegateError::TurnsSpent),
        },
        Err(_) => assert!(rt; false),
    }
}

/// It left this many turns, and this many messages on the link.
fn leaves<C: Drop, S: Drop>(
    rt: &impl Abort,
    made: Result<Exchanged<C, S>, AllocError>,
    turns: usize,
    sent: usize,
) {
    match made {
        Ok(it) => {
            assert_eq!(rt; it.transcript.turns().len(), turns);
            assert_eq!(rt; it.link.log().len(), sent);
        }
        Err(_) => assert!(rt; false),
    }
}

#[test]
fn ntlm_takes_three_messages(rt: HostRuntime) {
    let alloc = rt.alloc();
    comes_to(&rt, by_ntlm(alloc, 3), 3, "DOM\\ann", "pw");
    comes_to(&rt, by_ntlm(alloc, 5), 3, "DOM\\ann", "pw");
    comes_to(&rt, by_ntlm_of_old(alloc, 3), 3, "DOM\\ann", "pw");
    comes_to(&rt, without_credentials(alloc, 3), 3, "", "");
}

#[test]
fn negotiations_take_four_or_five(rt: HostRuntime) {
    let alloc = rt.alloc();
    comes_to(&rt, negotiated_at_version_4(alloc, 5), 4, "DOM\\ann", "pw");
    comes_to(
        &rt,
        negotiated_with_a_long_key(alloc, 5),
        4,
        "ann@example.com",
        "fourteenletter",
    );
    comes_to(&rt, user_to_user(alloc, 5), 4, "ann@example.com", "pw");
    comes_to(&rt, given_up_for_ntlm(alloc, 5), 5, "ann@example.com", "pw");
}

#[test]
fn fewer_are_too_few(rt: HostRuntime) {
    let alloc = rt.alloc();
    spends_its_turns(&rt, by_ntlm(alloc, 2));
    spends_its_turns(&rt, negotiated_at_version_4(alloc, 3));
    spends_its_turns(&rt, user_to_user(alloc, 3));
    spends_its_turns(&rt, given_up_for_ntlm(alloc, 4));
}

/// Each round has a turn of either end, and the server's last one sends nothing.
#[test]
fn each_message_has_its_turn(rt: HostRuntime) {
    let alloc = rt.alloc();
    leaves(&rt, by_ntlm(alloc, 5), 6, 5);
    leaves(&rt, by_ntlm(alloc, 2), 4, 4);
    leaves(&rt, user_to_user(alloc, 5), 8, 7);
    leaves(&rt, given_up_for_ntlm(alloc, 5), 10, 9);
}
