//! Queries given by a word, and what they answer by a text: a name, a key in hex, the package of an
//! entry, or a refusal.

use crate::tests::messages::ends::{Context, Test, given, holds, identity};
use crate::tests::messages::lines::shows;
use sspi_names::{ContextNames, Credentials, KeytabIdentity, Username};
use sspi_types::{
    Bytes, ContextSizes, Error, PackageInfo, SecurityPackageType, SecurityStatus, SessionKeys,
    query_security_package_info,
};

pub fn refused(rt: &impl Test, refusal: Option<Error>, told: &str) {
    match refusal {
        Some(error) => holds(rt, shows(&error, told), told),
        None => holds(rt, false, told),
    }
}

fn password(rt: &impl Test) -> Credentials {
    Credentials::AuthIdentity(identity(rt))
}

/// Checks that it is refused, or that it answers nothing, written as `-`.
fn done(rt: &impl Test, answer: Result<(), Error>, told: &str) {
    match answer {
        Ok(()) => holds(rt, told == "-", told),
        Err(error) => holds(rt, shows(&error, told), told),
    }
}

pub fn named(rt: &impl Test, answer: Result<ContextNames, Error>, told: &str) {
    match answer {
        Ok(names) => holds(rt, names.username.inner() == told, told),
        Err(error) => holds(rt, shows(&error, told), told),
    }
}

pub fn keyed(rt: &impl Test, answer: Result<SessionKeys, Error>, told: &str) {
    match answer {
        Ok(keys) => {
            let key = given(rt, hex::decode(rt.alloc(), told));
            holds(
                rt,
                keys.session_key.value.as_slice() == key.as_slice(),
                told,
            );
        }
        Err(error) => holds(rt, shows(&error, told), told),
    }
}

/// Checks that an entry is equal to the package's own.
pub fn entered(rt: &impl Test, answer: Result<PackageInfo, Error>, told: &str) {
    match answer {
        Ok(info) => {
            let package = given(rt, SecurityPackageType::from_str(rt.alloc(), told));
            let entry = query_security_package_info(rt.alloc(), &package);
            holds(rt, Ok(info) == entry, told);
        }
        Err(error) => holds(rt, shows(&error, told), told),
    }
}

pub fn sized(rt: &impl Test, sizes: ContextSizes, told: &str) {
    let ntlm = ContextSizes {
        max_token: 2010,
        max_signature: 16,
        block: 0,
        security_trailer: 16,
    };
    holds(rt, told == "2010,16,0,16" && sizes == ntlm, told);
}

fn completed(rt: &impl Test, answer: Result<SecurityStatus, Error>, told: &str) {
    match answer {
        Ok(status) => holds(rt, told == "Ok" && status == SecurityStatus::Ok, told),
        Err(error) => holds(rt, shows(&error, told), told),
    }
}

fn keytab(rt: &impl Test) -> Credentials {
    Credentials::Keytab(KeytabIdentity {
        username: given(rt, Username::parse(rt.alloc(), "ann")),
        keytab: Bytes::new(rt.alloc()),
    })
}

pub fn ask(rt: &impl Test, context: &Context, what: &str, told: &str) {
    match what {
        "name" => named(rt, context.query_context_names(), told),
        "key" => keyed(rt, context.query_context_session_key(), told),
        "sizes" => sized(rt, context.query_context_sizes(), told),
        "entry" => entered(rt, context.query_context_package_info(), told),
        "negotiated" => entered(rt, context.query_context_negotiation_package(), told),
        what => lacks(rt, context, what, told),
    }
}

/// Queries that no package here has, and the name of the selected package.
fn lacks(rt: &impl Test, context: &Context, what: &str, told: &str) {
    match what {
        "streams" => refused(rt, context.query_context_stream_sizes().err(), told),
        "trust" => refused(rt, context.query_context_cert_trust_status().err(), told),
        "connection" => refused(rt, context.query_context_connection_info().err(), told),
        what => holds(
            rt,
            what == "package" && context.package_name() == told,
            what,
        ),
    }
}

/// Calls that change a context and do not protect a message.
pub fn act(rt: &impl Test, context: &mut Context, what: &str, told: &str) {
    match what {
        "complete" => completed(rt, context.complete_auth_token(), told),
        "keytab" => done(rt, context.custom_set_auth_identity(keytab(rt)), told),
        "password" => done(rt, context.custom_set_auth_identity(password(rt)), told),
        what => holds(rt, false, what),
    }
}
