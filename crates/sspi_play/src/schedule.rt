//! `play`: an attacker's deliveries, each to its end, in order.

ghost use Rattle.std.specs.Prelude.{◌≡◌, [], IfErr};
ghost use Rattle.sspi_credssp.specs.Context.{either};
ghost use Rattle.sspi_delegate.specs.Chain.{kdc_calls};
ghost use Rattle.sspi_delegate.specs.Headline.{IsFresh};
ghost use Rattle.sspi_delegate.specs.History.{KdcStays, ProxyStays};
ghost use Rattle.sspi_delegate.specs.Turns.{client_end, server_end};
ghost use Rattle.sspi_play.specs.Agreement.{AgreesIfFaithful};
ghost use Rattle.sspi_play.specs.Kept.{identity_of};
ghost use Rattle.sspi_play.specs.Negotiated.{NegotiatesIfFaithful, VerifiesFirst};
ghost use Rattle.sspi_play.specs.Played.{both, Accounts, IsPlay};

use crate::hand::{Standing, hand};
use crate::played::{Delivery, Ending, Played};
use sspi_credssp::{CredSspClient, CredSspServer, CredentialsProxy};
use sspi_delegate::{DelegateError, Transcript};
use sspi_mech::{Kdc, Mechanism};
use std::alloc::Global;

/// Hands each delivery of the schedule to its end. A schedule is any octets, to either end, in any
/// order (MS-CSSP 3.1.5).
///
/// The first delivery to the client is its start, whose octets are not read. Every other delivery
/// is a request, from which its end makes a turn. If the client's context asks a KDC, `kdc` is
/// asked. The turn goes on with its reply, or with `Reply::Failed` if the call fails. Once an end
/// has refused, or was given what is not a request, later deliveries to it are passed over. A
/// server that has finished still takes a delivery, and refuses it.
///
/// Ok gives each end's state, and the identity that the server opened. The only error is
/// `InsufficientMemory`, also where an end or the KDC ran out of memory. The transcript drops the
/// turns that it held before. Whatever the answer, it then has every turn that was made, refused
/// ones too, in the order of the deliveries; and both ends are as their last turn left them. If
/// memory ran out for a reply of the KDC, the client has begun one further turn, on the next
/// delivery: it waits for that reply, and the turn is not recorded.
///
/// `accounts` holds of any ends. `plays`, `agrees`, `negotiates` and `verifies` hold of ends, made
/// with any version and least version, to which nothing was delivered before. `agrees` and
/// `negotiates` have premises of their own, stated in `specs/Agreement.antt`,
/// `specs/Negotiated.antt` and `specs/Faithful.antt`.
pub fn play<N: Mechanism, K: Mechanism, C: CredentialsProxy, D: Kdc>(
    alloc: Global,
    client: &mut CredSspClient<N, K>,
    server: &mut CredSspServer<N, K, C>,
    schedule: &[Delivery],
    kdc: &mut D,
    transcript: &mut Transcript,
) -> Result<Played, DelegateError>
    // Of any ends.
    ensures only { IfErr result (λ error. error ≡ DelegateError.InsufficientMemory) }
    ensures accounts { Accounts (either N.REQUESTS N.meaning K.meaning) C.meaning
        (kdc_calls D.told D.asked D.faults) schedule.now (both client.old server.old kdc.old [])
        result
        (both client.new server.new kdc.new transcript.new.turns) }
    // Of ends that were just made.
    ensures plays { IsFresh client.old server.old →
        IsPlay (either N.REQUESTS N.meaning K.meaning) C.meaning
        (kdc_calls D.told D.asked D.faults) schedule.now (both client.old server.old kdc.old [])
        result
        (both client.new server.new kdc.new transcript.new.turns) }
    ensures agrees { IsFresh client.old server.old →
        AgreesIfFaithful (either N.REQUESTS N.meaning K.meaning)
        (client_end client.new) (server_end server.new) transcript.new.turns (identity_of result) }
    ensures negotiates { IsFresh client.old server.old →
        NegotiatesIfFaithful N.REQUESTS N.meaning K.meaning
        (client_end client.new) (server_end server.new) server.old.settings.mode
        transcript.new.turns }
    ensures verifies { IsFresh client.old server.old →
        VerifiesFirst N.REQUESTS N.meaning K.meaning C.meaning
        client.new server.old (server_end server.new) transcript.new.turns }
    // What stays.
    ensures kdc { KdcStays D.told D.faults kdc.old kdc.new }
    ensures proxy { ProxyStays C.meaning server.old.proxy server.new.proxy }
{
    // Its clause says that a nonce has 32 octets, so agreement need not suppose that.
    let _nonce = client.client_nonce();
    transcript.clear();
    hand_all(alloc, client, server, schedule, kdc, transcript)
}

/// The same, for any ends.
fn hand_all<N: Mechanism, K: Mechanism, C: CredentialsProxy, D: Kdc>(
    alloc: Global,
    client: &mut CredSspClient<N, K>,
    server: &mut CredSspServer<N, K, C>,
    schedule: &[Delivery],
    kdc: &mut D,
    transcript: &mut Transcript,
) -> Result<Played, DelegateError>
    ensures only { IfErr result (λ error. error ≡ DelegateError.InsufficientMemory) }
    ensures accounts { transcript.old.turns ≡ [] →
        Accounts (either N.REQUESTS N.meaning K.meaning) C.meaning
        (kdc_calls D.told D.asked D.faults) schedule.now (both client.old server.old kdc.old [])
        result
        (both client.new server.new kdc.new transcript.new.turns) }
    ensures kdc { KdcStays D.told D.faults kdc.old kdc.new }
    ensures proxy { ProxyStays C.meaning server.old.proxy server.new.proxy }
{
    let mut standing = Standing {
        begun: false,
        played: Played {
            client: Ending::Running,
            server: Ending::Running,
            identity: None,
        },
    };
    for delivery in schedule {
        hand(
            alloc,
            client,
            server,
            delivery,
            kdc,
            transcript,
            &mut standing,
        )?;
    }
    Ok(standing.played)
}
