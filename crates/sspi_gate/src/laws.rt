//! Laws about the requests that a stream begins with and about relays, each on a function that does
//! nothing.

ghost use Rattle.std.specs.Prelude.{◌≡◌, ℕ, ◌≤◌, List, ◌++◌, length, Some, Result};
ghost use Rattle.sspi_gate.specs.declared.answer.GateError.{GateError};
ghost use Rattle.sspi_gate.specs.declared.answer.Relayed.{Relayed};
ghost use Rattle.sspi_gate.specs.Decided.{IsDecided};
ghost use Rattle.sspi_gate.specs.Relay.{IsRelay};
ghost use Rattle.sspi_gate.specs.Way.{Way};
ghost use Rattle.sspi_framing.specs.Front.{AreRequests, GivesFirst};
ghost use Rattle.sspi_tsreq.specs.declared.request.TsRequest.{TsRequest};

/// Bytes that are requests are what a reader takes first, one request after another, from each
/// stream that begins with them; and what it takes first are such bytes.
pub fn a_front_is_what_is_read_first()
    ensures given { (front more : List ℕ) (requests : List TsRequest) → AreRequests front requests →
        GivesFirst (front ++ more) requests more }
    ensures taken { (stream rest : List ℕ) (requests : List TsRequest) →
        GivesFirst stream requests rest →
        (front : List ℕ) × (stream ≡ front ++ rest) × AreRequests front requests }
{}

/// A stream has one prefix of a given number of requests.
pub fn one_front_is_read()
    ensures { (stream x y : List ℕ) (requests others : List TsRequest) →
        GivesFirst stream requests x → GivesFirst stream others y →
        length requests ≡ length others → (requests ≡ others) × (x ≡ y) }
{}

/// Each request takes at least one byte.
pub fn each_request_takes_bytes()
    ensures { (front : List ℕ) (requests : List TsRequest) → AreRequests front requests →
        length requests ≤ length front }
{}

/// If both streams are known, they and the number of turns decide the answer, except for stream
/// faults and out of memory. The causes of the other answers exclude each other, and each answer
/// comes whenever its cause is there.
pub fn the_streams_decide()
    ensures { (limit : ℕ) (up down up_first down_first up_second down_second : Way)
        (client server : List ℕ)
        (first second : Result Relayed GateError) → up.left ≡ Some client →
        down.left ≡ Some server →
        IsRelay limit up down up_first down_first first →
        IsRelay limit up down up_second down_second second →
        IsDecided first → IsDecided second → first ≡ second }
{}
