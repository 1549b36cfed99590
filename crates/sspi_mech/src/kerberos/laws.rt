//! What holds for plain Kerberos by its definitions alone: each law is proved once, and holds for
//! every object.
ghost use Rattle.std.specs.Prelude.{◌≡◌, ℕ, ◌-◌, ◌<◌, ◌^◌, List, None, Some, Ok, Err, ◌++◌, drop};
ghost use Rattle.std.specs.Prelude.{length, false, true};
ghost use Rattle.std.specs.List.{slice_get};
ghost use Rattle.sspi_types.specs.declared.error_kind.ErrorKind.{ErrorKind};
ghost use Rattle.sspi_types.specs.declared.security_status.SecurityStatus.TheVariants as status;
ghost use Rattle.sspi_names.specs.Name.{Name, IsName, inner_of};
ghost use Rattle.sspi_mech.specs.declared.kerberos.stage.Stage.TheVariants as stages;
ghost use Rattle.sspi_mech.specs.declared.plain_kdc.Scripted.{Scripted};
ghost use Rattle.sspi_mech.specs.declared.step.Reply.TheVariants.{Answered};
ghost use Rattle.sspi_mech.specs.Calls.{Call, ToUnseal, ToVerify};
ghost use Rattle.sspi_mech.specs.Kerberos.{kerberos_meaning};
ghost use Rattle.sspi_mech.specs.KerberosLogon.{request_at};
ghost use Rattle.sspi_mech.specs.KerberosMessages.{ticket_request, ticket_reply, ap_request};
ghost use Rattle.sspi_mech.specs.KerberosMessages.{ap_reply, read_ticket, as_request};
ghost use Rattle.sspi_mech.specs.KerberosMessages.{as_reply, tgs_request, tgs_reply, kdc_error};
ghost use Rattle.sspi_mech.specs.KerberosPeers.{IsPeer};
ghost use Rattle.sspi_mech.specs.KerberosReplies.{kind_of_code, first_key_in, session_key_in};
ghost use Rattle.sspi_mech.specs.KerberosStage.{KerberosState};
ghost use Rattle.sspi_mech.specs.KerberosSteps.{Goes, keyed_with, server_step, shown_to};
ghost use Rattle.sspi_mech.specs.PlainKdc.{first_key, session_key, knows, told_by};

/// Of a blob that opens, the text is all that follows the tag, which has 16 bytes.
pub fn opened_is_body()
    ensures { (m : KerberosState) (n : ℕ) (blob text : List ℕ) →
        kerberos_meaning.opens m n blob text → text ≡ drop 16 blob }
{}

/// What one end seals, the other opens, and does not refuse if it is the next message and the count
/// is not spent.
pub fn sealed_opens()
    ensures opens { (m p : KerberosState) (n : ℕ) (text blob : List ℕ) →
        IsPeer m p → kerberos_meaning.seals m n text blob → kerberos_meaning.opens p n blob text }
    ensures taken { (p : KerberosState) (blob text : List ℕ) →
        kerberos_meaning.opens p p.protection.unsealings blob text →
        p.protection.unsealings < 2 ^ 64 - 1 →
        kerberos_meaning.permits p (ToUnseal blob) }
{}

/// What one end signs, the other verifies, and does not refuse if it is the next MIC and the count
/// is not spent.
pub fn signed_verifies()
    ensures verifies { (m p : KerberosState) (n : ℕ) (text mic : List ℕ) →
        IsPeer m p → kerberos_meaning.signs m n text mic → kerberos_meaning.verifies p n mic text }
    ensures taken { (p : KerberosState) (mic text : List ℕ) →
        kerberos_meaning.verifies p p.protection.verifications mic text →
        p.protection.verifications < 2 ^ 64 - 1 →
        kerberos_meaning.permits p (ToVerify mic text) }
{}

/// A call that may answer `Ok` is refused only when out of memory.
pub fn permitted_is_not_refused()
    ensures { (m : KerberosState) (call : Call) (kind : ErrorKind) →
        kerberos_meaning.permits m call → kerberos_meaning.refuses m call kind → ⊥ }
{}

/// A server with a ticket takes a request for it. Any server takes the session key, before or after
/// it sent a ticket, and knows the client's name and key from it.
pub fn sent_is_taken()
    ensures question { (m : KerberosState) (ticket : List ℕ) → m.ticket ≡ Some ticket →
        server_step stages.Unused m ticket_request
        ≡ Goes (record m { stage = stages.TicketSent })
        (record { status = status.ContinueNeeded; output = ticket_reply ticket }) }
    ensures first { (m : KerberosState) (name : Name) (key : List ℕ) → IsName name →
        length (inner_of name) < 2 ^ 16 → length key ≡ 32 →
        server_step stages.Unused m (ap_request (inner_of name) key)
        ≡ Goes (keyed_with m key (stages.Accepted (record { name = name; user_to_user = false })))
        (record { status = status.Ok; output = ap_reply key }) }
    ensures paired { (m : KerberosState) (name : Name) (key : List ℕ) → IsName name →
        length (inner_of name) < 2 ^ 16 → length key ≡ 32 →
        server_step stages.TicketSent m (ap_request (inner_of name) key)
        ≡ Goes (keyed_with m key (stages.Accepted (record { name = name; user_to_user = true })))
        (record { status = status.Ok; output = ap_reply key }) }
{}

/// A client reads the ticket that a server sends, and accepts the proof of a server that took its
/// key.
pub fn answered_is_read()
    ensures ticket { (ticket : List ℕ) → length ticket ≡ 32 →
        read_ticket (ticket_reply ticket) ≡ Some ticket }
    ensures shown { (key : List ℕ) → shown_to (Some key) (ap_reply key) ≡ Ok tt }
{}

/// A client reads the keys and the errors of a KDC.
pub fn replies_are_read()
    ensures first { (key : List ℕ) → length key ≡ 32 →
        first_key_in (Answered (as_reply key)) ≡ Ok key }
    ensures session { (key : List ℕ) → length key ≡ 32 →
        session_key_in (Answered (tgs_reply key)) ≡ Ok key }
    ensures refused { (code : ℕ) → first_key_in (Answered (kdc_error code)) ≡ Err
        (kind_of_code code) }
{}

/// A plain KDC past the end of its script gives a client the keys that it asks for: a first key if
/// it knows the name, and a session key for any first key and ticket.
pub fn kdc_serves()
    ensures first { (users : List (List ℕ)) (script : List Scripted) (call : ℕ)
        (url name : List ℕ) →
        slice_get script call ≡ None → knows users name ≡ true →
        first_key_in (told_by users script call (request_at url (as_request name))) ≡ Ok
        (first_key name) }
    ensures session { (users : List (List ℕ)) (script : List Scripted) (call : ℕ)
        (url key ticket : List ℕ) →
        slice_get script call ≡ None → length key ≡ 32 → length ticket ≡ 32 →
        session_key_in (told_by users script call (request_at url (tgs_request key ticket))) ≡ Ok
        (session_key (key ++ ticket)) }
{}
