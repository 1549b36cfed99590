//! What follows from the definitions alone: a message is explained as its reader reads it. Each law
//! is the contract of a call that does nothing.
ghost use Rattle.std.specs.Prelude.{◌≡◌, ℕ, List, [], ◌∷◌, ◌++◌, Ok, Err, Some};
ghost use Rattle.hex.specs.Hex.{decode_of};
ghost use Rattle.hex.specs.declared.error.FromHexError.{FromHexError};
ghost use Rattle.sspi_types.specs.declared.error_kind.ErrorKind.{ErrorKind};
ghost use Rattle.sspi_types.specs.Errors.{error_kind_name};
ghost use Rattle.sspi_tokens.specs.Reading.{init_at, targ_at};
ghost use Rattle.sspi_tsreq.specs.Reading.{request_at};
ghost use Rattle.sspi_explain.specs.Codes.{kind_code, kind_name};
ghost use Rattle.sspi_explain.specs.Explained.{as_it_is, digits_of, explained_line, mark_of};
ghost use Rattle.sspi_explain.specs.Page.{Sheet};
ghost use Rattle.sspi_explain.specs.Request.{request_told};
ghost use Rattle.sspi_explain.specs.Token.{init_told, resp_told};
ghost use Rattle.sspi_explain.specs.Told.{Spot, read_of};

/// A request is explained exactly as it is read: by its fields where `TsRequest::from_buffer`
/// accepts it, with the values that it returns; as refused, with the same kind, where it refuses.
pub fn requests_are_told_as_read()
    ensures { (page : Sheet) (place : Spot) →
        read_of (request_told page place) ≡ request_at place.rest }
{}

/// The same for a NegTokenInit and `NegTokenInit::decode`.
pub fn init_tokens_are_told_as_read()
    ensures { (page : Sheet) (place : Spot) → read_of (init_told page place) ≡ init_at place.rest }
{}

/// The same for a NegTokenResp and `NegTokenTarg::decode`.
pub fn resp_tokens_are_told_as_read()
    ensures { (page : Sheet) (place : Spot) → read_of (resp_told page place) ≡ targ_at place.rest }
{}

/// A line that is not the hex of a message is left as it was.
pub fn other_lines_stand()
    ensures no_hex { (line : List ℕ) (error : FromHexError) → decode_of (digits_of line) ≡ Err error
        → explained_line line ≡ as_it_is line }
    ensures empty { (line : List ℕ) → decode_of (digits_of line) ≡ Ok [] →
        explained_line line ≡ as_it_is line }
{}

/// A marked line keeps its mark.
pub fn marks_are_kept()
    ensures { (line : List ℕ) (byte : ℕ) (message : List ℕ) →
        decode_of (digits_of line) ≡ Ok (byte ∷ message)
        → (text : List ℕ) × (explained_line line ≡ mark_of line ++ text) }
{}

/// The code that a server sends for a kind is explained by the name of that kind.
pub fn codes_tell_their_kinds()
    ensures { (kind : ErrorKind) → kind_name (kind_code kind) ≡ Some (error_kind_name kind) }
{}
