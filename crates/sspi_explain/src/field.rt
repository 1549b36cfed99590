//! The fields of the messages, by the names of their standards.
ghost use Rattle.std.specs.Prelude.{◌≡◌};
ghost use Rattle.sspi_explain.specs.Page.{field_name, kind_name};
ghost use Rattle.sspi_explain.specs.Told.{fault_of};

use crate::stop::Fault;

/// A field of a TSRequest (MS-CSSP 2.2.1) or of a token (RFC 4178 4.2), or what encloses the
/// fields.
#[derive(Clone, Copy)]
pub(crate) enum Field {
    Header,
    Version,
    NegoTokens,
    AuthInfo,
    PubKeyAuth,
    ErrorCode,
    ClientNonce,
    MechTypes,
    ReqFlags,
    MechToken,
    MechListMic,
    NegState,
    SupportedMech,
    ResponseToken,
}

impl Field {
    pub fn name(self) -> &'static str
        ensures { result.now ≡ field_name self }
    {
        match self {
            Field::Header => "header",
            Field::Version => "version",
            Field::NegoTokens => "negoTokens",
            Field::AuthInfo => "authInfo",
            Field::PubKeyAuth => "pubKeyAuth",
            Field::ErrorCode => "errorCode",
            Field::ClientNonce => "clientNonce",
            Field::MechTypes => "mechTypes",
            Field::ReqFlags => "reqFlags",
            Field::MechToken => "mechToken",
            Field::MechListMic => "mechListMIC",
            Field::NegState => "negState",
            Field::SupportedMech => "supportedMech",
            Field::ResponseToken => "responseToken",
        }
    }
}

/// Which reader a message is for, which decides the kind of its refusals.
#[derive(Clone, Copy)]
pub(crate) enum Form {
    Request,
    Token,
}

impl Form {
    /// The name of the reader's error kind for a fault in this field. Any fault of a request's
    /// header counts as an early end, and any fault of a token as an invalid token.
    pub fn kind(self, field: Field, fault: Fault) -> &'static str
        ensures { result.now ≡ kind_name self field (fault_of fault) }
    {
        match (self, field) {
            (Form::Token, _) => "InvalidToken",
            (Form::Request, Field::Header) => "UnexpectedEof",
            (Form::Request, _) => fault.name(),
        }
    }
}
