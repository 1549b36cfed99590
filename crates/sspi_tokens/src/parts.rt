//! The fields of a token, in place in its bytes.

use crate::neg_result::NegResult;

/// The fields of a `NegTokenInit`, in place in its bytes.
#[derive(Clone, Copy)]
pub(crate) struct InitParts<'a> {
    /// The content of the list: object identifiers, and then anything left over.
    pub mech_types: Option<&'a [u8]>,
    /// The token of the mechanism.
    pub mech_token: Option<&'a [u8]>,
}

/// The fields of a `NegTokenTarg`, in place in its bytes.
#[derive(Clone, Copy)]
pub(crate) struct TargParts<'a> {
    /// What the token says about the negotiation.
    pub neg_result: Option<NegResult>,
    /// The content of the identifier.
    pub supported_mech: Option<&'a [u8]>,
    /// The token of the mechanism.
    pub response_token: Option<&'a [u8]>,
    /// The MIC over the mechanism list.
    pub mech_list_mic: Option<&'a [u8]>,
}
