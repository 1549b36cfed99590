//! NTSTATUS codes, with their names from ntstatus.h.

ghost use Rattle.std.specs.Prelude.{◌≡◌, Some, option_map};
ghost use Rattle.sspi_types.specs.StatusCodes.{status_name, status_text, status_debug_text};

use std::fmt;

/// An NTSTATUS code (ntstatus.h). Every number is one; 43 have a name here. The highest two bits
/// are its severity; 0b11 is an error.
#[derive(Clone, Copy, PartialEq, Eq)]
pub struct NStatusCode(pub u32);

impl NStatusCode {
    /// No failure.
    pub const SUCCESS: NStatusCode = NStatusCode(0x00000000);

    /// No quota is set for the account; no failure.
    pub const NO_QUOTAS_FOR_ACCOUNT: NStatusCode = NStatusCode(0x0000010d);

    /// No logon server could be reached.
    pub const NO_LOGON_SERVERS: NStatusCode = NStatusCode(0xc000005e);

    /// There is no such logon session, or it has ended.
    pub const NO_SUCH_LOGON_SESSION: NStatusCode = NStatusCode(0xc000005f);

    /// There is no such privilege.
    pub const NO_SUCH_PRIVILEGE: NStatusCode = NStatusCode(0xc0000060);

    /// The client lacks a privilege.
    pub const PRIVILEGE_NOT_HELD: NStatusCode = NStatusCode(0xc0000061);

    /// The name is not a valid account name.
    pub const INVALID_ACCOUNT_NAME: NStatusCode = NStatusCode(0xc0000062);

    /// The account exists already.
    pub const USER_EXISTS: NStatusCode = NStatusCode(0xc0000063);

    /// There is no such account.
    pub const NO_SUCH_USER: NStatusCode = NStatusCode(0xc0000064);

    /// The group exists already.
    pub const GROUP_EXISTS: NStatusCode = NStatusCode(0xc0000065);

    /// There is no such group.
    pub const NO_SUCH_GROUP: NStatusCode = NStatusCode(0xc0000066);

    /// The account is in the group, or the group still has members.
    pub const MEMBER_IN_GROUP: NStatusCode = NStatusCode(0xc0000067);

    /// The account is not in the group.
    pub const MEMBER_NOT_IN_GROUP: NStatusCode = NStatusCode(0xc0000068);

    /// The last administrator cannot be removed.
    pub const LAST_ADMIN: NStatusCode = NStatusCode(0xc0000069);

    /// The current password is wrong in a password change.
    pub const WRONG_PASSWORD: NStatusCode = NStatusCode(0xc000006a);

    /// The password has characters that are not allowed.
    pub const ILL_FORMED_PASSWORD: NStatusCode = NStatusCode(0xc000006b);

    /// The new password breaks the rules for passwords.
    pub const PASSWORD_RESTRICTION: NStatusCode = NStatusCode(0xc000006c);

    /// The user name or the password is wrong.
    pub const LOGON_FAILURE: NStatusCode = NStatusCode(0xc000006d);

    /// The account may not log on like this, for example with an empty password.
    pub const ACCOUNT_RESTRICTION: NStatusCode = NStatusCode(0xc000006e);

    /// The account may not log on at this hour.
    pub const INVALID_LOGON_HOURS: NStatusCode = NStatusCode(0xc000006f);

    /// The account may not log on from this machine.
    pub const INVALID_WORKSTATION: NStatusCode = NStatusCode(0xc0000070);

    /// The password has expired.
    pub const PASSWORD_EXPIRED: NStatusCode = NStatusCode(0xc0000071);

    /// The account is disabled.
    pub const ACCOUNT_DISABLED: NStatusCode = NStatusCode(0xc0000072);

    /// The operation took too long.
    pub const IO_TIMEOUT: NStatusCode = NStatusCode(0xc00000b5);

    /// The caller is not a logon process.
    pub const NOT_LOGON_PROCESS: NStatusCode = NStatusCode(0xc00000ed);

    /// The logon session exists already.
    pub const LOGON_SESSION_EXISTS: NStatusCode = NStatusCode(0xc00000ee);

    /// The logon session is not in the right state for this.
    pub const BAD_LOGON_SESSION_STATE: NStatusCode = NStatusCode(0xc0000104);

    /// The identifier of the logon session is in use.
    pub const LOGON_SESSION_COLLISION: NStatusCode = NStatusCode(0xc0000105);

    /// There is no such type of logon.
    pub const INVALID_LOGON_TYPE: NStatusCode = NStatusCode(0xc000010b);

    /// The account is built in and cannot be changed in this way.
    pub const SPECIAL_ACCOUNT: NStatusCode = NStatusCode(0xc0000124);

    /// The access token is in use already.
    pub const TOKEN_ALREADY_IN_USE: NStatusCode = NStatusCode(0xc000012b);

    /// The role of the logon server conflicts with that of another in the domain.
    pub const LOGON_SERVER_CONFLICT: NStatusCode = NStatusCode(0xc0000132);

    /// The clocks of the machine and of the domain controller differ too much.
    pub const TIME_DIFFERENCE_AT_DC: NStatusCode = NStatusCode(0xc0000133);

    /// The account is not in the local group.
    pub const MEMBER_NOT_IN_ALIAS: NStatusCode = NStatusCode(0xc0000152);

    /// The account is in the local group already.
    pub const MEMBER_IN_ALIAS: NStatusCode = NStatusCode(0xc0000153);

    /// The account may not log on in this way.
    pub const LOGON_NOT_GRANTED: NStatusCode = NStatusCode(0xc0000155);

    /// The account lacks the right to this type of logon.
    pub const LOGON_TYPE_NOT_GRANTED: NStatusCode = NStatusCode(0xc000015b);

    /// The request to the server took too long.
    pub const TRANSACTION_TIMED_OUT: NStatusCode = NStatusCode(0xc0000210);

    /// The password has to be changed before the first logon.
    pub const PASSWORD_MUST_CHANGE: NStatusCode = NStatusCode(0xc0000224);

    /// The account is locked, after too many wrong passwords.
    pub const ACCOUNT_LOCKED_OUT: NStatusCode = NStatusCode(0xc0000234);

    /// The information given is not enough to log on.
    pub const INSUFFICIENT_LOGON_INFO: NStatusCode = NStatusCode(0xc0000250);

    /// The account logs on with a smart card only.
    pub const SMARTCARD_LOGON_REQUIRED: NStatusCode = NStatusCode(0xc00002fa);

    /// Remote logons are disabled.
    pub const CTX_LOGON_DISABLED: NStatusCode = NStatusCode(0xc00a0037);

    /// The code's name in ntstatus.h, such as `STATUS_LOGON_FAILURE`, if it has one here.
    pub fn name(self) -> Option<&'static str>
        ensures { option_map (λ name. name.now) result ≡ status_name self.0 }
    {
        Some(match self {
            NStatusCode::SUCCESS => "STATUS_SUCCESS",
            NStatusCode::NO_QUOTAS_FOR_ACCOUNT => "STATUS_NO_QUOTAS_FOR_ACCOUNT",
            NStatusCode::NO_LOGON_SERVERS => "STATUS_NO_LOGON_SERVERS",
            NStatusCode::NO_SUCH_LOGON_SESSION => "STATUS_NO_SUCH_LOGON_SESSION",
            NStatusCode::NO_SUCH_PRIVILEGE => "STATUS_NO_SUCH_PRIVILEGE",
            NStatusCode::PRIVILEGE_NOT_HELD => "STATUS_PRIVILEGE_NOT_HELD",
            NStatusCode::INVALID_ACCOUNT_NAME => "STATUS_INVALID_ACCOUNT_NAME",
            NStatusCode::USER_EXISTS => "STATUS_USER_EXISTS",
            NStatusCode::NO_SUCH_USER => "STATUS_NO_SUCH_USER",
            NStatusCode::GROUP_EXISTS => "STATUS_GROUP_EXISTS",
            NStatusCode::NO_SUCH_GROUP => "STATUS_NO_SUCH_GROUP",
            NStatusCode::MEMBER_IN_GROUP => "STATUS_MEMBER_IN_GROUP",
            NStatusCode::MEMBER_NOT_IN_GROUP => "STATUS_MEMBER_NOT_IN_GROUP",
            NStatusCode::LAST_ADMIN => "STATUS_LAST_ADMIN",
            NStatusCode::WRONG_PASSWORD => "STATUS_WRONG_PASSWORD",
            NStatusCode::ILL_FORMED_PASSWORD => "STATUS_ILL_FORMED_PASSWORD",
            NStatusCode::PASSWORD_RESTRICTION => "STATUS_PASSWORD_RESTRICTION",
            NStatusCode::LOGON_FAILURE => "STATUS_LOGON_FAILURE",
            NStatusCode::ACCOUNT_RESTRICTION => "STATUS_ACCOUNT_RESTRICTION",
            NStatusCode::INVALID_LOGON_HOURS => "STATUS_INVALID_LOGON_HOURS",
            NStatusCode::INVALID_WORKSTATION => "STATUS_INVALID_WORKSTATION",
            NStatusCode::PASSWORD_EXPIRED => "STATUS_PASSWORD_EXPIRED",
            NStatusCode::ACCOUNT_DISABLED => "STATUS_ACCOUNT_DISABLED",
            NStatusCode::IO_TIMEOUT => "STATUS_IO_TIMEOUT",
            NStatusCode::NOT_LOGON_PROCESS => "STATUS_NOT_LOGON_PROCESS",
            NStatusCode::LOGON_SESSION_EXISTS => "STATUS_LOGON_SESSION_EXISTS",
            NStatusCode::BAD_LOGON_SESSION_STATE => "STATUS_BAD_LOGON_SESSION_STATE",
            NStatusCode::LOGON_SESSION_COLLISION => "STATUS_LOGON_SESSION_COLLISION",
            NStatusCode::INVALID_LOGON_TYPE => "STATUS_INVALID_LOGON_TYPE",
            NStatusCode::SPECIAL_ACCOUNT => "STATUS_SPECIAL_ACCOUNT",
            NStatusCode::TOKEN_ALREADY_IN_USE => "STATUS_TOKEN_ALREADY_IN_USE",
            NStatusCode::LOGON_SERVER_CONFLICT => "STATUS_LOGON_SERVER_CONFLICT",
            NStatusCode::TIME_DIFFERENCE_AT_DC => "STATUS_TIME_DIFFERENCE_AT_DC",
            NStatusCode::MEMBER_NOT_IN_ALIAS => "STATUS_MEMBER_NOT_IN_ALIAS",
            NStatusCode::MEMBER_IN_ALIAS => "STATUS_MEMBER_IN_ALIAS",
            NStatusCode::LOGON_NOT_GRANTED => "STATUS_LOGON_NOT_GRANTED",
            NStatusCode::LOGON_TYPE_NOT_GRANTED => "STATUS_LOGON_TYPE_NOT_GRANTED",
            NStatusCode::TRANSACTION_TIMED_OUT => "STATUS_TRANSACTION_TIMED_OUT",
            NStatusCode::PASSWORD_MUST_CHANGE => "STATUS_PASSWORD_MUST_CHANGE",
            NStatusCode::ACCOUNT_LOCKED_OUT => "STATUS_ACCOUNT_LOCKED_OUT",
            NStatusCode::INSUFFICIENT_LOGON_INFO => "STATUS_INSUFFICIENT_LOGON_INFO",
            NStatusCode::SMARTCARD_LOGON_REQUIRED => "STATUS_SMARTCARD_LOGON_REQUIRED",
            NStatusCode::CTX_LOGON_DISABLED => "STATUS_CTX_LOGON_DISABLED",
            _ => return None,
        })
    }
}

/// Writes `STATUS_LOGON_FAILURE [0xc000006d]`, or `NSTATUS code 0xc00700ea` for a code without a
/// name.
impl fmt::Display for NStatusCode {
    ghost output = { λ code. Some (status_text code.0) };

    fn fmt<W: fmt::Write>(&self, f: &mut fmt::Formatter<W>) -> fmt::Result {
        let number = self.0;
        match self.name() {
            Some(name) => write!(f, "{name} [0x{number:x}]"),
            None => write!(f, "NSTATUS code 0x{number:x}"),
        }
    }
}

/// Writes `NStatusCode(0xc000006d)`.
impl fmt::Debug for NStatusCode {
    ghost debug_output = { λ code. Some (status_debug_text code.0) };

    fn fmt<W: fmt::Write>(&self, f: &mut fmt::Formatter<W>) -> fmt::Result {
        let number = self.0;
        write!(f, "NStatusCode(0x{number:x})")
    }
}
