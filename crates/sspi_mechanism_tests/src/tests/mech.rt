//! Scripts of calls on the plain mechanisms, with what each must answer.

mod asks;
mod configurations;
mod kdc;
mod kerberos;
mod kerberos_refusals;
mod ntlm;
mod object;
mod plain_kdc;
mod scene;
mod script;
