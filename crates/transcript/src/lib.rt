// The session: from the bytes of a quote file and of a script to the report that is printed.
#![tactic(auto)]

pub mod printing;
pub mod session;
