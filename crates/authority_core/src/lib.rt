//! The authority: what it is asked to issue, the entries that it issues, and their certificates.
//!
//! A request file is TOML with the dates between which the certificate is to be valid, the host
//! names that it is for, a public key, and maybe a common name. [`read_request`] reads it and
//! answers only what can be issued, as does [`read_requests`] of a file of several.
//! [`entry_of_request`] makes the entry of a request in the log of the authority, and [`issue`]
//! adds it to the log with the key; [`issue_list`] adds those of several requests by one record.
//! [`cert`] writes the certificate of an entry of the log, and [`certs`] those of several as PEM.
#![tactic(auto)]

mod issuing;
mod requests;
mod writing;

pub use issuing::{
    IssueError, entry_of_request, issue, issue_list, law_entries_say_what_was_asked,
    law_issued_entries_keep_to_the_rules, law_issued_lists_keep_to_the_rules,
    law_stores_that_follow_the_log_give_its_forms,
};
pub use requests::{
    Field, Names, Request, RequestError, RequestListError, read_request, read_requests,
};
pub use writing::{SeveralError, WriteError, cert, certs, light_cert, light_certs};
