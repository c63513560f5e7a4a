//! Issuing what was asked for.

mod adding;
mod entry;
mod error;
mod extensions;
mod laws;
mod several;
mod subject;

pub use adding::issue;
pub use entry::entry_of_request;
pub use error::IssueError;
pub use laws::{
    law_entries_say_what_was_asked, law_issued_entries_keep_to_the_rules,
    law_issued_lists_keep_to_the_rules, law_stores_that_follow_the_log_give_its_forms,
};
pub use several::issue_list;
