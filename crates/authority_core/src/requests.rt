//! Request files.

mod error;
mod listed;
mod names;
mod parts;
mod reading;
mod values;

pub use error::{Field, RequestError, RequestListError};
pub use listed::read_requests;
pub use names::Names;
pub use parts::Request;
pub use reading::read_request;
