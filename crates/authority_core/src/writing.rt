//! Writing certificates of what was issued.

mod certificate;
mod error;
mod item;
mod light;
mod pem;
mod proof;
mod several;

pub use certificate::cert;
pub use error::{SeveralError, WriteError};
pub use light::light_cert;
pub use several::{certs, light_certs};
