//! Why a text has no number.

use std::error::Error;
use thiserror::Error;

/// Why a text has no number.
#[derive(Clone, Copy, PartialEq, Eq, Debug, Drop, Error)]
pub enum NumFault {
    /// It is no JSON number (RFC 8259, section 6).
    #[error("not a number")]
    NotNumber,
    /// Its value needs more than 38 digits, or more than 38 places after the point.
    #[error("number too wide")]
    TooWide,
}
