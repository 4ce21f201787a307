//! A list of lines.

use crate::line::Line;
use ad_bytes::List;

/// A list of lines, which a contract sees as one.
pub type Lines = List<Line>;
