//! The front end as the register file is told of it.
//! Plain values: nothing here is asked or switched.
use front_end::{Capabilities, Path};

/// What a front end can switch, and the path that is on.
#[derive(Clone, Copy, Debug, PartialEq, Eq)]
pub struct Front {
    pub has: Capabilities,
    pub path: Path,
}
