// A line that a build script prints for Cargo.

use cc_text::Text;

/// A line for Cargo, without its line feed.
#[derive(Drop, Debug)]
pub struct LinkLine {
    /// What Cargo reads.
    pub text: Text,
    /// Whether it is printed once for all builds that share what they know, unless lines are repeated.
    pub once: bool,
}
