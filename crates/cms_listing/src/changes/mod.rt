//! What conversion to DER changes in a message: the changes, as text and as JSON.
//!
//! The elements of the message and of its DER are walked side by side. What lies in one copied piece is
//! the same in both, and is passed at once.

mod change;
mod head;
mod json;
mod members;
mod origins;
mod record;
mod strings;
mod text;
mod tour;
mod within;

pub use change::{Change, ChangeKind, SetName};
pub use json::list_changes_as_json;
pub use text::list_changes;
pub use within::find_changes;
