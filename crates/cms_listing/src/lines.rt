//! The lines of a listing.
ghost use Rattle.std.specs.Prelude.{◌≡◌, OnOk, OnErr};
ghost use Rattle.std.specs.String.{string_bytes};
ghost use Rattle.cms_fields.specs.Writing.{Grew};

use crate::values::Listed;
use std::alloc::AllocError;

/// The lines of a record: those of its fields begin alike.
#[derive(Drop)]
pub(crate) struct Lines<'a> {
    beginning: &'a str,
    text: &'a mut String,
}

impl<'a> Lines<'a> {
    /// Lines that are appended to `text`.
    pub(crate) fn new(beginning: &'a str, text: &'a mut String) -> Lines<'a> {
        Lines { beginning, text }
    }

    /// Appends the line of a field. An error means out of memory.
    pub(crate) fn field<T: Listed>(&mut self, name: &str, value: &T) -> Result<(), AllocError> {
        self.text.push_str(self.beginning)?;
        self.text.push_str(name)?;
        self.text.push_str(": ")?;
        value.append(self.text)?;
        self.text.push('\n')
    }

    /// Appends the line of a member of a list, after the line of its field. An error means out of memory.
    pub(crate) fn member<T: Listed>(&mut self, value: &T) -> Result<(), AllocError> {
        self.text.push_str("  ")?;
        value.append(self.text)?;
        self.text.push('\n')
    }
}

/// Appends a text that is done. If nothing was there, it is moved and not copied.
pub(crate) fn hand_over(text: String, out: &mut String) -> Result<(), AllocError>
    ensures ok { OnOk result (Grew (string_bytes out.old) (string_bytes out.new)) }
    ensures err { OnErr result (string_bytes out.new ≡ string_bytes out.old) }
{
    if out.is_empty() {
        *out = text;
        return Ok(());
    }
    out.push_str(&text)
}
