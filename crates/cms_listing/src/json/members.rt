//! The members of an object, and the items of a list.

use super::values::Json;
use cms_message::Indexed;
use std::alloc::AllocError;

/// Begins an object, and appends its first member. An error means out of memory.
pub(crate) fn append_first<T: Json>(
    name: &str,
    value: &T,
    text: &mut String,
) -> Result<(), AllocError> {
    text.push_str("{\"")?;
    text.push_str(name)?;
    text.push_str("\": ")?;
    value.append_json(text)
}

/// Appends a further member. An error means out of memory.
pub(crate) fn append_member<T: Json>(
    name: &str,
    value: &T,
    text: &mut String,
) -> Result<(), AllocError> {
    append_name(name, text)?;
    value.append_json(text)
}

/// Appends the name of a further member. An error means out of memory.
pub(super) fn append_name(name: &str, text: &mut String) -> Result<(), AllocError> {
    text.push_str(", \"")?;
    text.push_str(name)?;
    text.push_str("\": ")
}

/// Appends a list. An error means out of memory.
pub(super) fn append_list<L: Indexed>(list: &L, text: &mut String) -> Result<(), AllocError>
where
    L::Item: Json + Drop,
{
    text.push('[')?;
    let mut between = "";
    for index in 0..list.len() {
        if let Some(item) = list.get(index) {
            text.push_str(between)?;
            item.append_json(text)?;
            between = ", ";
        }
    }
    text.push(']')
}
