//! The listing of a message, in lines or as JSON.
//!
//! What a listing says is tested and not defined, since a definition would only repeat the code.

use crate::message::{Message, View};
use cms_listing::{
    list_request, list_request_as_json, list_response, list_response_as_json, list_signed_data,
    list_signed_data_as_json,
};
use std::alloc::{AllocError, Global};

/// The listing of a message: a line for each of its parts, as docs/FORMATS.md has it. An error means out
/// of memory.
pub fn listing(alloc: Global, message: &Message) -> Result<String, AllocError> {
    let mut text = String::new(alloc);
    match message.view() {
        View::Signed(content_info) => {
            list_signed_data(alloc, &content_info.signed_data(), &mut text)?
        }
        View::Request(request) => list_request(alloc, &request, &mut text)?,
        View::Response(response) => list_response(alloc, &response, &mut text)?,
    }
    Ok(text)
}

/// All fields of a message as one JSON object and a line feed, as docs/FORMATS.md has it. An error means
/// out of memory.
pub fn json_of_message(alloc: Global, message: &Message) -> Result<String, AllocError> {
    let mut text = String::new(alloc);
    match message.view() {
        View::Signed(content_info) => {
            list_signed_data_as_json(alloc, &content_info.signed_data(), &mut text)?
        }
        View::Request(request) => list_request_as_json(alloc, &request, &mut text)?,
        View::Response(response) => list_response_as_json(alloc, &response, &mut text)?,
    }
    Ok(text)
}
