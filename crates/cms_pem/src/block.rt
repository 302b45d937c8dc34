//! The first block of a text.
ghost use Rattle.std.specs.Prelude.{◌≡◌, ◌<◌, ◌≤◌, length, IfSome, filter, not, IfErr, IfOk, MatchOption};
ghost use Rattle.std.specs.List.{position};
ghost use Rattle.cms_pem.specs.Pem.{IsBase64Of, IsBlock, IsEnclosed, IsNoBase64, IsNoBlock, after_line, is_base64, is_blank, wrong_in};

use crate::edge::{Edge, first_edge};
use crate::octet::{is_base64, is_blank};
use base64::DecodeAllocError;
use base64::engine::general_purpose::STANDARD;
use std::alloc::{AllocError, Global};
use thiserror::Error;

/// A block of PEM, decoded.
#[derive(Debug, Drop)]
pub struct Block {
    /// The octets of its base64.
    pub octets: Vec<u8>,
    /// Where the line after it begins, in octets of the text from 0; or the end of the text.
    pub after: usize,
}

/// Why there is no block.
#[derive(Clone, Copy, Debug, Error, PartialEq, Eq)]
pub enum NoBlock {
    /// No line begins a block.
    #[error("no PEM block")]
    NoBegin,
    /// No line ends the block, or the first that ends one has another label.
    #[error("PEM block without an end")]
    NoEnd,
    /// What is between these lines is not base64.
    #[error("malformed base64 at {at}")]
    Malformed {
        /// The place of the first octet that is neither a character of base64 nor white space, in octets
        /// of the text from 0; if there is none, that of the line that ends the block.
        at: usize,
    },
    /// Memory ran out.
    #[error("out of memory")]
    OutOfMemory,
}

/// The first block of PEM from the place `from` of a text on (RFC 7468, section 3).
///
/// A block is a line `-----BEGIN LABEL-----`, base64, and a line `-----END LABEL-----` with the same
/// label. White space may be after these lines and anywhere in the base64, whose lines have any length;
/// else the base64 is that of RFC 4648, section 4, so that header lines (RFC 1421) are refused.
pub fn block_in(alloc: Global, text: &[u8], from: usize) -> Result<Block, NoBlock>
    ensures ok { IfOk result (IsBlock text.now from) }
    ensures err { IfErr result (IsNoBlock text.now from) }
{
    let (begin, end) = edges_in(text, from)?;
    let body = &text[begin.after..end.at];
    match octets_of(alloc, body) {
        Ok(Some(octets)) => Ok(Block {
            octets,
            after: end.after,
        }),
        Ok(None) => Err(NoBlock::Malformed {
            at: begin.after + wrong_in(body),
        }),
        Err(_) => Err(NoBlock::OutOfMemory),
    }
}

/// The lines at which the first block begins and ends.
fn edges_in<'a>(text: &'a [u8], from: usize) -> Result<(Edge<'a>, Edge<'a>), NoBlock>
    ensures enclosed { IfOk result (λ e. IsEnclosed text.now from e.0.after e.1.at) }
    ensures after { IfOk result (λ e. e.1.after ≡ after_line text.now e.1.at) }
    ensures in_order { IfOk result (λ e. (e.0.after ≤ e.1.at) × (e.1.at ≤ length text.now)) }
    ensures err { IfErr result (IsNoBlock text.now from) }
{
    let Some(begin) = first_edge(b"-----BEGIN ", text, from) else {
        return Err(NoBlock::NoBegin);
    };
    let Some(end) = first_edge(b"-----END ", text, begin.after) else {
        return Err(NoBlock::NoEnd);
    };
    if begin.label != end.label {
        return Err(NoBlock::NoEnd);
    }
    Ok((begin, end))
}

/// The octets whose base64 this is, less its white space; or none if it is no base64.
fn octets_of(alloc: Global, body: &[u8]) -> Result<Option<Vec<u8>>, AllocError>
    ensures { IfOk result (λ o. MatchOption o (IsNoBase64 body.now)
        (λ v. IsBase64Of v.items body.now)) }
{
    let symbols = symbols_of(alloc, body)?;
    match STANDARD.decode(alloc, &symbols) {
        Ok(octets) => Ok(Some(octets)),
        Err(DecodeAllocError::DecodeError(_)) => Ok(None),
        Err(DecodeAllocError::OutOfMemory) => Err(AllocError),
    }
}

fn symbols_of(alloc: Global, body: &[u8]) -> Result<Vec<u8>, AllocError>
    ensures { IfOk result (λ v. v.items ≡ filter (λ b. not (is_blank b)) body.now) }
{
    body.iter()
        .copied()
        .filter(|octet| !is_blank(*octet))
        .collect(alloc)
}

/// The place of the first octet that is neither a character of base64 nor white space, or the length.
fn wrong_in(body: &[u8]) -> usize
    ensures value { result ≡ wrong_in body.now }
    ensures bound { result ≤ length body.now }
{
    first_wrong(body).unwrap_or(body.len())
}

fn first_wrong(body: &[u8]) -> Option<usize>
    ensures value { result ≡ position (λ b. not (is_base64 b)) body.now }
    ensures bound { IfSome result (λ at. at < length body.now) }
{
    body.iter().position(|octet| !is_base64(*octet))
}
