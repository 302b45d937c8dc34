//! The tests of `cms_tlv`, on public calls only.

mod elements;
mod ends;
mod opaque;
mod primitives;
mod sources;
mod spans;
mod standing;
mod watched;
