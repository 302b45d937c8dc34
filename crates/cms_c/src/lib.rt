//! The library for C: conversions, listings, changes, findings, comparisons, covers and fields of
//! messages in memory. `cms_canon.h` declares these calls for C.
//!
//! Each call reads the message again: a handle would save a copy, and needs pointers that go out, with
//! a proof by hand for each. No pointer may be NULL, since a slice is never at NULL and a call over raw
//! pointers gets no generated proof.
#![tactic(auto)]

mod changes;
mod check;
mod convert;
mod cover;
mod digests;
mod extent;
mod fields;
mod given;
mod many;
mod outcome;
mod pieces;
mod same;
mod show;
mod version;

pub use changes::{Change, cms_canon_changes, cms_canon_list_changes};
pub use check::{Finding, cms_canon_check};
pub use convert::cms_canon_convert;
pub use cover::cms_canon_cover;
pub use digests::{Digest, DigestAsked, cms_canon_check_digests, cms_canon_digests_asked};
pub use extent::{Extent, cms_canon_extent};
pub use fields::{cms_canon_fields, cms_canon_tst_info_fields};
pub use many::{Many, cms_canon_convert_many};
pub use outcome::{NAME_LEN, Outcome};
pub use pieces::{Piece, cms_canon_pieces};
pub use same::cms_canon_same;
pub use show::cms_canon_show;
pub use version::cms_canon_version;
