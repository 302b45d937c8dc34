//! The digest algorithms that a message names.
ghost use Rattle.std.specs.Prelude.{◌≡◌, map, IfOk};
ghost use Rattle.std.specs.List.Sorted.{IsPermutation};
ghost use Rattle.cms_message.specs.Algorithms.{algorithm};
ghost use Rattle.cms_message.specs.SignedData.{digest_algorithms};

use crate::sorted::Sorted;
use cms_message::{Indexed, SignedData};
use std::alloc::{AllocError, Global};

/// The contents octets of the OBJECT IDENTIFIERs of a message's digest algorithms.
pub(crate) type DigestOids<'a> = Sorted<&'a [u8]>;

/// Those of `signed_data`. An error means out of memory.
pub(crate) fn algorithms_listed<'a>(
    alloc: Global,
    signed_data: &SignedData<'a>,
) -> Result<DigestOids<'a>, AllocError>
    ensures { IfOk result (IsPermutation (map algorithm (digest_algorithms signed_data.now))) }
{
    let digest_algorithms = signed_data.digest_algorithms();
    let mut names = Vec::with_capacity(alloc, digest_algorithms.len() as usize)?;
    for listed in digest_algorithms {
        names.push(listed.algorithm().octets())?;
    }
    Ok(Sorted::new(names))
}
