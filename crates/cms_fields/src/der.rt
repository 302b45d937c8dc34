//! Octets in memory that must be one field in DER.
ghost use Rattle.std.specs.Prelude.{◌≡◌, ◌≢◌, Ok, None, true, IfOk, IfSome};
ghost use Rattle.cms_fields.specs.Grammar.{IsReadBy};
ghost use Rattle.cms_tlv.specs.Spelling.{der};
ghost use Rattle.cms_tlv.specs.declared.fault.Fault.TheVariants as Fault;

use crate::field::{Field, read};
use cms_tlv::{Bound, Fault, Slice, Source, frames_end_themselves};
use std::alloc::{AllocError, Global};

/// Reads octets that must be one field in DER, and nothing more: what it is, with a copy of the octets,
/// which its spans are into. None if they are not. An error means out of memory.
pub fn read_der<T: Field>(alloc: Global, octets: &[u8]) -> Result<Option<(T, Vec<u8>)>, AllocError>
    ensures found { T.grammar.is_field ≡ true → IsReadBy T.grammar der
        → IfOk result (λ found. IfSome found (λ p. (p.1.items ≡ octets.now)
        × T.grammar.spelled der octets.now (T.value octets.now p.0))) }
    ensures none { T.grammar.is_field ≡ true → IsReadBy T.grammar der → result ≡ Ok None
        → (v : T.Value) → T.grammar.spelled der octets.now v → ⊥ }
{
    T::law();
    frames_end_themselves();
    let mut source = Source::new(alloc, Slice::new(octets), octets.len() as u64);
    let field = read::<_, T>(&mut source, &Bound::top().strict());
    let (_, kept) = source.finish();
    match field {
        Ok(field) if kept.len() == octets.len() => Ok(Some((field, kept))),
        Ok(_) => Ok(None),
        Err(fault) => none_or_error(fault),
    }
}

/// Out of memory is an error, and any other fault says that the octets are no such field.
fn none_or_error<A>(fault: Fault) -> Result<Option<A>, AllocError>
    ensures none { result ≡ Ok None → fault ≢ Fault.OutOfMemory }
    ensures no_value { IfOk result (λ o. o ≡ None) }
{
    match fault {
        Fault::OutOfMemory => Err(AllocError),
        _ => Ok(None),
    }
}
