//! The laws of a record.
//!
//! What a record asks of its parts is computed (`is_field`, `is_contents`): each identifier octet may
//! begin an element, and what may be absent begins with other octets than what follows. A relation
//! would have to be proved for each record.
ghost use Rattle.std.specs.Prelude.{◌≡◌, true};
ghost use Rattle.cms_fields.specs.Grammar.{FieldLaws};

use crate::write::Write;

/// Does nothing. Its contract says what is proved of each record, of the type that is its term.
pub fn record_laws<T: Write>()
    ensures { T.grammar.is_field ≡ true → FieldLaws T.grammar }
{
    T::law();
}
