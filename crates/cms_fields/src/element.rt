//! Elements that hold fields (X.690, 8.1.1).
ghost use Rattle.std.specs.Prelude.{◌≡◌, ◌==◌, true, None, length, IfErr, OnOk};
ghost use Rattle.cms_tlv.specs.State.{Answers, FaultIsSticky};
ghost use Rattle.cms_tlv.specs.Refines.{Refines};
ghost use Rattle.cms_tlv.specs.Law.{rules_of};
ghost use Rattle.cms_tlv.specs.RefusalReasons.{SaysWhy};
ghost use Rattle.cms_tlv.specs.Reading.{ends_here};
ghost use Rattle.cms_fields.specs.Contents.{FaultsIn};
ghost use Rattle.cms_fields.specs.Grammar.{IsReadBy, tagged};

use crate::field::{Field, Fields};
use crate::sink::{Sink, Stop};
use crate::write::{Write, emit_element};
use cms_tlv::{Bound, Fault, Input, Source};

/// An element with the identifier octet `ID` that holds `A`. When it is read, its length may be
/// definite or indefinite; when it is written, its length is the shortest definite one (X.690, 10.1).
#[derive(Drop)]
pub struct Tagged<const ID: u8, A>(pub A);

impl<const ID: u8, A: Write> Write for Tagged<ID, A> {
    ghost Value = { A.Value };

    ghost grammar = { tagged ID A.grammar };

    ghost value = { λ k x. A.value k x.0 };

    fn emit<S: Sink>(&self, kept: &[u8], sink: &mut S) -> Result<(), Stop> {
        emit_element(ID, &self.0, kept, sink)
    }

    fn law() {
        A::law();
    }
}

impl<const ID: u8, A: Fields> Field for Tagged<ID, A> {
    fn read<R: Input>(source: &mut Source<R>, bound: &Bound) -> Result<Tagged<ID, A>, Fault> {
        let inner = source.enter(bound, ID)?;
        let contents = A::read_to_end(source, inner)?;
        Ok(Tagged(contents))
    }

    fn begins_with(octet: u8) -> bool {
        octet == ID
    }
}

/// Reads an element after its header: its fields and their end. `inner` is where they end.
pub fn read_after_header<R: Input, const ID: u8, A: Fields>(
    source: &mut Source<R>,
    inner: Bound,
) -> Result<Tagged<ID, A>, Fault>
    ensures sticky { FaultIsSticky source.old source.new result }
    ensures accounted { source.old.fault ≡ None → Answers source.old source.new result }
    ensures clear { OnOk result ((ends_here inner (length source.old.done) ≡ true
        → source.old.ahead ≡ None) → source.new.ahead ≡ None) }
    ensures refines { source.old.fault ≡ None
        → Refines (λ s v. A.value s.done v.0) (A.grammar.reader inner)
        source.old source.new result }
    ensures faults { A.grammar.is_contents ≡ true
        → IsReadBy A.grammar (rules_of inner.strict) → source.old.fault ≡ None
        → IfErr result (FaultsIn (A.grammar.spelled (rules_of inner.strict)) inner
        source.old source.new) }
    ensures why { A.grammar.is_contents ≡ true → source.old.fault ≡ None
        → IfErr result (SaysWhy A.grammar.has_paths A.grammar.malformed source.old source.new) }
{
    A::law();
    source.standing()?;
    let contents = A::read_to_end(source, inner)?;
    Ok(Tagged(contents))
}
