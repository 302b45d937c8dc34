//! Sets that may not be empty.
ghost use Rattle.std.specs.Prelude.{List, map};
ghost use Rattle.cms_setof.specs.Grammar.{some_of};

use crate::set::SetOf;
use cms_fields::{Field, Fields, Sink, Stop, Write};
use cms_tlv::{Bound, Fault, Input, Reason, Source};

/// A set with at least one member, as in `SET SIZE (1..MAX) OF`: E16 after its end if it has none.
#[derive(Drop)]
pub struct NonEmptySetOf<T>(pub SetOf<T>);

impl<T: Write> Write for NonEmptySetOf<T> {
    ghost Value = { List T.Value };

    ghost grammar = { some_of T.grammar };

    ghost value = { λ k x. map (T.value k) x.0 };

    fn emit<S: Sink>(&self, kept: &[u8], sink: &mut S) -> Result<(), Stop> {
        T::law();
        self.0.emit(kept, sink)
    }

    fn law() {
        SetOf::<T>::law();
    }
}

impl<T: Field> Fields for NonEmptySetOf<T> {
    fn read_to_end<R: Input>(
        source: &mut Source<R>,
        bound: Bound,
    ) -> Result<NonEmptySetOf<T>, Fault> {
        let set = SetOf::read_to_end(source, bound)?;
        if set.is_empty() {
            return Err(source.refuse(Reason::EmptyAttributes));
        }
        Ok(NonEmptySetOf(set))
    }
}
