//! A choice of two fields, distinguished by the first octet.
ghost use Rattle.std.specs.Prelude.{◌||◌, ◌⊎◌};
ghost use Rattle.cms_fields.specs.Choices.{choice_value};
ghost use Rattle.cms_fields.specs.Grammar.{choice};

use crate::contents::begins;
use crate::field::Field;
use crate::sink::{Sink, Stop};
use crate::write::Write;
use cms_tlv::{Bound, Fault, Input, Source};

/// The one field or the other, which begin with different octets. If the next octet begins neither, the
/// refusal is that of the second.
#[derive(Drop)]
pub enum Choice<A, B> {
    First(A),
    Second(B),
}

impl<A: Write, B: Write> Write for Choice<A, B> {
    ghost Value = { A.Value ⊎ B.Value };

    ghost grammar = { choice A.grammar B.grammar };

    ghost value = { λ k x. choice_value (A.value k) (B.value k) x };

    fn emit<S: Sink>(&self, kept: &[u8], sink: &mut S) -> Result<(), Stop> {
        match self {
            Choice::First(field) => field.emit(kept, sink),
            Choice::Second(field) => field.emit(kept, sink),
        }
    }

    fn law() {
        A::law();
        B::law();
    }
}

impl<A: Field, B: Field> Field for Choice<A, B> {
    fn read<R: Input>(source: &mut Source<R>, bound: &Bound) -> Result<Choice<A, B>, Fault> {
        let next = source.peek(bound)?;
        if begins::<A>(next) {
            let first = A::read(source, bound)?;
            Ok(Choice::First(first))
        } else {
            let second = B::read(source, bound)?;
            Ok(Choice::Second(second))
        }
    }

    fn begins_with(octet: u8) -> bool {
        A::begins_with(octet) || B::begins_with(octet)
    }
}
