//! Fields in memory of their own, so that what holds them has one size, whatever they are.
use crate::field::Fields;
use crate::sink::{Sink, Stop};
use crate::write::Write;
use cms_tlv::{Bound, Fault, Input, Source};

impl<T: Write> Write for Box<T> {
    ghost Value = { T.Value };

    ghost grammar = { T.grammar };

    ghost value = { λ k x. T.value k x.value };

    fn emit<S: Sink>(&self, kept: &[u8], sink: &mut S) -> Result<(), Stop> {
        (**self).emit(kept, sink)
    }

    fn law() {
        T::law();
    }
}

impl<T: Fields> Fields for Box<T> {
    fn read_to_end<R: Input>(source: &mut Source<R>, bound: Bound) -> Result<Box<T>, Fault> {
        let fields = T::read_to_end(source, bound)?;
        match Box::new(source.allocator(), fields) {
            Ok(boxed) => Ok(boxed),
            Err(_) => Err(source.out_of_memory()),
        }
    }
}
