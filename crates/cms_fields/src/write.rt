//! Values that are written in DER.
//!
//! A value is walked once, from its last octet to its first, whatever is made of it: a sink counts,
//! compares or writes what it is given (`cms_setof`).
//!
//! The law of a part is a method of `Write`, and not a trait of its own: the kit passes a call one
//! dictionary for each bound, and their number would grow with the square of a record's depth.
ghost use Rattle.std.specs.Prelude.{OnErr, OnOk};
ghost use Rattle.cms_tlv.specs.Spelling.{element, der};
ghost use Rattle.cms_fields.specs.Assembly.{after_header};
ghost use Rattle.cms_fields.specs.Sinks.{Emits, MayStop};

use crate::sink::{Sink, Stop, emit_header};

/// A value that is written in DER from octets that are kept elsewhere.
pub trait Write {
    ghost use Rattle.std.specs.Prelude.{ℕ, List, OnErr, OnOk};
    ghost use Rattle.cms_tlv.specs.Spelling.{der};
    ghost use Rattle.cms_fields.specs.Grammar.{Grammar, IsLawful};
    ghost use Rattle.cms_fields.specs.Sinks.{Emits, MayStop};

    // The value that it stands for.
    ghost Value: { Type 0 };

    // How that is spelled and read, which values are the same, and of what its DER is assembled.
    ghost grammar: { Grammar Value };

    // The value, in the kept octets.
    ghost value: { List ℕ → Self → Value };

    /// Gives its encoding to a sink, from the last octet to the first.
    fn emit<S: Sink>(&self, kept: &[u8], sink: &mut S) -> Result<(), Stop>
        requires { grammar.is_value (value kept.now self.now) }
        ensures ok { OnOk result (Emits S.taking (grammar.spelled der) grammar.assembled
            grammar.same (value kept.now self.now) kept.now sink.old sink.new) }
        ensures stops { OnErr result (MayStop S.taking (grammar.spelled der) grammar.same
            (value kept.now self.now) (S.taking.count sink.old)) };

    /// Does nothing. Its contract says of a field: it is read if and only if it is spelled; a spelling
    /// determines where it ends and what it spells, and that is a value; its encodings in DER are equal
    /// if and only if the values are the same; and each of these encodings is a frame in DER. Of
    /// contents it says the same, but not that they are frames.
    fn law()
        ensures { IsLawful grammar };
}

/// Gives a sink an element with the identifier octet `ident` that holds the encoding of `contents`.
pub fn emit_element<T: Write, S: Sink>(
    ident: u8,
    contents: &T,
    kept: &[u8],
    sink: &mut S,
) -> Result<(), Stop>
    requires { T.grammar.is_value (T.value kept.now contents.now) }
    ensures ok { OnOk result (Emits S.taking (element der ident (T.grammar.spelled der))
        (after_header ident T.grammar.assembled) T.grammar.same (T.value kept.now contents.now)
        kept.now sink.old sink.new) }
    ensures stops { OnErr result (MayStop S.taking (element der ident (T.grammar.spelled der))
        T.grammar.same (T.value kept.now contents.now) (S.taking.count sink.old)) }
{
    S::law();
    let before = sink.count();
    contents.emit(kept, sink)?;
    let n = sink.count() - before;
    emit_header(ident, n, kept, sink)
}

impl<'a, T: Write> Write for &'a T {
    ghost Value = { T.Value };

    ghost grammar = { T.grammar };

    ghost value = { λ k x. T.value k x.now };

    fn emit<S: Sink>(&self, kept: &[u8], sink: &mut S) -> Result<(), Stop> {
        (**self).emit(kept, sink)
    }

    fn law() {
        T::law();
    }
}
