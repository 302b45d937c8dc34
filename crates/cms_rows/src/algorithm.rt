//! AlgorithmIdentifier.
ghost use Rattle.cms_message.specs.Algorithms.{AlgorithmIdentifier};
ghost use Rattle.cms_message.specs.Spanned.{algorithm_identifier_spanned};
ghost use Rattle.cms_rows.specs.Fields.{of_algorithm};

use crate::kinds::PARAMETERS;
use crate::row::Row;
use crate::rows::Rows;
use cms_fields::{Tagged, Then};
use cms_message::AlgorithmIdentifierSpans;
use std::alloc::AllocError;

impl Rows for AlgorithmIdentifierSpans {
    ghost Value = { AlgorithmIdentifier };

    ghost shown = { algorithm_identifier_spanned };

    ghost entries = { of_algorithm };

    ghost below = { 1 };

    fn add_rows(
        &self,
        kind: u32,
        level: u32,
        kept: &[u8],
        rows: &mut Vec<Row>,
    ) -> Result<(), AllocError> {
        let AlgorithmIdentifierSpans(Tagged(Then(algorithm, parameters))) = self;
        algorithm.add_rows(kind, level, kept, rows)?;
        parameters.add_rows(PARAMETERS, level + 1, kept, rows)
    }
}
