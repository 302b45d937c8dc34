//! TSTInfo (RFC 3161, section 2.4.2).
ghost use Rattle.std.specs.Prelude.{◌≡◌, ◌≢◌, ◌+◌, ◌<◌, ◌^◌, List, ℕ, None, Ok, IfOk, IfSome, OnOk, option_map};
ghost use Rattle.std.specs.Option.{is_some};
ghost use Rattle.cms_tsp.specs.TstInfo.{Accuracy, TstInfo, tst_info};
ghost use Rattle.cms_rows.specs.Rows.{AddsRows, Show, entry_if};
ghost use Rattle.cms_rows.specs.Fields.{AfterGenTime, of_accuracy, of_after_gen_time, of_imprint, of_tst_info};

use crate::kinds::{
    ACCURACY, GEN_TIME, HASH_ALGORITHM, HASHED_MESSAGE, MICROS, MILLIS, ORDERING, SECONDS, TSA,
    TST_EXTENSIONS, TST_INFO, TST_NONCE, TST_POLICY, TST_SERIAL_NUMBER, TST_VERSION,
};
use crate::row::{Row, add_head};
use crate::rows::Rows;
use cms_fields::{Last, OptionalThen, Tagged, Then, Write};
use cms_scalars::TrueSpan;
use cms_tsp::{AccuracySpans, AfterAccuracy, ImprintSpans, TstInfoSpans, tst_info_spans};
use std::alloc::{AllocError, Global};

/// Adds the rows of a MessageImprint by DER.
fn add_imprint(
    imprint: &ImprintSpans,
    level: u32,
    kept: &[u8],
    rows: &mut Vec<Row>,
) -> Result<(), AllocError>
    requires { level + 1 < 2 ^ 32 }
    ensures { OnOk result (AddsRows kept.now
        (of_imprint level (⟦<ImprintSpans as Write>⟧.value kept.now imprint.now))
        rows.old.items rows.new.items) }
{
    let Tagged(Then(hash_algorithm, Last(hashed_message))) = imprint;
    hash_algorithm.add_rows(HASH_ALGORITHM, level, kept, rows)?;
    hashed_message.add_rows(HASHED_MESSAGE, level, kept, rows)
}

impl Rows for AccuracySpans {
    ghost Value = { Accuracy };

    ghost shown = { ⟦<AccuracySpans as Write>⟧.value };

    ghost entries = { of_accuracy };

    ghost below = { 1 };

    fn add_rows(
        &self,
        kind: u32,
        level: u32,
        kept: &[u8],
        rows: &mut Vec<Row>,
    ) -> Result<(), AllocError> {
        let Tagged(OptionalThen(seconds, OptionalThen(millis, micros))) = self;
        let inner = level + 1;
        add_head(rows, kind, level, kept)?;
        seconds.add_rows(SECONDS, inner, kept, rows)?;
        millis.add_rows(MILLIS, inner, kept, rows)?;
        micros.add_rows(MICROS, inner, kept, rows)
    }
}

/// Adds the row of ordering, if it is TRUE.
fn add_ordering(
    ordering: &Option<TrueSpan>,
    level: u32,
    kept: &[u8],
    rows: &mut Vec<Row>,
) -> Result<(), AllocError>
    ensures { OnOk result (AddsRows kept.now (entry_if ORDERING level
        (is_some (option_map (⟦<TrueSpan as Write>⟧.value kept.now) ordering.now)))
        rows.old.items rows.new.items) }
{
    match ordering {
        Some(_) => add_head(rows, ORDERING, level, kept),
        None => Ok(()),
    }
}

impl Rows for OptionalThen<AccuracySpans, AfterAccuracy> {
    ghost Value = { AfterGenTime };

    ghost shown = { ⟦<OptionalThen<AccuracySpans, AfterAccuracy> as Write>⟧.value };

    ghost entries = { of_after_gen_time };

    ghost below = { 1 };

    fn add_rows(
        &self,
        kind: u32,
        level: u32,
        kept: &[u8],
        rows: &mut Vec<Row>,
    ) -> Result<(), AllocError> {
        let OptionalThen(accuracy, OptionalThen(ordering, after_ordering)) = self;
        let OptionalThen(nonce, OptionalThen(tsa, extensions)) = after_ordering;
        accuracy.add_rows(kind, level, kept, rows)?;
        add_ordering(ordering, level, kept, rows)?;
        nonce.add_rows(TST_NONCE, level, kept, rows)?;
        tsa.add_rows(TSA, level, kept, rows)?;
        extensions.add_rows(TST_EXTENSIONS, level, kept, rows)
    }
}

impl Rows for TstInfoSpans {
    ghost Value = { TstInfo };

    ghost shown = { ⟦<TstInfoSpans as Write>⟧.value };

    ghost entries = { of_tst_info };

    ghost below = { 2 };

    fn add_rows(
        &self,
        kind: u32,
        level: u32,
        kept: &[u8],
        rows: &mut Vec<Row>,
    ) -> Result<(), AllocError> {
        let Tagged(Then(version, Then(policy, Then(imprint, after_imprint)))) = self;
        let Then(serial_number, Then(gen_time, after_gen_time)) = after_imprint;
        let inner = level + 1;
        add_head(rows, kind, level, kept)?;
        version.add_rows(TST_VERSION, inner, kept, rows)?;
        policy.add_rows(TST_POLICY, inner, kept, rows)?;
        add_imprint(imprint, inner, kept, rows)?;
        serial_number.add_rows(TST_SERIAL_NUMBER, inner, kept, rows)?;
        gen_time.add_rows(GEN_TIME, inner, kept, rows)?;
        after_gen_time.add_rows(ACCURACY, inner, kept, rows)
    }
}

/// The rows of the TSTInfo that these octets are in DER, in the order of the definitions: where in them
/// each of its fields lies. None if they are no TSTInfo. An error means out of memory.
pub fn tst_info_rows(alloc: Global, octets: &[u8]) -> Result<Option<Vec<Row>>, AllocError>
    ensures found { IfOk result (λ found. IfSome found (λ rows. (v : TstInfo)
        × tst_info octets.now v × Show octets.now (of_tst_info TST_INFO 0 v) rows.items)) }
    ensures none { result ≡ Ok None → (v : TstInfo) → tst_info octets.now v → ⊥ }
{
    match tst_info_spans(alloc, octets) {
        Ok(Some(spans)) => some_rows(alloc, &spans, octets),
        Ok(None) => Ok(None),
        Err(fault) => Err(fault),
    }
}

/// The rows of the TSTInfo whose parts `spans` names in `kept`. An error means out of memory.
fn some_rows(
    alloc: Global,
    spans: &TstInfoSpans,
    kept: &[u8],
) -> Result<Option<Vec<Row>>, AllocError>
    requires { tst_info kept.now (⟦<TstInfoSpans as Write>⟧.value kept.now spans.now) }
    ensures found { IfOk result (λ found. IfSome found (λ rows. (v : TstInfo)
        × tst_info kept.now v × Show kept.now (of_tst_info TST_INFO 0 v) rows.items)) }
    ensures some { result ≢ Ok None }
{
    let mut rows = Vec::new(alloc);
    match spans.add_rows(TST_INFO, 0, kept, &mut rows) {
        Ok(()) => Ok(Some(rows)),
        Err(fault) => Err(fault),
    }
}
