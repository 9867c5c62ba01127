//! What a thread promises.

ghost use Rattle.workers.specs.Reports.{IsReportOf};

use crate::deed::Deed;
use bsp_machine::CountedWorker;
use std::snapshot::Snapshot;
use std::thread::Promise;
use turnstile::{RowSeat, Runner};

/// What a thread gives back: its runner, and after go the seat and the worker.
#[derive(Drop)]
pub(crate) struct Report<T> {
    pub(crate) runner: Runner<T>,
    pub(crate) played: Option<(RowSeat, CountedWorker)>,
}

/// Who the thread was when it started.
#[derive(Drop)]
pub(crate) struct ReportOf<T>(pub(crate) Snapshot<Runner<T>>);

impl<T: Deed> Promise<Report<T>> for ReportOf<T> {
    ghost kept_by = { λ p r. IsReportOf T.done p.0.value r.runner r.played };
}
