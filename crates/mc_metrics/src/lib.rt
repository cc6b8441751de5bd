//! The metrics of a running server, as Prometheus scrapes them over HTTP. `Snapshot` has the
//! numbers, and `Scrape` answers the requests of one round with them; a connection of the kit's
//! `http_server` reads the requests and sends the answers. Nothing here reads a socket, starts a
//! thread or changes a number.
//!
//! `specs/Exposition.antt` has the form of the text, `specs/Metrics.antt` what is written in it,
//! and `specs/Answering.antt` what each request is answered.
#![tactic(auto)]

pub use answering::Scrape;
pub use exposition::write_metrics;
pub use gathering::{ServerShown, Shown, snapshot_of};
pub use metric::{METRICS, Metric, ServerMetric, TenantMetric, WorkerMetric};
pub use snapshot::{LogNumbers, Snapshot, TenantNumbers, WorkerNumbers};

pub mod answering;
pub mod exposition;
pub mod gathering;
pub mod laws;
pub mod metric;
mod page;
pub mod snapshot;
