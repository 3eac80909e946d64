//! Points in time.

ghost use Rattle.std.specs.Prelude.{◌≡◌};
ghost use Rattle.std.specs.Duration.{as_nanos};
ghost use Rattle.http_loop.specs.Times.{has_passed as passed};

use std::time::{Duration, Instant};

/// Whether more time than this has passed since then.
pub(crate) fn has_passed(since: Instant, now: Instant, limit: Duration) -> bool
    ensures { result ≡ passed since now (as_nanos limit) }
{
    limit.as_nanos() < now.duration_since(since).as_nanos()
}
