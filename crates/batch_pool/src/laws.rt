//! Laws of the pool, each on a function that does nothing.

ghost use Rattle.std.specs.Prelude.{◌≡◌};
ghost use Rattle.batch_pool.specs.declared.workers.TheConstants.{MAX_WORKERS_AT_ONCE};

/// The limits of the pool.
pub fn limits_are_these()
    ensures workers { MAX_WORKERS_AT_ONCE ≡ 16 }
{}
