//! The limit of a trace file.
ghost use Rattle.std.specs.Prelude.{◌≡◌};
ghost use Rattle.work_orders.specs.declared.limits.TheConstants.{MAX_TRACE_BYTES};

/// The most bytes of a trace file: 48 MiB.
pub const MAX_TRACE_BYTES: u32 = 50_331_648;

/// The limit is this number. All other contracts name the constant. It does nothing.
pub fn value_of_the_trace_limit()
    ensures { MAX_TRACE_BYTES ≡ 50331648 }
{}
