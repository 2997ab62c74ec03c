//! What a log and its passes have in common.
use std::marker::Brand;

/// Names a log: its depth, the number of its replicas, how many passes may make events, and how many places it has: 65,536, if the
/// name doesn't say. A function over a log is generic in its name, and a caller picks the four for `Brand`.
pub trait LogName {
    ghost use Rattle.std.specs.Prelude.{ℕ};
    ghost use Rattle.vs_types.specs.declared.addresses.depth.Depth.{Depth};
    ghost use Rattle.vs_types.specs.declared.limits.TheConstants.{LOG_PLACES};

    ghost depth: { Depth };

    ghost replicas: { ℕ };

    ghost passes: { ℕ };

    ghost places: { ℕ } = { LOG_PLACES };
}

impl LogName for Brand {
    ghost use Rattle.vs_types.specs.declared.addresses.depth.Depth.TheVariants.{Four};
    ghost use Rattle.vs_types.specs.declared.limits.TheConstants.{LOG_PLACES};

    ghost depth = { Four };

    ghost replicas = { 1 };

    ghost passes = { 1 };

    ghost places = { LOG_PLACES };
}
