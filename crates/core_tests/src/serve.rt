//! Whole runs: of a few lines, of threads that really run at once, and of threads that a gate stops.

pub(crate) mod gates;
pub(crate) mod growths;
pub(crate) mod hostile;
pub(crate) mod points;
pub(crate) mod runs;
pub(crate) mod scene;
pub(crate) mod scripts;
pub(crate) mod segments;
pub(crate) mod turns;
