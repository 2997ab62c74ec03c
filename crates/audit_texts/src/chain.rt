//! What is printed of chains: the lines of segments and of their faults, and what shows a fault.

pub(crate) mod counts;
pub(crate) mod earlier;
pub(crate) mod evidence;
pub(crate) mod explanation;
pub(crate) mod json;
pub(crate) mod lags;
pub(crate) mod missed;
pub(crate) mod releases;
pub(crate) mod sentence;
pub(crate) mod style;
pub(crate) mod text;
