//! Instances that stop nothing, end no segment, and begin no thread.

pub(crate) mod always_go;
pub(crate) mod no_segment;
pub(crate) mod no_thread;
