//! A flush that fails.

use audit_readers::{Input, ProgFault, Unwatched, audit_io, resolve_io};
use std::io::{Error, ErrorKind, Read, Write};
use std::process::Abort;

// The trace of one replica and one thread with nothing recorded, up to its root: what follows is the root's 4,096 bytes, all 0.
static HEAD: [u8; 44] = [
    0x4e, 0x52, 0x56, 0x54, 0, 1, 4, 1, 0, 1, 0, 1, 0, 0, 0, 0, 0, 0, 0, 0, // counts
    0, 0, 0, 0, 0, 0, 0, 1, 0, 0, 0, 0, 0, 0, 0, 1, // head of the dump
    0, 0, 0, 0, 0, 0, 0, 1, // number of the root
];

/// Takes all that is written, and fails at its flush.
#[derive(Drop)]
struct FailsAtFlush(Vec<u8>);

impl Write for FailsAtFlush {
    fn write(&mut self, bytes: &[u8]) -> std::io::Result<usize> {
        self.0.extend_from_slice(bytes)?;
        Ok(bytes.len())
    }

    fn flush(&mut self) -> std::io::Result<()> {
        Err(Error::from(ErrorKind::Other))
    }
}

static ROOT: [u8; 4096] = [0; 4096];

/// Holds what was written, and how it ended, against what is expected.
fn expect(rt: &impl Abort, told: Result<u8, ProgFault>, output: &FailsAtFlush, written: &str) {
    assert!(rt; output.0.as_slice() == written.as_bytes());
    assert!(rt; matches!(told, Err(ProgFault::CannotWrite)));
}

#[test]
fn flush_that_fails(rt: HostRuntime) {
    let alloc = rt.alloc();
    let mut output = FailsAtFlush(Vec::new(alloc));
    let mut input = Input::new(HEAD.as_slice().chain(ROOT.as_slice()));
    let told = audit_io(alloc, &mut input, &mut output, false, 0, &mut Unwatched);
    expect(&rt, told, &output, "yes\norder\n");
    let mut output = FailsAtFlush(Vec::new(alloc));
    let mut input = Input::new(HEAD.as_slice().chain(ROOT.as_slice()));
    let told = resolve_io(alloc, &mut input, &mut output, "0x400123", 0, false);
    expect(&rt, told, &output, "not mapped\n");
}
