//! Writes the text of a certificate.

ghost use Rattle.std.specs.Prelude.{◌≡◌, ◌≤◌, length};
ghost use Rattle.std.specs.List.{flat_map};
ghost use Rattle.byte_files.specs.Writing.{Writes};
ghost use Rattle.exercise_check.specs.Certificate.{step_text, head_text, certificate_text};

use crate::certificate::{Certificate, Step};
use crate::certificate_fault::CertificateWriterFault;
use arrayvec::ArrayVec;
use byte_files::{WriteFailed, put};
use std::io::Write;

/// Magic, the first eight bytes of a certificate: the format's name and version.
pub(crate) const MAGIC: [u8; 8] = *b"DSCT0001";

/// Number of steps that one write takes.
const BLOCK: usize = 512;

/// Text of a block of at most 512 steps, eight bytes each.
type BlockText = ArrayVec<u8, 4096>;

fn step_bytes(step: Step) -> [u8; 8]
    ensures { result ≡ step_text step }
{
    let [p0, p1, p2, p3] = step.place.to_be_bytes();
    let [l0, l1, l2, l3] = step.link.to_be_bytes();
    [p0, p1, p2, p3, l0, l1, l2, l3]
}

/// Text of a block of at most 512 steps.
fn block_text(steps: &[Step]) -> BlockText
    requires { length steps.now ≤ 512 }
    ensures { result.items ≡ flat_map step_text steps.now }
{
    let mut text = BlockText::new();
    for step in steps {
        text.try_extend_from_slice(&step_bytes(*step)).unwrap();
    }
    text
}

/// Writes a block of at most 512 steps in one call.
fn put_block<W: Write>(writer: &mut W, steps: &[Step]) -> Result<(), WriteFailed>
    requires { length steps.now ≤ 512 }
    ensures { Writes result (W.contents writer.old) (W.contents writer.new) (flat_map step_text steps.now) }
{
    let text = block_text(steps);
    put(writer, text.as_slice())
}

fn put_steps<W: Write>(writer: &mut W, steps: &[Step]) -> Result<(), WriteFailed>
    ensures { Writes result (W.contents writer.old) (W.contents writer.new) (flat_map step_text steps.now) }
{
    let mut others = steps;
    while others.len() > BLOCK {
        let (block, rest) = others.split_at(BLOCK);
        put_block(writer, block)?;
        others = rest;
    }
    put_block(writer, others)
}

fn head_bytes(count: u32) -> [u8; 12]
    ensures { result ≡ head_text count }
{
    let [m0, m1, m2, m3, m4, m5, m6, m7] = MAGIC;
    let [c0, c1, c2, c3] = count.to_be_bytes();
    [m0, m1, m2, m3, m4, m5, m6, m7, c0, c1, c2, c3]
}

fn put_certificate<W: Write>(writer: &mut W, steps: &[Step]) -> Result<(), WriteFailed>
    requires { length steps.now ≤ 4294967295 }
    ensures { Writes result (W.contents writer.old) (W.contents writer.new) (certificate_text steps.now) }
{
    put(writer, &head_bytes(steps.len() as u32))?;
    put_steps(writer, steps)
}

/// Writes the text of a certificate of at most 0xFFFFFFFF steps, numbers big-endian, or a prefix of
/// it if a write fails (Write). A write that takes no byte counts as failed. Takes no memory and
/// does not flush.
pub fn write_certificate<W: Write>(
    certificate: &Certificate,
    writer: &mut W,
) -> Result<(), CertificateWriterFault>
    requires { length certificate.now.steps.items ≤ 4294967295 }
    ensures { Writes result (W.contents writer.old) (W.contents writer.new) (certificate_text certificate.now.steps.items) }
{
    match put_certificate(writer, &certificate.steps) {
        Ok(()) => Ok(()),
        Err(_) => Err(CertificateWriterFault::Write),
    }
}
