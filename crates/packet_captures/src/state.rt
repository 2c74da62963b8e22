//! State of a capture between two records or blocks.

ghost use Rattle.std.specs.Prelude.{◌≡◌, ◌+◌, ◌-◌, ◌^◌, min, sum_by, [], OnOk, OnErr};
ghost use Rattle.packet_captures.specs.State.{lost_at, lost_of, section_state, pcap_state, with_interface, with_stamp, with_lost, start};

use crate::byte_order::ByteOrder;
use crate::form::Form;
use crate::interface::Interface;
use crate::pcap::PcapHead;
use std::alloc::{AllocError, Global};
use std::marker::Model;

/// The form of the bytes that follow, the interfaces of their section and the stamp of its last
/// packet, and how many packets the sections before it lost.
#[derive(Drop)]
pub struct CaptureState {
    form: Form,
    interfaces: Vec<Interface>,
    stamp: u64,
    lost: u64,
}

impl Model for CaptureState {
    ghost use Rattle.packet_captures.specs.State.{State};

    ghost Value = { State };

    ghost view = { λ s. record { form = s.form; interfaces = s.interfaces.items; stamp = s.stamp; lost = s.lost } };
}

/// Adds up what the interfaces lost, and a number before them.
fn lost_of(before: u64, interfaces: &[Interface]) -> u64
    ensures { result ≡ min (before + sum_by (λ i. i.lost) interfaces.now) (2 ^ 64 - 1) }
{
    let mut lost = before;
    for interface in interfaces {
        lost = lost.saturating_add(interface.lost);
    }
    lost
}

/// Sets what the interface of this index lost, if there is one.
fn set_lost(interfaces: &mut [Interface], index: usize, lost: u64)
    ensures { interfaces.new ≡ lost_at index lost interfaces.old }
{
    if index < interfaces.len() {
        interfaces[index].lost = lost;
    }
}

impl CaptureState {
    /// State before the first byte.
    pub(crate) fn new(alloc: Global) -> CaptureState
        ensures { result ≡ start }
    {
        CaptureState {
            form: Form::Start,
            interfaces: Vec::new(alloc),
            stamp: 0,
            lost: 0,
        }
    }

    /// Form of the bytes that follow.
    pub(crate) fn form(&self) -> Form
        ensures { result ≡ self.now.form }
    {
        self.form
    }

    /// Interfaces that the section has described.
    pub(crate) fn interfaces(&self) -> &[Interface]
        ensures { result.now ≡ self.now.interfaces }
    {
        &self.interfaces
    }

    /// Stamp of the section's last packet.
    pub(crate) fn stamp(&self) -> u64
        ensures { result ≡ self.now.stamp }
    {
        self.stamp
    }

    /// Number of packets lost so far, or the largest of 64 bits.
    pub(crate) fn lost(&self) -> u64
        ensures { result ≡ lost_of self.now }
    {
        lost_of(self.lost, &self.interfaces)
    }

    /// Begins a section.
    pub(crate) fn begin_section(&mut self, order: ByteOrder)
        ensures { self.new ≡ section_state order self.old }
    {
        self.lost = lost_of(self.lost, &self.interfaces);
        self.interfaces.clear();
        self.stamp = 0;
        self.form = Form::Section(order);
    }

    /// Begins the records of pcap.
    pub(crate) fn begin_pcap(&mut self, head: PcapHead)
        ensures { self.new ≡ pcap_state head self.old }
    {
        self.form = Form::Pcap(head);
    }

    /// Adds an interface.
    pub(crate) fn add_interface(&mut self, interface: Interface) -> Result<(), AllocError>
        ensures added { OnOk result (self.new ≡ with_interface interface self.old) }
        ensures failed { OnErr result (self.new ≡ self.old) }
    {
        self.interfaces.push(interface)?;
        Ok(())
    }

    /// Notes the stamp of a packet.
    pub(crate) fn set_stamp(&mut self, stamp: u64)
        ensures { self.new ≡ with_stamp stamp self.old }
    {
        self.stamp = stamp;
    }

    /// Sets the number of packets that an interface lost, if there is one and the section described
    /// the interface.
    pub(crate) fn set_lost(&mut self, index: usize, lost: Option<u64>)
        ensures { self.new ≡ with_lost index lost self.old }
    {
        if let Some(lost) = lost {
            set_lost(&mut self.interfaces, index, lost);
        }
    }
}
