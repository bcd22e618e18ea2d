// What a world keeps.
use crate::members::Members;
use circular_buffer::HeapCircularBuffer;
use client_core::Client;
use pond_base::Party;
use ring_mail::Mail;
use std::alloc::Global;

/// The members and clients of a ring, and every message that was ever sent.
#[derive(Drop)]
pub struct World<N> {
    pub(crate) alloc: Global,
    pub(crate) members: Members<N>,
    pub(crate) clients: Vec<Client>,
    pub(crate) mail: Mail,
    /// The last deliveries, with places from 1 on.
    pub(crate) recent: HeapCircularBuffer<(Party, Party, u32)>,
    pub(crate) ended: bool,
}
