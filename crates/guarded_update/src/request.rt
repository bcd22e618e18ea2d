// Requests of clients.
use crate::Update;
use pond_base::{ClientId, Label};

/// An update of the object of a label, by a client that numbers its requests from 1.
#[derive(Debug, Drop)]
pub struct Request {
    pub client: ClientId,
    pub number: u32,
    pub label: Label,
    pub update: Update,
}
