//! What goes through a queue, and what each end knows of it.
use std::collections::LinkedList;

/// An entry of a queue, with the number of its sender.
#[derive(Drop)]
pub struct Item<M> {
    /// The number of its sender.
    pub from: u8,
    /// What it says.
    pub kind: M,
}

/// What a sender that was taken in had sent. No value of it is made.
pub struct Ended<M> {
    /// Its number.
    pub from: u8,
    /// What it sent, in order.
    pub sent: LinkedList<Item<M>>,
}

/// What a pass may do and what it knows. No value of it is made.
pub struct View<M> {
    /// It may receive.
    pub gets: bool,
    /// It may send, under its number.
    pub sends: bool,
    /// Its number.
    pub from: u8,
    /// What it sent, in order.
    pub sent: LinkedList<Item<M>>,
    /// What it received, in order.
    pub got: LinkedList<Item<M>>,
    /// How many senders it made.
    pub made: u64,
    /// The senders that it took in.
    pub ended: LinkedList<Ended<M>>,
}
