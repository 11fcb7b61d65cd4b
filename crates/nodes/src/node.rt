// A node as it is kept: its kind, its two parts and its size.
use crate::kind::Kind;

#[derive(Clone, Copy)]
pub struct Node {
    pub kind: Kind,
    pub x: u64,
    pub y: u64,
    pub size: u64,
}
