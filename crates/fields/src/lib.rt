//! Fields: ids, triples, sequences and numbers as bytes, both ways. Frames, records and texts are made of them.
//!
//! Each field is pushed at the end of bytes, and read from their front. What was pushed is read again, whatever follows, and
//! what is read was spelled by exactly the bytes that are gone (`laws`). `specs/Spelling.antt` says which bytes a field has, and
//! `specs/Reading.antt` which fault is met first in bytes that are none.
//!
//! A reader of a sequence is given the most points that it may have. It takes one piece of memory; no other reader takes any.
#![tactic(auto)]

mod fault;
mod input;
mod laws;
mod reader;
mod writer;

pub use fault::FieldFault;
pub use input::Input;
pub use laws::{ids_are_read_back, sequences_are_read_back, triples_are_read_back};
pub use reader::{read_id, read_sequence, read_triple};
pub use writer::{
    TRIPLE_LEN, id_len, push_id, push_sequence, push_triple, push_u16, push_u32, push_u64,
    sequence_len,
};
