//! Addresses of the command line.

use crate::refusal::Refusal;
use crate::stop::Stop;
use std::net::{SocketAddr, ToSocketAddrs};

/// The addresses between commas.
pub fn addresses_in(rt: &HostRuntime, text: &str) -> Result<Vec<SocketAddr>, Stop> {
    let mut addresses = Vec::new(rt.alloc());
    for part in text.split(',') {
        let address = address_of(rt, part)?;
        addresses.push(address)?;
    }
    Ok(addresses)
}

/// The address of this text.
pub fn address_of(rt: &HostRuntime, text: &str) -> Result<SocketAddr, Refusal> {
    match text.to_socket_addrs(rt) {
        Ok(mut found) => match found.next() {
            Some(address) => Ok(address),
            None => Err(Refusal::Machine),
        },
        Err(_) => Err(Refusal::Address),
    }
}
