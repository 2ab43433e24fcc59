//! Addresses.
ghost use Rattle.std.specs.Prelude.{IfErr};
ghost use Rattle.amo_client.specs.Fault.{IsOfAddress};

use crate::fault::ClientFault;
use std::net::{Net, ToSocketAddrs};

/// Refuses a text that is no address, and a name that nobody knows or that cannot be looked up.
pub fn check_address<R: AllocGlobal + Net>(rt: &R, address: &str) -> Result<(), ClientFault>
    ensures { IfErr result (IsOfAddress address.now) }
{
    match address.to_socket_addrs(rt) {
        Ok(_) => Ok(()),
        Err(error) => Err(ClientFault::of_address(rt.alloc(), address, error)),
    }
}
